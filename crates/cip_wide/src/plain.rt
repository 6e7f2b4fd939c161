//! Lines of the script's own words, with their names and paths in words replaced.

use crate::fault::{LineError, WordFault, wrong_path, wrong_word};
use cip_base::ModuleId;
use cip_chassis::{Name, Topology};
use cip_outcomes::{Ops, name_of, nearest, next_count};
use cip_tool::{hex_fault, number_u32, path_answer};
use cip_world::{Entry, World};
use std::alloc::Global;

/// An op that a line asks for.
#[derive(Drop)]
pub(crate) struct NewOp {
    pub(crate) name: Option<Name>,
    pub(crate) at: ModuleId,
    pub(crate) number: u32,
}

/// A line as a script has it, and the op that it asks for.
#[derive(Drop)]
pub(crate) struct Plain {
    pub(crate) line: String,
    pub(crate) new: Option<NewOp>,
}

// Whether the first word of a line asks for a new op.
fn asks(word: &str) -> bool {
    word == "send" || word == "open" || word == "large" || word == "close"
}

// Whether a word is a path in words.
fn is_in_words(word: &str) -> bool {
    word.contains(',') || word.contains('@') || word.contains('=')
}

// The op that the line asks for by this word.
fn new_op(
    alloc: Global,
    ops: &Ops,
    at: ModuleId,
    word: &str,
    found: &str,
) -> Result<Option<NewOp>, LineError> {
    let Some(name) = name_of(found) else {
        return Ok(number_u32(found).map(|number| NewOp {
            name: None,
            at,
            number,
        }));
    };
    match ops.fresh(at) {
        Some(number) => Ok(Some(NewOp {
            name: Some(name),
            at,
            number,
        })),
        None => Err(wrong_word(alloc, word, "OP", found, WordFault::Spent)),
    }
}

// The op that was named before.
fn put_old_op(
    alloc: Global,
    ops: &Ops,
    at: ModuleId,
    word: &str,
    field: &'static str,
    found: &str,
    line: &mut String,
) -> Result<(), LineError> {
    let Some(name) = name_of(found) else {
        line.push_str(found)?;
        return Ok(());
    };
    match ops.number(&name, at) {
        Some(number) => {
            write!(line, "{number}")?;
            Ok(())
        }
        None => {
            let names = ops.words(alloc, Some(at))?;
            let near = nearest(alloc, found, names.as_slice())?;
            Err(wrong_word(alloc, word, field, found, WordFault::NoOp(near)))
        }
    }
}

// The number of an op of a module that a word names.
fn op_number(ops: &Ops, at: ModuleId, word: &str) -> Option<u32> {
    match name_of(word) {
        Some(name) => ops.number(&name, at),
        None => number_u32(word),
    }
}

// What stands behind the count of a datum, where its word begins with one.
fn behind_count(word: &str) -> Option<&str> {
    match word {
        "+1" | "+1,-" => Some(""),
        _ => word.strip_prefix("+1,"),
    }
}

// A datum of this op, whose word stands there: with the next count in front where it says so.
fn put_datum(
    alloc: Global,
    journal: &[Entry],
    at: ModuleId,
    of: Option<u32>,
    found: &str,
    line: &mut String,
) -> Result<(), LineError> {
    let (Some(bytes), Some(of)) = (behind_count(found), of) else {
        line.push_str(found)?;
        return Ok(());
    };
    if let Some(fault) = hex_fault(bytes) {
        let why = WordFault::NoBytes(fault);
        return Err(wrong_word(alloc, "enter", "BYTES", found, why));
    }
    let [low, high] = next_count(journal, at, of).to_le_bytes();
    write!(line, "{low:02X}{high:02X}{bytes}")?;
    Ok(())
}

fn put_path(alloc: Global, word: &str, found: &str, line: &mut String) -> Result<(), LineError> {
    if !is_in_words(found) {
        line.push_str(found)?;
        return Ok(());
    }
    match path_answer(alloc, found) {
        Ok(path) => {
            line.push_str(path.as_str())?;
            Ok(())
        }
        Err(why) => Err(wrong_path(alloc, word, why)),
    }
}

// The module that a line is for, if it is one.
fn module_of(topology: &Topology, args: &[&str]) -> Option<ModuleId> {
    match args.first() {
        Some(name) => topology.by_name(name.as_bytes()),
        None => None,
    }
}

// The number of the op that an Enter of a module names.
fn entered_op(ops: &Ops, at: ModuleId, args: &[&str]) -> Option<u32> {
    match args {
        [_, of, ..] => op_number(ops, at, of),
        _ => None,
    }
}

// Puts the op that the line asks for by this word, and keeps it.
fn put_new_op(
    alloc: Global,
    ops: &Ops,
    at: ModuleId,
    word: &str,
    found: &str,
    plain: &mut Plain,
) -> Result<(), LineError> {
    plain.new = new_op(alloc, ops, at, word, found)?;
    match &plain.new {
        Some(op) => write!(plain.line, "{}", op.number)?,
        None => plain.line.push_str(found)?,
    }
    Ok(())
}

// The first word of a line, the others, and the module that the line is for, if it is one.
#[derive(Clone, Copy)]
struct Words<'a> {
    word: &'a str,
    args: &'a [&'a str],
    at: Option<ModuleId>,
}

// Puts a word of the line, which the usage calls so.
fn put_word(
    alloc: Global,
    world: &World,
    ops: &Ops,
    words: Words<'_>,
    field: &str,
    found: &str,
    plain: &mut Plain,
) -> Result<(), LineError> {
    let Words { word, args, at } = words;
    match (field, at) {
        ("OP", Some(at)) if asks(word) => put_new_op(alloc, ops, at, word, found, plain),
        ("OP", Some(at)) => put_old_op(alloc, ops, at, word, "OP", found, &mut plain.line),
        ("OF", Some(at)) => put_old_op(alloc, ops, at, word, "OF", found, &mut plain.line),
        ("BYTES", Some(at)) if word == "enter" => {
            let of = entered_op(ops, at, args);
            put_datum(alloc, world.journal(), at, of, found, &mut plain.line)
        }
        ("PATH", _) => put_path(alloc, word, found, &mut plain.line),
        _ => Ok(plain.line.push_str(found)?),
    }
}

/// The line of these words, of which the names of the words behind the first one are the usage.
pub(crate) fn plain_line(
    alloc: Global,
    world: &World,
    ops: &Ops,
    word: &str,
    usage: &'static str,
    args: &[&str],
) -> Result<Plain, LineError> {
    let mut plain = Plain {
        line: String::from_str(alloc, word)?,
        new: None,
    };
    let at = module_of(world.topology(), args);
    let words = Words { word, args, at };
    let mut fields = usage.split(' ');
    for found in args {
        let field = fields.next().unwrap_or("");
        plain.line.push(' ')?;
        put_word(alloc, world, ops, words, field, found, &mut plain)?;
    }
    Ok(plain)
}
