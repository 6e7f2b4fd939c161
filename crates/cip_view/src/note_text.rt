//! The lines that show no part of an entry: what trails and chains mean, in words.
use crate::notes::{NoteWords, chain_ops, last_of, trail_of};
use cip_base::NoMemory;
use cip_book::{Book, MAX_TOLD, NameText, Past};
use cip_read::{CommandWord, Note};
use std::alloc::Global;

// What a command is.
fn command_text(word: CommandWord) -> &'static str {
    match word {
        CommandWord::Send => "a send",
        CommandWord::Open => "an open",
        CommandWord::Large => "a large open",
        CommandWord::Close => "a close",
        CommandWord::Enter => "an enter",
        CommandWord::Set => "a set",
        CommandWord::Produce => "a produce",
    }
}

// Of which request a trail is, and who took it last.
fn put_trail(
    out: &mut String,
    book: &Book<'_>,
    past: &Past<'_>,
    words: &NoteWords<'_>,
) -> Result<(), NoMemory> {
    if words.len() < 2 {
        out.push_str("    no way: the op was never given there, was refused, or is a close\n")?;
        return Ok(());
    }
    match trail_of(past, words) {
        Some(asked) => {
            let name = NameText(book.name(asked.at));
            let (op, what) = (asked.op, command_text(asked.command));
            write!(*out, "    the way of {name}'s op {op}, {what}")?;
        }
        None => out.push_str("    the way of a request whose command was not read")?,
    }
    if let Some(last) = last_of(past, words) {
        write!(*out, "; last taken by {}", NameText(book.name(last)))?;
    }
    out.push_str("\n")?;
    Ok(())
}

// What stands before an op of several.
fn before_op(k: usize, count: usize) -> &'static str {
    if k == 0 {
        ""
    } else if k.saturating_add(1) < count {
        ", "
    } else {
        " or "
    }
}

// The ops of which a connection may be, as `1`, `1 or 2`, `1, 2 or 3`.
fn put_ops(out: &mut String, ops: &[u32]) -> Result<(), NoMemory> {
    for (k, op) in ops.iter().enumerate() {
        out.push_str(before_op(k, ops.len()))?;
        if k < MAX_TOLD {
            write!(*out, "{op}")?;
        } else {
            out.push_str("a later one")?;
        }
    }
    Ok(())
}

// Where a connection begins, and the op that opened it where that is known.
fn put_origin(out: &mut String, first: &str, ops: &[u32]) -> Result<(), NoMemory> {
    if ops.is_empty() {
        write!(*out, "    a connection from {first}")?;
        return Ok(());
    }
    write!(*out, "    the connection of {first}'s op ")?;
    put_ops(out, ops)?;
    write!(*out, ", from {first}")?;
    Ok(())
}

// The modules of a connection that one of these ops opened, and the instances at its end.
fn put_modules(out: &mut String, words: &NoteWords<'_>, ops: &[u32]) -> Result<(), NoMemory> {
    let end = words.len().saturating_sub(2);
    let last = words.at(end.saturating_sub(1));
    put_origin(out, words.at(1), ops)?;
    let mut before = " by ";
    for k in 2..end.saturating_sub(1) {
        write!(*out, "{before}{}", words.at(k))?;
        before = ", ";
    }
    let (ot, to) = (words.at(end), words.at(end.saturating_add(1)));
    writeln!(
        *out,
        " to {last}; O→T to instance {ot}, T→O from instance {to}"
    )?;
    Ok(())
}

fn put_chain(
    alloc: Global,
    out: &mut String,
    past: &Past<'_>,
    words: &NoteWords<'_>,
) -> Result<(), NoMemory> {
    match words.at(0) {
        "chain" => {
            let ops = chain_ops(alloc, past, words)?;
            put_modules(out, words, ops.as_slice())
        }
        "not" => {
            out.push_str("    the module has no connection that the op opened\n")?;
            Ok(())
        }
        _ => {
            let to = words.at(1);
            write!(
                *out,
                "    the connection leads to {to}, which has none under the id by "
            )?;
            out.push_str("which the module before it sends\n")?;
            Ok(())
        }
    }
}

/// Puts what a trail or a chain means behind a text, on a line of its own; of any other line
/// nothing. NoMemory where an allocation is refused.
pub(crate) fn put_meaning(
    alloc: Global,
    out: &mut String,
    book: &Book<'_>,
    past: &Past<'_>,
    line: &[u8],
    note: Note,
) -> Result<(), NoMemory> {
    match note {
        Note::Trail => put_trail(out, book, past, &NoteWords::of(alloc, line)?),
        Note::Chain => put_chain(alloc, out, past, &NoteWords::of(alloc, line)?),
        _ => Ok(()),
    }
}
