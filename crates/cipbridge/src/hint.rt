//! What else helps with a faulty line: what wide scripts have, and spaces in a path.
use cip_console::{Explained, WordFault};
use cip_topology::Name;
use cip_words::line_end;
use std::fmt;

/// What else is told of a faulty line.
#[derive(Clone, Copy)]
pub enum Hint {
    Nothing,
    /// Its first word is one of wide scripts alone.
    WideWord,
    /// An op is a name, as in wide scripts.
    NamedOp,
    /// A path in words has spaces.
    Spaces,
}

impl fmt::Display for Hint {
    fn fmt<W: fmt::Write>(&self, f: &mut fmt::Formatter<W>) -> fmt::Result {
        match self {
            Hint::Nothing => Ok(()),
            Hint::WideWord => {
                f.write_str("; a word of wide scripts: `ciptool script` makes a script of one")
            }
            Hint::NamedOp => {
                f.write_str("; names are for wide scripts: `ciptool script` makes a script of one")
            }
            Hint::Spaces => f.write_str("; no spaces stand in a path in words"),
        }
    }
}

// The first words of lines that wide scripts alone have.
const WIDE: &[&str] = &["cut", "pass", "tickall", "expect", "repeat", "down", "up"];

fn is_wide(word: &[u8]) -> bool {
    for wide in WIDE {
        if wide.as_bytes() == word {
            return true;
        }
    }
    false
}

// Whether a word may name an op in a wide script.
fn is_op_name(word: &[u8]) -> bool {
    match word {
        [first, ..] => first.is_ascii_alphabetic() && Name::read(word).is_some(),
        [] => false,
    }
}

fn is_op(field: &[u8]) -> bool {
    field == "OP".as_bytes() || field == "OF".as_bytes()
}

fn is_bytes(field: &[u8]) -> bool {
    field == "PATH".as_bytes() || field == "REQUEST".as_bytes()
}

// Whether a line has a comma with a space beside it, or at its end.
fn has_parted_comma(line: &[u8]) -> bool {
    let mut before = b' ';
    for byte in line {
        if (before == b',' && *byte == b' ') || (before == b' ' && *byte == b',') {
            return true;
        }
        before = *byte;
    }
    before == b','
}

// Whether a line has what only paths in words have.
fn has_words_of_paths(line: &[u8]) -> bool {
    line.iter()
        .any(|byte| *byte == b',' || *byte == b'@' || *byte == b'=')
}

// Of a faulty word.
fn of_word(field: &[u8], found: &[u8], why: WordFault, line: &[u8]) -> Hint {
    match why {
        WordFault::NoNumber if is_op(field) && is_op_name(found) => Hint::NamedOp,
        _ if is_bytes(field) && has_parted_comma(line) => Hint::Spaces,
        _ => Hint::Nothing,
    }
}

/// What else is told of a line that is so faulty.
pub fn hint_of(fault: &Explained, line: &[u8]) -> Hint {
    match fault {
        Explained::UnknownWord { word } if is_wide(word.as_slice()) => Hint::WideWord,
        Explained::Count { found, needed, .. } if found > needed && has_words_of_paths(line) => {
            Hint::Spaces
        }
        Explained::Word {
            field,
            found,
            why,
            ..
        } => of_word(field.as_slice(), found.as_slice(), *why, line),
        _ => Hint::Nothing,
    }
}

/// A line of a script, from 1, without its newline; nothing where there is none.
pub fn line_at(script: &[u8], line: usize) -> &[u8] {
    let mut rest = script;
    for _ in 1..line {
        match line_end(rest) {
            Some(end) => rest = rest.get(end.saturating_add(1)..).unwrap_or(&[]),
            None => rest = &[],
        }
    }
    match line_end(rest) {
        Some(end) => &rest[..end],
        None => rest,
    }
}
