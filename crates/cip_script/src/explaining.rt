//! What is wrong with a line of a script: the word that was found, and what is allowed there.

use crate::steps::ScriptFault;
use crate::text;
use cip_base::{Excerpt, NoMemory};
use cip_segment::{PathFault, view_path};
use cip_tool::{HexFault, fault_place, hex_fault, number};
use cip_words::{ascii, lines};
use std::alloc::Global;
use thiserror::Error;

/// Why a word is none that may stand there.
#[derive(Clone, Copy, Debug, PartialEq, Eq, Error)]
pub enum WordFault {
    #[error("no module of the topology")]
    NoModule,
    #[error("no number; allowed: decimal digits, or 0x and hexadecimal digits")]
    NoNumber,
    #[error("more than {0}")]
    MoreThan(u64),
    #[error("less than 1")]
    LessThanOne,
    #[error("no frame's name; allowed: two numbers and one dot between them")]
    NoName,
    #[error("no bytes: {0}")]
    NoBytes(HexFault),
    #[error("no bytes but a path in words: `ciptool path` gives its bytes")]
    PathInWords,
    #[error("no path: byte {0} is {1:02X}, which begins or continues no segment")]
    Reserved(usize, u8),
    #[error("no path: byte {0} is a pad; allowed: 00")]
    BadPad(usize),
    #[error("no path: {0}")]
    NoPath(PathFault),
    #[error("no frame that waits")]
    NoFrame,
    #[error("more than the clock of the module has left")]
    ClockFull,
}

/// What is wrong with a line.
#[derive(Debug, Drop, Error)]
pub enum Explained {
    #[error("not text: byte {place} of the line is {byte:02X}; allowed: 00 to 7F")]
    NotText {
        place: usize,
        byte: u8,
    },
    #[error("unknown word: {word}; allowed: send, open, large, close, enter, set, produce, tick, \
        deliver, lose, run, tables, trail, chain")]
    UnknownWord {
        word: Excerpt,
    },
    #[error("{word}: wrong number of words: {found} behind it; needed: {needed}, {usage}")]
    Count {
        word: Excerpt,
        found: usize,
        needed: usize,
        usage: &'static str,
    },
    #[error("{word}: not with --threads; allowed: send, open, large, close, enter, set, produce, \
        tick")]
    NotWithThreads {
        word: Excerpt,
    },
    #[error("{word}: {field}: {found} is {why}")]
    Word {
        word: Excerpt,
        field: Excerpt,
        found: Excerpt,
        why: WordFault,
    },
    #[error("not text: the line begins with a byte order mark, EF BB BF; save it without one")]
    Mark,
    #[error("byte {place} of the line is a carriage return, 0D; lines end with 0A, or with 0D 0A")]
    Return {
        place: usize,
    },
    /// The line is not the one that the fault is about.
    #[error("{0}")]
    Fault(ScriptFault),
}

/// What stands behind the first word of a line: the names of its words, with spaces between them.
/// None where scripts have no such word.
pub fn usage_of(word: &str) -> Option<&'static str> {
    match word {
        "send" => Some("M OP TICK TICKS PATH REQUEST"),
        "open" | "large" => {
            Some("M OP TICK TICKS PATH SERIAL MULT TRANSPORT OT_RPI OT_PARAMS TO_RPI TO_PARAMS")
        }
        "close" => Some("M OP OF TICK TICKS"),
        "enter" => Some("M OF BYTES"),
        "set" => Some("M INSTANCE BYTES"),
        "produce" => Some("M INSTANCE"),
        "tick" => Some("M MS"),
        "deliver" | "lose" => Some("E.K"),
        "run" => Some("N"),
        "tables" => Some("M"),
        "trail" | "chain" => Some("M OP"),
        _ => None,
    }
}

// The greatest number that may stand there in a line of that first word.
fn most_of(first: &str, field: &str) -> Option<u64> {
    match field {
        "OT_PARAMS" | "TO_PARAMS" if first == "large" => Some(4_294_967_295),
        "TICK" | "TICKS" | "MULT" | "TRANSPORT" => Some(255),
        "SERIAL" | "OT_PARAMS" | "TO_PARAMS" | "MS" => Some(65_535),
        "OP" | "OF" | "INSTANCE" | "OT_RPI" | "TO_RPI" => Some(4_294_967_295),
        "N" => Some(u64::MAX),
        _ => None,
    }
}

// Whether the word is digits, of however great a number.
fn is_numeral(word: &str) -> bool {
    match word.strip_prefix("0x") {
        Some(digits) => {
            !digits.is_empty()
                && digits
                    .as_bytes()
                    .iter()
                    .all(|byte| byte.is_ascii_hexdigit())
        }
        None => !word.is_empty() && word.as_bytes().iter().all(|byte| byte.is_ascii_digit()),
    }
}

// Why a word is no number up to the greatest.
fn number_fault(field: &str, word: &str, most: u64) -> Option<WordFault> {
    match number(word) {
        Some(found) if found > most => Some(WordFault::MoreThan(most)),
        Some(0) if field == "MS" => Some(WordFault::LessThanOne),
        Some(_) => None,
        None if is_numeral(word) => Some(WordFault::MoreThan(most)),
        None => Some(WordFault::NoNumber),
    }
}

// Whether a word is a path as `ciptool` writes it, and no bytes.
fn is_in_words(word: &str) -> bool {
    word.contains(',') || word.contains('@') || word.contains('=')
}

// Why a word is no bytes.
fn bytes_fault(field: &str, word: &str) -> Option<WordFault> {
    if word == "-" {
        return None;
    }
    if field == "PATH" && is_in_words(word) {
        return Some(WordFault::PathInWords);
    }
    match hex_fault(word) {
        Some(fault) => Some(WordFault::NoBytes(fault)),
        None => None,
    }
}

// Why bytes are no path.
fn fault_of(bytes: &[u8]) -> Option<WordFault> {
    let place = fault_place(bytes);
    match view_path(bytes) {
        Ok(_) => None,
        Err(PathFault::Reserved(byte)) => Some(WordFault::Reserved(place, byte)),
        Err(PathFault::BadPad) => Some(WordFault::BadPad(place)),
        Err(fault) => Some(WordFault::NoPath(fault)),
    }
}

// Why the bytes of a word are no path.
fn path_fault(alloc: Global, word: &str) -> Result<Option<WordFault>, NoMemory> {
    match text::bytes(alloc, word)? {
        Some(bytes) => Ok(fault_of(bytes.as_slice())),
        None => Ok(None),
    }
}

// Why the word is none that may stand there, where the line, of that first word, has this fault.
fn word_fault(
    alloc: Global,
    first: &str,
    field: &str,
    word: &str,
    fault: ScriptFault,
) -> Result<Option<WordFault>, NoMemory> {
    match (fault, field) {
        (ScriptFault::NoModule, "M") => Ok(Some(WordFault::NoModule)),
        (ScriptFault::BadNumber, "E.K") => Ok(Some(WordFault::NoName)),
        (ScriptFault::BadNumber, field) => match most_of(first, field) {
            Some(most) => Ok(number_fault(field, word, most)),
            None => Ok(None),
        },
        (ScriptFault::BadBytes, "PATH" | "REQUEST" | "BYTES") => Ok(bytes_fault(field, word)),
        (ScriptFault::BadPath, "PATH") => path_fault(alloc, word),
        (ScriptFault::NoFrame, "E.K") => Ok(Some(WordFault::NoFrame)),
        (ScriptFault::ClockFull, "MS") => Ok(Some(WordFault::ClockFull)),
        _ => Ok(None),
    }
}

fn excerpt(word: &str) -> Excerpt {
    Excerpt::of(word.as_bytes())
}

// How many words must stand behind a word with this usage.
fn needed_of(alloc: Global, usage: &'static str) -> Result<usize, NoMemory> {
    let mut fields = Vec::new(alloc);
    text::words(usage, &mut fields)?;
    Ok(fields.len())
}

// The first of the words that has the fault, its field, and why.
fn first_fault<'a>(
    alloc: Global,
    first: &str,
    fields: &[&'static str],
    args: &[&'a str],
    fault: ScriptFault,
) -> Result<Option<(&'static str, &'a str, WordFault)>, NoMemory> {
    for (field, found) in fields.iter().zip(args.iter()) {
        if let Some(why) = word_fault(alloc, first, field, found, fault)? {
            return Ok(Some((*field, *found, why)));
        }
    }
    Ok(None)
}

fn explain_words(
    alloc: Global,
    word: &str,
    usage: &'static str,
    args: &[&str],
    fault: ScriptFault,
) -> Result<Explained, NoMemory> {
    let mut fields = Vec::new(alloc);
    text::words(usage, &mut fields)?;
    match first_fault(alloc, word, fields.as_slice(), args, fault)? {
        Some((field, found, why)) => Ok(Explained::Word {
            word: excerpt(word),
            field: excerpt(field),
            found: excerpt(found),
            why,
        }),
        None => Ok(Explained::Fault(fault)),
    }
}

// What is wrong with a line of these words.
fn explain_text(
    alloc: Global,
    word: &str,
    args: &[&str],
    fault: ScriptFault,
) -> Result<Explained, NoMemory> {
    let Some(usage) = usage_of(word) else {
        let word = excerpt(word);
        return Ok(Explained::UnknownWord { word });
    };
    match fault {
        ScriptFault::NotWithThreads => {
            let word = excerpt(word);
            Ok(Explained::NotWithThreads { word })
        }
        ScriptFault::Count => {
            let needed = needed_of(alloc, usage)?;
            Ok(Explained::Count {
                word: excerpt(word),
                found: args.len(),
                needed,
                usage,
            })
        }
        _ => explain_words(alloc, word, usage, args, fault),
    }
}

// The first byte that is not ASCII, or a byte order mark.
fn explain_byte(line: &[u8]) -> Explained {
    if line.starts_with(&[0xEF, 0xBB, 0xBF]) {
        return Explained::Mark;
    }
    for (i, byte) in line.iter().enumerate() {
        if !byte.is_ascii() {
            return Explained::NotText {
                place: i + 1,
                byte: *byte,
            };
        }
    }
    Explained::Fault(ScriptFault::NotText)
}

// The first carriage return with more of the line behind it.
fn return_in(line: &[u8]) -> Option<usize> {
    for (i, byte) in line.iter().enumerate() {
        if *byte == b'\r' && i + 1 < line.len() {
            return Some(i + 1);
        }
    }
    None
}

// What is wrong with a line that has this fault.
fn explain_line(alloc: Global, line: &[u8], fault: ScriptFault) -> Result<Explained, NoMemory> {
    let Some(line) = ascii(line) else {
        return Ok(explain_byte(line));
    };
    if let Some(place) = return_in(line.as_bytes()) {
        return Ok(Explained::Return { place });
    }
    let mut words = Vec::new(alloc);
    text::words(line, &mut words)?;
    match words.split_first() {
        None => Ok(Explained::Fault(fault)),
        Some((word, args)) => explain_text(alloc, word, args, fault),
    }
}

/// What is wrong with a line of a script, numbered from 1, that has this fault: the word that was
/// found, and what is allowed there. NoMemory where an allocation is refused.
pub fn explain(
    alloc: Global,
    script: &[u8],
    line: usize,
    fault: ScriptFault,
) -> Result<Explained, NoMemory> {
    let lines = lines(alloc, script)?;
    match lines.get(line.saturating_sub(1)) {
        Some(line) => explain_line(alloc, line, fault),
        None => Ok(Explained::Fault(fault)),
    }
}
