//! The lines that show no part of an entry: how a run ended, and the trails, chains and tables that
//! were asked for.
use crate::fault::{Expected, LineFault};
use crate::fields::{bytes_at, module_at, nth, u16_at, u32_at, u64_at};
use crate::line::Note;
use cip_chassis::Topology;
use cip_words::number;
use std::alloc::Global;

/// What a word must be.
#[derive(Clone, Copy)]
enum Field {
    Word(&'static str),
    Small,
    Number,
    Wide,
    /// A number, or a dash.
    Optional,
    Bytes,
    Module,
}

use Field::{Module, Number, Optional, Small, Wide, Word};

const TABLES: &[Field] = &[
    Word("tables"),
    Module,
    Word("now"),
    Wide,
    Word("id"),
    Wide,
    Word("number"),
    Wide,
];

const PENDING: &[Field] = &[
    Word("pending"),
    Number,
    Small,
    Field::Bytes,
    Word("due"),
    Wide,
    Word("words"),
    Number,
];

const TRIAD: &[Field] = &[Small, Small, Number];

const UP_LINK: &[Field] = &[
    Word("up"),
    Small,
    Field::Bytes,
    Word("own"),
    Optional,
    Word("their"),
    Number,
];

const UP_OP: &[Field] = &[Word("up"), Word("op"), Number];

const DOWN_LINK: &[Field] = &[
    Word("down"),
    Small,
    Field::Bytes,
    Word("their"),
    Optional,
    Word("own"),
    Optional,
];

const DOWN_END: &[Field] = &[Word("down"), Word("end"), Number, Number, Number];

const WATCH: &[Field] = &[Word("watch"), Optional, Optional];

const ASSEMBLY: &[Field] = &[Word("assembly"), Number, Field::Bytes];

// Whether the word at a place is this one.
fn is_word(words: &[&str], k: usize, word: &str) -> bool {
    match words.get(k) {
        Some(found) => *found == word,
        None => false,
    }
}

fn check_word(words: &[&str], k: usize, word: &'static str) -> Result<(), LineFault> {
    if is_word(words, k, word) {
        return Ok(());
    }
    Err(LineFault::Word(k, Expected::Words(word)))
}

// A number, or a dash for none.
fn check_optional(word: &str, k: usize) -> Result<(), LineFault> {
    if word == "-" || number(word).is_some() {
        return Ok(());
    }
    Err(LineFault::Word(k, Expected::Optional))
}

// The word at a place is what it must be.
fn check_field(
    alloc: Global,
    topology: &Topology,
    words: &[&str],
    k: usize,
    field: Field,
) -> Result<(), LineFault> {
    if words.len() <= k {
        return Err(LineFault::Word(k, Expected::Usage("that goes on")));
    }
    match field {
        Field::Word(word) => check_word(words, k, word),
        Field::Small => u16_at(words, k).map(|_| ()),
        Field::Number => u32_at(words, k).map(|_| ()),
        Field::Wide => u64_at(words, k).map(|_| ()),
        Field::Optional => check_optional(nth(words, k), k),
        Field::Bytes => bytes_at(alloc, words, k).map(|_| ()),
        Field::Module => module_at(topology, words, k).map(|_| ()),
    }
}

// The words from a place on are those of a pattern; the place behind them.
fn check_fields(
    alloc: Global,
    topology: &Topology,
    words: &[&str],
    start: usize,
    fields: &[Field],
) -> Result<usize, LineFault> {
    for (i, field) in fields.iter().enumerate() {
        check_field(alloc, topology, words, start.saturating_add(i), *field)?;
    }
    Ok(start.saturating_add(fields.len()))
}

// No words stand from a place on.
fn check_end(words: &[&str], k: usize) -> Result<(), LineFault> {
    if k < words.len() {
        return Err(LineFault::Word(k, Expected::Usage("that ends here")));
    }
    Ok(())
}

// Each word from a place on is a number.
fn check_numbers(words: &[&str], start: usize) -> Result<(), LineFault> {
    for k in start..words.len() {
        u64_at(words, k)?;
    }
    Ok(())
}

// Each word between two places is a module.
fn check_modules(
    topology: &Topology,
    words: &[&str],
    start: usize,
    end: usize,
) -> Result<(), LineFault> {
    for k in start..end.min(words.len()) {
        module_at(topology, words, k)?;
    }
    Ok(())
}

// `chain`, at least one module, and two instances.
fn check_chain(topology: &Topology, words: &[&str]) -> Result<(), LineFault> {
    let count = words.len();
    if count < 4 {
        return Err(LineFault::Word(count, Expected::Usage("chain M .. OT TO")));
    }
    check_modules(topology, words, 1, count - 2)?;
    u32_at(words, count - 2)?;
    u32_at(words, count - 1)?;
    Ok(())
}

// A line whose first word is not a number.
pub(crate) fn note_at(
    alloc: Global,
    topology: &Topology,
    words: &[&str],
) -> Result<Note, LineFault> {
    let first = words.first().copied().unwrap_or("");
    let (note, end) = match first {
        "quiet" => (Note::Quiet, 1),
        "limit" => (Note::Limit, 1),
        "trail" => {
            check_numbers(words, 1)?;
            (Note::Trail, words.len())
        }
        "chain" => {
            check_chain(topology, words)?;
            (Note::Chain, words.len())
        }
        "not" => {
            check_word(words, 1, "open")?;
            (Note::Chain, 2)
        }
        "broken" => {
            check_field(alloc, topology, words, 1, Module)?;
            (Note::Chain, 2)
        }
        "tables" => (
            Note::Tables,
            check_fields(alloc, topology, words, 0, TABLES)?,
        ),
        _ => {
            let allowed = "a number, quiet, limit, trail, chain, not, broken or tables";
            return Err(LineFault::Word(0, Expected::Words(allowed)));
        }
    };
    check_end(words, end)?;
    Ok(note)
}

// What was sent on: `unconnected`, or a word and a triad.
fn check_kind(
    alloc: Global,
    topology: &Topology,
    words: &[&str],
    k: usize,
) -> Result<usize, LineFault> {
    if is_word(words, k, "unconnected") {
        return Ok(k.saturating_add(1));
    }
    if is_word(words, k, "opening") || is_word(words, k, "large") || is_word(words, k, "closing") {
        return check_fields(alloc, topology, words, k.saturating_add(1), TRIAD);
    }
    let allowed = "unconnected, opening, large or closing";
    Err(LineFault::Word(k, Expected::Words(allowed)))
}

// Where a connection comes from.
fn check_up(
    alloc: Global,
    topology: &Topology,
    words: &[&str],
    k: usize,
) -> Result<usize, LineFault> {
    let fields = if is_word(words, k.saturating_add(1), "op") {
        UP_OP
    } else {
        UP_LINK
    };
    check_fields(alloc, topology, words, k, fields)
}

// Where a connection goes to.
fn check_down(
    alloc: Global,
    topology: &Topology,
    words: &[&str],
    k: usize,
) -> Result<usize, LineFault> {
    let fields = if is_word(words, k.saturating_add(1), "end") {
        DOWN_END
    } else {
        DOWN_LINK
    };
    check_fields(alloc, topology, words, k, fields)
}

// A connection that is open.
fn check_hop(alloc: Global, topology: &Topology, words: &[&str]) -> Result<usize, LineFault> {
    let triad = check_fields(alloc, topology, words, 3, TRIAD)?;
    let up = check_up(alloc, topology, words, triad)?;
    let down = check_down(alloc, topology, words, up)?;
    check_fields(alloc, topology, words, down, WATCH)
}

// A row of the tables, whose first word stands at place 2, behind the two spaces.
pub(crate) fn row_at(
    alloc: Global,
    topology: &Topology,
    words: &[&str],
) -> Result<Note, LineFault> {
    let end = if is_word(words, 2, "pending") {
        let k = check_fields(alloc, topology, words, 2, PENDING)?;
        check_kind(alloc, topology, words, k)?
    } else if is_word(words, 2, "hop") {
        check_hop(alloc, topology, words)?
    } else if is_word(words, 2, "assembly") {
        check_fields(alloc, topology, words, 2, ASSEMBLY)?
    } else {
        let allowed = "the number of an output, pending, hop or assembly";
        return Err(LineFault::Word(2, Expected::Words(allowed)));
    };
    check_end(words, end)?;
    Ok(Note::Row)
}
