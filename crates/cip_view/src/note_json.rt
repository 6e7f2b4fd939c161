//! The lines that show no part of an entry, as JSON: the line in `note`, and what it says in
//! members beside it.
use crate::notes::{NoteWords, chain_ops, trail_of};
use cip_base::NoMemory;
use cip_book::{Book, NameText, Past, command_word, only_op};
use cip_read::Note;
use cip_text::Draft;
use std::alloc::Global;

// A line that shows no part of an entry, as a string; null where it is no text.
fn put_text(text: &mut Draft, before: &str, line: &[u8]) -> Result<(), NoMemory> {
    text.put(before)?;
    match std::str::from_utf8(line) {
        Ok(line) => text.put_quoted(line),
        Err(_) => text.put("null"),
    }
}

// A number, or null.
fn put_number(text: &mut Draft, before: &str, number: Option<u64>) -> Result<(), NoMemory> {
    match number {
        Some(number) => text.put_count(before, number),
        None => {
            text.put(before)?;
            text.put("null")
        }
    }
}

// A word as a string.
fn put_word(text: &mut Draft, before: &str, word: &str) -> Result<(), NoMemory> {
    text.put(before)?;
    text.put_quoted(word)
}

// The words from a place on to another, parted by commas, in brackets.
fn put_words(
    text: &mut Draft,
    words: &NoteWords<'_>,
    start: usize,
    end: usize,
) -> Result<(), NoMemory> {
    let mut before = "[";
    for k in start..end {
        put_word(text, before, words.at(k))?;
        before = ",";
    }
    text.put(if start < end { "]" } else { "[]" })
}

// The numbers from a place on likewise.
fn put_numbers(text: &mut Draft, words: &NoteWords<'_>, start: usize) -> Result<(), NoMemory> {
    let mut before = "[";
    for k in start..words.len() {
        put_number(text, before, words.number(k))?;
        before = ",";
    }
    text.put(if start < words.len() { "]" } else { "[]" })
}

// Of which request a trail is, and its entries.
fn put_trail(
    text: &mut Draft,
    book: &Book<'_>,
    past: &Past<'_>,
    words: &NoteWords<'_>,
) -> Result<(), NoMemory> {
    let asked = trail_of(past, words);
    match asked {
        Some(asked) => put_word(
            text,
            ",\"trail\":{\"command\":",
            command_word(asked.command),
        )?,
        None => text.put(",\"trail\":{\"command\":null")?,
    }
    text.put(",\"entries\":")?;
    put_numbers(text, words, 1)?;
    match asked {
        Some(asked) => {
            let alloc = text.allocator();
            let name = format!(in alloc; "{}", NameText(book.name(asked.at)))?;
            put_word(text, ",\"module\":", name.as_str())?;
            text.put_count(",\"op\":", u64::from(asked.op))?;
        }
        None => text.put(",\"module\":null,\"op\":null")?,
    }
    text.put("}")
}

// The modules of a connection, the op that opened it, and the instances at its end.
fn put_modules(text: &mut Draft, words: &NoteWords<'_>, op: Option<u32>) -> Result<(), NoMemory> {
    let end = words.len().saturating_sub(2);
    text.put("{\"modules\":")?;
    put_words(text, words, 1, end)?;
    put_number(text, ",\"op\":", op.map(u64::from))?;
    put_number(text, ",\"ot_instance\":", words.number(end))?;
    put_number(
        text,
        ",\"to_instance\":",
        words.number(end.saturating_add(1)),
    )?;
    text.put("}")
}

fn put_chain(text: &mut Draft, past: &Past<'_>, words: &NoteWords<'_>) -> Result<(), NoMemory> {
    match words.at(0) {
        "chain" => {
            let ops = chain_ops(text.allocator(), past, words)?;
            put_modules(text, words, only_op(ops.as_slice()))
        }
        "not" => text.put("\"not open\""),
        _ => {
            put_word(text, "{\"broken\":", words.at(1))?;
            text.put("}")
        }
    }
}

fn put_tables(text: &mut Draft, words: &NoteWords<'_>) -> Result<(), NoMemory> {
    put_number(text, ",\"tables\":{\"id\":", words.number(5))?;
    put_word(text, ",\"module\":", words.at(1))?;
    put_number(text, ",\"now_us\":", words.number(3))?;
    put_number(text, ",\"number\":", words.number(7))?;
    text.put("}")
}

// The triad whose three numbers stand from a place on.
fn put_triad(text: &mut Draft, words: &NoteWords<'_>, k: usize) -> Result<(), NoMemory> {
    let (vendor, originator) = (k.saturating_add(1), k.saturating_add(2));
    put_number(text, "{\"originator\":", words.number(originator))?;
    put_number(text, ",\"serial\":", words.number(k))?;
    put_number(text, ",\"vendor\":", words.number(vendor))?;
    text.put("}")
}

// A request that waits: its words begin at place 2, behind the two spaces.
fn put_pending(text: &mut Draft, words: &NoteWords<'_>) -> Result<(), NoMemory> {
    put_word(text, ",\"pending\":{\"address\":", words.at(5))?;
    put_number(text, ",\"due_us\":", words.number(7))?;
    put_word(text, ",\"kind\":", words.at(10))?;
    put_number(text, ",\"number\":", words.number(3))?;
    put_number(text, ",\"port\":", words.number(4))?;
    text.put(",\"triad\":")?;
    if words.len() < 14 {
        text.put("null")?;
    } else {
        put_triad(text, words, 11)?;
    }
    put_number(text, ",\"words\":", words.number(9))?;
    text.put("}")
}

// A link of a connection: its own and the other side's id stand at these places.
fn put_link(
    text: &mut Draft,
    words: &NoteWords<'_>,
    k: usize,
    own: usize,
    their: usize,
) -> Result<(), NoMemory> {
    put_word(text, "{\"address\":", words.at(k.saturating_add(2)))?;
    put_number(text, ",\"own\":", words.number(k.saturating_add(own)))?;
    put_number(text, ",\"port\":", words.number(k.saturating_add(1)))?;
    put_number(text, ",\"their\":", words.number(k.saturating_add(their)))?;
    text.put("}")
}

// Where a connection goes to, from a place on; the place behind it.
fn put_down(text: &mut Draft, words: &NoteWords<'_>, k: usize) -> Result<usize, NoMemory> {
    if words.at(k.saturating_add(1)) == "end" {
        put_number(text, "{\"config\":", words.number(k.saturating_add(2)))?;
        put_number(text, ",\"ot_instance\":", words.number(k.saturating_add(3)))?;
        put_number(text, ",\"to_instance\":", words.number(k.saturating_add(4)))?;
        text.put("}")?;
        return Ok(k.saturating_add(5));
    }
    put_link(text, words, k, 6, 4)?;
    Ok(k.saturating_add(7))
}

// Where a connection comes from: an op, or a link.
fn put_up(text: &mut Draft, words: &NoteWords<'_>) -> Result<(), NoMemory> {
    if words.at(7) == "op" {
        put_number(text, "{\"op\":", words.number(8))?;
        return text.put("}");
    }
    put_link(text, words, 6, 4, 6)
}

// A connection that is open.
fn put_hop(text: &mut Draft, words: &NoteWords<'_>) -> Result<(), NoMemory> {
    let down = if words.at(7) == "op" { 9 } else { 13 };
    text.put("{\"hop\":{\"down\":")?;
    let watch = put_down(text, words, down)?;
    text.put(",\"triad\":")?;
    put_triad(text, words, 3)?;
    text.put(",\"up\":")?;
    put_up(text, words)?;
    let (from, to) = (watch.saturating_add(1), watch.saturating_add(2));
    put_number(text, ",\"watch\":{\"down_us\":", words.number(to))?;
    put_number(text, ",\"up_us\":", words.number(from))?;
    text.put("}}")
}

// A row of the tables.
fn put_row(text: &mut Draft, words: &NoteWords<'_>, line: &[u8]) -> Result<(), NoMemory> {
    match words.at(2) {
        "pending" => {
            put_text(text, "{\"note\":", line)?;
            put_pending(text, words)
        }
        "hop" => {
            put_hop(text, words)?;
            put_text(text, ",\"note\":", line)
        }
        _ => {
            put_word(text, "{\"assembly\":{\"data\":", words.at(4))?;
            put_number(text, ",\"instance\":", words.number(3))?;
            put_text(text, "},\"note\":", line)
        }
    }
}

/// Puts a line that shows no part of an entry behind a text. NoMemory where an allocation is
/// refused.
pub(crate) fn put_note(
    alloc: Global,
    text: &mut Draft,
    book: &Book<'_>,
    past: &Past<'_>,
    line: &[u8],
    note: Note,
) -> Result<(), NoMemory> {
    match note {
        Note::Quiet => {
            put_text(text, "{\"note\":", line)?;
            text.put(",\"quiet\":true")?;
        }
        Note::Limit => put_text(text, "{\"limit\":true,\"note\":", line)?,
        Note::Trail => {
            put_text(text, "{\"note\":", line)?;
            put_trail(text, book, past, &NoteWords::of(alloc, line)?)?;
        }
        Note::Chain => {
            text.put("{\"chain\":")?;
            put_chain(text, past, &NoteWords::of(alloc, line)?)?;
            put_text(text, ",\"note\":", line)?;
        }
        Note::Tables => {
            put_text(text, "{\"note\":", line)?;
            put_tables(text, &NoteWords::of(alloc, line)?)?;
        }
        Note::Row => put_row(text, &NoteWords::of(alloc, line)?, line)?,
    }
    text.put("}")
}
