//! Questions about room that is reserved: tables and what they are made of.
use crate::texts::text;
use crate::{connections, waiting_requests};
use cip_base::{NumberIndex, Row};
use cip_clock::{Deadlines, NEVER};
use line_words::{Then, Words};

// The last number of an empty table.
fn last(name: &str, words: &mut Words) -> Option<u32> {
    if name == "PendingTable::with_room" {
        Some(waiting_requests::of_room(words)?.last())
    } else {
        Some(connections::of_room(words)?.last())
    }
}

/// The answer to a question that is named as the call that it makes: `CALL ROOM`, of a table
/// `CALL ROOM FIRST`.
pub fn answer(name: &str, words: &mut Words) -> Option<String> {
    let alloc = words.alloc;
    if matches!(name, "PendingTable::with_room" | "HopTable::with_room") {
        return text(alloc, Then("last", last(name, words)?));
    }
    let room = usize::from(words.u16()?);
    words.open();
    match name {
        "Row::with_room" => {
            let row: Row<u8> = words.had(Row::with_room(alloc, room))?;
            text(alloc, Then("holds", row.as_slice().len()))
        }
        "NumberIndex::with_room" => {
            let index = words.had(NumberIndex::with_room(alloc, room))?;
            text(alloc, Then("holds", index.len()))
        }
        "Deadlines::with_room" => {
            let deadlines = words.had(Deadlines::with_room(alloc, room))?;
            text(alloc, Then("never", deadlines.least() == NEVER))
        }
        _ => None,
    }
}
