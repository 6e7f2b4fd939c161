//! Sequence counts of data: the two bytes in front of a datum of class 1, the low one first.

use crate::refusals::{assembly_size, command_in};
use cip_base::{Bytes, ModuleId, Triad};
use cip_chassis::Topology;
use cip_message::read_reply;
use cip_open::{FORWARD_OPEN_REPLY, LARGE_FORWARD_OPEN_REPLY, read_open_reply};
use cip_routing::{Body, Command, Output};
use cip_world::Entry;
use std::fmt;

// How many bytes a count has.
const COUNT_BYTES: usize = 2;

// The two bytes in front.
fn front_count(bytes: &[u8]) -> Option<u16> {
    match bytes {
        [low, high, ..] => Some(u16::from_le_bytes([*low, *high])),
        _ => None,
    }
}

// The count of a datum that was entered on a connection, where the entry is that.
fn entered_in(entry: &Entry, at: ModuleId, number: u32) -> Option<u16> {
    let found = command_in(entry)?;
    match found.command {
        Command::Enter { of, bytes } if *of == number => {
            if found.at == at && found.refused.is_none() {
                front_count(bytes.as_slice())
            } else {
                None
            }
        }
        _ => None,
    }
}

/// The count behind the one that was last entered on the connection of an op; 1 where none was.
pub fn next_count(journal: &[Entry], at: ModuleId, number: u32) -> u16 {
    for entry in journal.iter().rev() {
        if let Some(count) = entered_in(entry, at, number) {
            return count.wrapping_add(1);
        }
    }
    1
}

/// A datum that came to its end, and in which entry.
#[derive(Clone, Copy)]
pub struct Datum<'a> {
    pub place: usize,
    pub triad: Triad,
    pub bytes: &'a Bytes,
}

// The last datum of these outputs that came to an assembly.
fn consumed_in(outputs: &[Output], number: u32) -> Option<(Triad, &Bytes)> {
    for output in outputs.iter().rev() {
        if let Output::Consumed {
            triad,
            instance,
            bytes,
        } = output
        {
            if *instance == number {
                return Some((*triad, bytes));
            }
        }
    }
    None
}

/// The newest datum that came to an assembly of a module.
pub fn newest_consumed(journal: &[Entry], at: ModuleId, number: u32) -> Option<Datum<'_>> {
    for (place, entry) in journal.iter().enumerate().rev() {
        if let Entry::Step {
            at: own,
            outputs,
            ..
        } = entry
        {
            if *own == at {
                if let Some((triad, bytes)) = consumed_in(outputs.as_slice(), number) {
                    return Some(Datum {
                        place,
                        triad,
                        bytes,
                    });
                }
            }
        }
    }
    None
}

// The connection that a reply opens.
fn opened_by(reply: &Bytes) -> Option<Triad> {
    let view = read_reply(reply.as_slice()).ok()?;
    let is_open = view.service == FORWARD_OPEN_REPLY || view.service == LARGE_FORWARD_OPEN_REPLY;
    if !is_open || view.general != 0 {
        return None;
    }
    let opened = read_open_reply(view.data_).ok()?;
    Some(opened.triad)
}

// What the end of a connection did that counts for the next datum.
#[derive(Clone, Copy)]
enum Mark<'a> {
    // It was made.
    Opened,
    // A datum came.
    Came(&'a Bytes),
}

fn mark_of(output: &Output, triad: Triad) -> Option<Mark<'_>> {
    match output {
        Output::Consumed {
            triad: found,
            bytes,
            ..
        } if *found == triad => Some(Mark::Came(bytes)),
        Output::Send {
            body: Body::Reply { bytes, .. },
            ..
        } if opened_by(bytes) == Some(triad) => Some(Mark::Opened),
        _ => None,
    }
}

// The last mark of these outputs.
fn mark_in(outputs: &[Output], triad: Triad) -> Option<Mark<'_>> {
    for output in outputs.iter().rev() {
        if let Some(mark) = mark_of(output, triad) {
            return Some(mark);
        }
    }
    None
}

// The newest mark of a module in these entries.
fn newest_mark(journal: &[Entry], at: ModuleId, triad: Triad) -> Option<Mark<'_>> {
    for entry in journal.iter().rev() {
        if let Entry::Step {
            at: own,
            outputs,
            ..
        } = entry
        {
            if *own == at {
                if let Some(mark) = mark_in(outputs.as_slice(), triad) {
                    return Some(mark);
                }
            }
        }
    }
    None
}

/// How the count of a datum that came to its end stands to the one before it.
#[derive(Clone, Copy)]
pub enum Counted {
    /// It has none: it is not of class 1.
    Without,
    /// It is the first of its connection.
    First(u16),
    /// The one before it has the same: it is not written.
    Repeats(u16),
    /// The one before it has another.
    New { count: u16, before: u16 },
}

// Whether a datum has a count in front of the bytes of its assembly.
fn has_count(topology: &Topology, at: ModuleId, instance: u32, datum: Datum<'_>) -> bool {
    match assembly_size(topology, at, instance) {
        Some(size) => datum.bytes.as_slice().len() == size.saturating_add(COUNT_BYTES),
        None => false,
    }
}

// The count of the datum before this one on its connection.
fn count_before(journal: &[Entry], at: ModuleId, datum: Datum<'_>) -> Option<u16> {
    let (older, _) = journal.split_at_checked(datum.place)?;
    match newest_mark(older, at, datum.triad) {
        Some(Mark::Came(bytes)) => front_count(bytes.as_slice()),
        _ => None,
    }
}

/// How the count of a datum at a module stands to the one before it.
pub fn standing_of(
    topology: &Topology,
    journal: &[Entry],
    at: ModuleId,
    instance: u32,
    datum: Datum<'_>,
) -> Counted {
    if !has_count(topology, at, instance, datum) {
        return Counted::Without;
    }
    match (
        front_count(datum.bytes.as_slice()),
        count_before(journal, at, datum),
    ) {
        (Some(count), Some(before)) if count == before => Counted::Repeats(count),
        (Some(count), Some(before)) => Counted::New { count, before },
        (Some(count), None) => Counted::First(count),
        (None, _) => Counted::Without,
    }
}

impl fmt::Display for Counted {
    fn fmt<W: fmt::Write>(&self, f: &mut fmt::Formatter<W>) -> fmt::Result {
        match self {
            Counted::Without => f.write_str("has no count"),
            Counted::First(count) => {
                write!(f, "has count {count}, and is the first of its connection")
            }
            Counted::Repeats(count) => write!(f, "repeats count {count}"),
            Counted::New { count, before } => {
                write!(f, "has count {count}, and the one before it {before}")
            }
        }
    }
}
