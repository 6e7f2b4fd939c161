//! The line of a fault in the text of a topology file.

ghost use Rattle.std.specs.Prelude.{◌≤◌, IfOk, IfSome};

use crate::tables::{entries_of, table_at};
use cip_base::NoMemory;
use cip_topology::{Key, LoadFault, Place};
use std::alloc::Global;
use toml::{Table, Value};

// A line of a text: its number, from 1, and how many bytes of the text stand up to its end.
#[derive(Clone, Copy)]
struct Spot {
    number: usize,
    end: usize,
}

// In front of the first line.
const FRONT: Spot = Spot { number: 0, end: 0 };

impl Spot {
    // The line behind this one.
    fn next(self, line: &str) -> Spot
        ensures { 1 ≤ result.number }
    {
        Spot {
            number: self.number.saturating_add(1),
            end: self.end.saturating_add(line.len()).saturating_add(1),
        }
    }
}

// The name in the header of an array of tables, where a line is one.
fn header_in(line: &str) -> Option<&str> {
    let rest = line.trim().strip_prefix("[[")?;
    let (name, _) = rest.split_once("]]")?;
    Some(name.trim())
}

// The key that a line gives a value.
fn key_in(line: &str) -> Option<&str> {
    let (key, _) = line.split_once('=')?;
    Some(key.trim().trim_matches('"'))
}

// Of the headers of this name behind a line the one of this number, from 1, in front of the first
// header of another name.
fn header_behind(text: &str, front: Spot, name: &str, count: usize, other: &str) -> Option<Spot>
    ensures { IfSome result (λ spot. 1 ≤ spot.number) }
{
    let mut spot = FRONT;
    let mut left = count;
    for line in text.split('\n') {
        spot = spot.next(line);
        if spot.number > front.number {
            let header = header_in(line);
            if header == Some(other) {
                return None;
            }
            if header == Some(name) {
                if left <= 1 {
                    return Some(spot);
                }
                left -= 1;
            }
        }
    }
    None
}

// The line of the header of the table at a place, where it is found.
fn header_at(text: &str, place: &Place) -> Option<Spot>
    ensures { IfSome result (λ spot. 1 ≤ spot.number) }
{
    match place {
        Place::File => None,
        Place::Link { number, .. } => header_behind(text, FRONT, "link", *number, ""),
        Place::Module { number, .. } => header_behind(text, FRONT, "module", *number, ""),
        Place::Port { number, port, .. } => {
            let module_ = header_behind(text, FRONT, "module", *number, "")?;
            header_behind(text, module_, "module.port", *port, "module")
        }
        Place::Assembly {
            number,
            assembly,
            ..
        } => {
            let module_ = header_behind(text, FRONT, "module", *number, "")?;
            header_behind(text, module_, "module.assembly", *assembly, "module")
        }
    }
}

// The line of a key behind a header, in front of the next one.
fn key_behind(text: &str, header: Spot, key: Key) -> Option<Spot>
    ensures { IfSome result (λ spot. 1 ≤ spot.number) }
{
    let mut spot = FRONT;
    for line in text.split('\n') {
        spot = spot.next(line);
        if spot.number > header.number {
            if line.trim().starts_with('[') {
                return None;
            }
            if key_in(line) == Some(key.word()) {
                return Some(spot);
            }
        }
    }
    None
}

// The text up to the end of a line.
fn text_to(text: &str, spot: Spot) -> Option<&str> {
    let bytes = text.as_bytes();
    let front = bytes.get(..spot.end).unwrap_or(bytes);
    std::str::from_utf8(front).ok()
}

// The document of the text up to the end of a line; None where that is none by itself.
fn document_to(alloc: Global, text: &str, spot: Spot) -> Result<Option<Table>, NoMemory> {
    let Some(front) = text_to(text, spot) else {
        return Ok(None);
    };
    match toml::table_from_str(alloc, front) {
        Ok(document) => Ok(Some(document)),
        Err(error) if error.is_memory() => Err(NoMemory),
        Err(_) => Ok(None),
    }
}

// How many tables of a kind the last module has.
fn count_in_last(document: &Table, kind: &str) -> usize {
    match entries_of(document, "module").last() {
        Some(Value::Table(module_)) => entries_of(module_, kind).len(),
        _ => 0,
    }
}

// Whether the table at a place is the last one of its kind.
fn is_last(document: &Table, place: &Place) -> bool {
    match place {
        Place::File => false,
        Place::Link { number, .. } => entries_of(document, "link").len() == *number,
        Place::Module { number, .. } => entries_of(document, "module").len() == *number,
        Place::Port { number, port, .. } => {
            entries_of(document, "module").len() == *number
                && count_in_last(document, "port") == *port
        }
        Place::Assembly {
            number,
            assembly,
            ..
        } => {
            entries_of(document, "module").len() == *number
                && count_in_last(document, "assembly") == *assembly
        }
    }
}

fn has_key(document: &Table, place: &Place, key: Key) -> bool {
    match table_at(document, place) {
        Some(table) => table.contains_key(key.word()),
        None => false,
    }
}

// Whether a line is the header of the table at a place: up to it the table is the last one.
fn is_header(alloc: Global, text: &str, spot: Spot, place: &Place) -> Result<bool, NoMemory> {
    match document_to(alloc, text, spot)? {
        Some(document) => Ok(is_last(&document, place)),
        None => Ok(false),
    }
}

// Whether a line gives a key of that table its value: up to it the table has the key.
fn is_key(
    alloc: Global,
    text: &str,
    spot: Spot,
    place: &Place,
    key: Key,
) -> Result<bool, NoMemory> {
    match document_to(alloc, text, spot)? {
        Some(document) => Ok(has_key(&document, place, key)),
        None => Ok(false),
    }
}

// The table that a fault is about, and its key.
fn place_of(fault: &LoadFault) -> Option<(&Place, Option<Key>)> {
    match fault {
        LoadFault::Missing { place, .. } => Some((place, None)),
        LoadFault::Limit { place, .. } => Some((place, None)),
        LoadFault::Range { key, place, .. } => Some((place, Some(*key))),
        LoadFault::DoubleName { place } => Some((place, Some(Key::Name))),
        LoadFault::DoubleAddress { place, .. } => Some((place, Some(Key::Address))),
        LoadFault::DoubleOriginator { place, .. } => Some((place, Some(Key::Serial))),
        LoadFault::UnknownLink { place, .. } => Some((place, Some(Key::Link))),
        LoadFault::AddressNotLegal { place, .. } => Some((place, Some(Key::Address))),
        LoadFault::NotToml(_) | LoadFault::NoMemory => None,
    }
}

// The line of the key of the table behind this header, or else the header's.
fn line_in(
    alloc: Global,
    text: &str,
    header: Spot,
    place: &Place,
    key: Option<Key>,
) -> Result<usize, NoMemory>
    requires { 1 ≤ header.number }
    ensures { IfOk result (λ line. 1 ≤ line) }
{
    let Some(key) = key else {
        return Ok(header.number);
    };
    let Some(spot) = key_behind(text, header, key) else {
        return Ok(header.number);
    };
    if is_key(alloc, text, spot, place, key)? {
        Ok(spot.number)
    } else {
        Ok(header.number)
    }
}

/// The line, from 1, of a fault of the text of a topology file: that of the key, or that of the
/// table's header where the key is missing. None where the fault is about the whole file, and where
/// tables have no headers of their own, as in `link = [{}]`. What is no TOML tells its line by
/// itself. NoMemory where an allocation is refused.
pub fn fault_line(alloc: Global, text: &str, fault: &LoadFault) -> Result<Option<usize>, NoMemory>
    ensures { IfOk result (λ found. IfSome found (λ line. 1 ≤ line)) }
{
    let Some((place, key)) = place_of(fault) else {
        return Ok(None);
    };
    let Some(header) = header_at(text, place) else {
        return Ok(None);
    };
    if is_header(alloc, text, header, place)? {
        Ok(Some(line_in(alloc, text, header, place, key)?))
    } else {
        Ok(None)
    }
}
