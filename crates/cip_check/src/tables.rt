//! The tables of a document, as far as they are there.

use cip_topology::{Name, Place};
use toml::{Table, Value};

/// The tables of a kind.
pub(crate) fn entries_of<'a>(table: &'a Table, key: &str) -> &'a [Value] {
    match table.get(key) {
        Some(Value::Array(entries)) => entries.as_slice(),
        _ => &[],
    }
}

/// The name that a table has, where it can be read.
pub(crate) fn name_of(table: &Table) -> Option<Name> {
    match table.get("name") {
        Some(Value::String(name)) => Name::read(name.as_str().as_bytes()),
        _ => None,
    }
}

// The table of this number, from 1, of those of a kind.
fn nth_of<'a>(table: &'a Table, key: &str, number: usize) -> Option<&'a Table> {
    match entries_of(table, key).get(number.checked_sub(1)?) {
        Some(Value::Table(entry)) => Some(entry),
        _ => None,
    }
}

/// The table at a place.
pub(crate) fn table_at<'a>(document: &'a Table, place: &Place) -> Option<&'a Table> {
    match place {
        Place::File => Some(document),
        Place::Link { number, .. } => nth_of(document, "link", *number),
        Place::Module { number, .. } => nth_of(document, "module", *number),
        Place::Port { number, port, .. } => {
            nth_of(nth_of(document, "module", *number)?, "port", *port)
        }
        Place::Assembly {
            number,
            assembly,
            ..
        } => nth_of(nth_of(document, "module", *number)?, "assembly", *assembly),
    }
}
