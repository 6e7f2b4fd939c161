//! A document without the fault that was found in it, so that the next one can be found.

use cip_topology::{Key, LoadFault, Place};
use std::alloc::{AllocError, Global};
use toml::{Table, Value};

/// The link on which ports stand that had no place of their own.
pub(crate) const SPARE: &str = "spare-link";

const SPARE_LINK: &str = r#"
name = "spare-link"
kind = "text"
longest = 16
"#;

const SPARE_MODULE: &str = r#"
name = "spare-module"
kind = "plain"
vendor = 65535
device_type = 0
product = 0
major = 1
minor = 0
serial = 0
product_name = ""

[[port]]
number = 1
link = "spare-link"
address = "21"
"#;

const SPARE_PORT: &str = r#"
number = 1
link = "spare-link"
"#;

// A number that no other repair took.
fn fresh(turn: usize) -> i64 {
    60_000i64.saturating_add(i64::try_from(turn).unwrap_or(0))
}

fn text(alloc: Global, text: &str) -> Result<Value, AllocError> {
    Ok(Value::String(String::from_str(alloc, text)?))
}

// A name that no other repair took.
fn fresh_name(alloc: Global, turn: usize) -> Result<Value, AllocError> {
    let mut text = String::new(alloc);
    write!(text, "mended-{turn}")?;
    Ok(Value::String(text))
}

// The bytes of an address in hexadecimal, that no other repair took: the four digits of the turn as
// characters.
fn fresh_text(alloc: Global, turn: usize) -> Result<Value, AllocError> {
    let mut text = String::new(alloc);
    for tens in [1000, 100, 10, 1] {
        let digit = turn / tens % 10;
        write!(text, "3{digit}")?;
    }
    Ok(Value::String(text))
}

fn set(alloc: Global, table: &mut Table, key: &str, value: Value) -> Result<(), AllocError> {
    let key = String::from_str(alloc, key)?;
    table.insert(key, value)?;
    Ok(())
}

fn empty_array(alloc: Global) -> Value {
    Value::Array(Vec::new(alloc))
}

// The one table of a text.
fn one_table(alloc: Global, text: &str) -> Result<Value, AllocError> {
    let mut entries = Vec::new(alloc);
    if let Ok(table) = toml::table_from_str(alloc, text) {
        entries.push(Value::Table(table))?;
    }
    Ok(Value::Array(entries))
}

// The entry of this number, from 1, of the tables of a kind.
fn entry_at<'a>(table: &'a mut Table, key: &str, number: usize) -> Option<&'a mut Value> {
    match table.get_mut(key) {
        Some(Value::Array(entries)) => entries.get_mut(number.checked_sub(1)?),
        _ => None,
    }
}

fn table_in<'a>(table: &'a mut Table, key: &str, number: usize) -> Option<&'a mut Table> {
    entry_at(table, key, number)?.as_table_mut()
}

// The table at a place.
fn table_at<'a>(document: &'a mut Table, place: &Place) -> Option<&'a mut Table> {
    match place {
        Place::File => Some(document),
        Place::Link { number, .. } => table_in(document, "link", *number),
        Place::Module { number, .. } => table_in(document, "module", *number),
        Place::Port { number, port, .. } => {
            table_in(table_in(document, "module", *number)?, "port", *port)
        }
        Place::Assembly {
            number,
            assembly,
            ..
        } => table_in(
            table_in(document, "module", *number)?,
            "assembly",
            *assembly,
        ),
    }
}

// An entry that is no table becomes an empty one.
fn make_table(alloc: Global, document: &mut Table, place: &Place) {
    let entry = match place {
        Place::File => None,
        Place::Link { number, .. } => entry_at(document, "link", *number),
        Place::Module { number, .. } => entry_at(document, "module", *number),
        Place::Port { number, port, .. } => match table_in(document, "module", *number) {
            Some(table) => entry_at(table, "port", *port),
            None => None,
        },
        Place::Assembly {
            number,
            assembly,
            ..
        } => match table_in(document, "module", *number) {
            Some(table) => entry_at(table, "assembly", *assembly),
            None => None,
        },
    };
    if let Some(entry) = entry {
        *entry = Value::Table(Table::new(alloc));
    }
}

fn is_spare(entry: &Value) -> bool {
    match entry.as_table() {
        Some(table) => match table.get("name") {
            Some(name) => name.as_str() == Some(SPARE),
            None => false,
        },
        None => false,
    }
}

// The spare link stands behind the others.
fn add_spare_link(alloc: Global, document: &mut Table) -> Result<(), AllocError> {
    let Some(Value::Array(entries)) = document.get_mut("link") else {
        return Ok(());
    };
    if entries.iter().any(is_spare) {
        return Ok(());
    }
    if let Ok(link) = toml::table_from_str(alloc, SPARE_LINK) {
        entries.push(Value::Table(link))?;
    }
    Ok(())
}

// A port moves to the spare link.
fn move_port(
    alloc: Global,
    document: &mut Table,
    place: &Place,
    turn: usize,
) -> Result<(), AllocError> {
    if let Some(table) = table_at(document, place) {
        set(alloc, table, "link", text(alloc, SPARE)?)?;
        set(alloc, table, "address", fresh_text(alloc, turn)?)?;
    }
    add_spare_link(alloc, document)
}

// The kind of a link by its other keys, so that no fault is added.
fn link_kind(alloc: Global, table: &mut Table) -> Result<(), AllocError> {
    if table.contains_key("first") || table.contains_key("last") {
        return set(alloc, table, "kind", text(alloc, "byte")?);
    }
    if !table.contains_key("longest") {
        set(alloc, table, "longest", Value::Integer(16))?;
    }
    set(alloc, table, "kind", text(alloc, "text")?)
}

// The ports of a module that has too many.
fn cut_ports(table: &mut Table) -> bool {
    if let Some(Value::Array(entries)) = table.get_mut("port") {
        if !entries.is_empty() {
            entries.truncate(1);
            return true;
        }
    }
    false
}

// The ports of a module that has too many, none, or what is no array.
fn set_ports(
    alloc: Global,
    document: &mut Table,
    place: &Place,
    turn: usize,
) -> Result<(), AllocError> {
    let Some(table) = table_at(document, place) else {
        return Ok(());
    };
    if cut_ports(table) {
        return Ok(());
    }
    set(alloc, table, "port", one_table(alloc, SPARE_PORT)?)?;
    if let Some(port) = table_in(table, "port", 1) {
        set(alloc, port, "address", fresh_text(alloc, turn)?)?;
    }
    add_spare_link(alloc, document)
}

// What is always right at a key that stands by itself.
fn value_for(alloc: Global, key: Key, turn: usize) -> Result<Value, AllocError> {
    match key {
        Key::Link | Key::Module => one_table(alloc, SPARE_LINK),
        Key::Assembly => Ok(empty_array(alloc)),
        Key::Name => fresh_name(alloc, turn),
        Key::ProductName => text(alloc, ""),
        Key::Vendor | Key::Serial | Key::Number | Key::Instance => Ok(Value::Integer(fresh(turn))),
        Key::Last => Ok(Value::Integer(255)),
        Key::Longest => Ok(Value::Integer(16)),
        Key::FirstId | Key::FirstNumber | Key::PendingRoom | Key::HopRoom | Key::Major => {
            Ok(Value::Integer(1))
        }
        _ => Ok(Value::Integer(0)),
    }
}

fn set_key(
    alloc: Global,
    document: &mut Table,
    place: &Place,
    key: Key,
    turn: usize,
) -> Result<(), AllocError> {
    let Some(table) = table_at(document, place) else {
        make_table(alloc, document, place);
        return Ok(());
    };
    match (key, place) {
        (Key::Kind, Place::Link { .. }) => link_kind(alloc, table),
        (Key::Kind, _) => set(alloc, table, "kind", text(alloc, "plain")?),
        (Key::Port, _) => set_ports(alloc, document, place, turn),
        (Key::Module, Place::File) => {
            set(alloc, table, "module", one_table(alloc, SPARE_MODULE)?)?;
            add_spare_link(alloc, document)
        }
        (Key::Link, Place::Port { .. }) | (Key::Address, _) => {
            move_port(alloc, document, place, turn)
        }
        _ => {
            let value = value_for(alloc, key, turn)?;
            set(alloc, table, key.word(), value)
        }
    }
}

// Tables past the most are left out.
fn cut(document: &mut Table, place: &Place, key: Key) {
    let most = match key {
        Key::Link => 32,
        Key::Port => 8,
        _ => 64,
    };
    if let Some(table) = table_at(document, place) {
        if let Some(Value::Array(entries)) = table.get_mut(key.word()) {
            entries.truncate(most);
        }
    }
}

/// Changes what the fault is about into what is allowed; `turn` is another number each time.
pub(crate) fn repair(
    alloc: Global,
    document: &mut Table,
    fault: &LoadFault,
    turn: usize,
) -> Result<(), AllocError> {
    match fault {
        LoadFault::Missing { key, place } => set_key(alloc, document, place, *key, turn),
        LoadFault::Range { key, place, .. } => set_key(alloc, document, place, *key, turn),
        LoadFault::DoubleName { place } => set_key(alloc, document, place, Key::Name, turn),
        LoadFault::DoubleOriginator { place, .. } => {
            set_key(alloc, document, place, Key::Serial, turn)
        }
        LoadFault::DoubleAddress { place, .. }
        | LoadFault::UnknownLink { place, .. }
        | LoadFault::AddressNotLegal { place, .. } => move_port(alloc, document, place, turn),
        LoadFault::Limit { key, place, .. } => {
            cut(document, place, *key);
            Ok(())
        }
        LoadFault::NotToml(_) | LoadFault::NoMemory => Ok(()),
    }
}
