//! What a fault of a topology file does not tell by itself: what stands elsewhere in the file.

use crate::repairing::SPARE;
use crate::strangers::{known_at, nearest_stranger};
use crate::tables::{entries_of, name_of, table_at};
use cip_base::{Address, NoMemory};
use cip_config::LegalAddresses;
use cip_topology::{Excerpt, Found, Key, LoadFault, Name, Place};
use std::alloc::{AllocError, Global};
use std::fmt;
use toml::{Table, Value};

// The most names that a text lists.
const MOST: usize = 20;

// Names between backquotes, with commas between them, and how many more there are.
#[derive(Drop)]
struct Listed {
    text: String,
    count: usize,
}

impl Listed {
    fn new(alloc: Global) -> Listed {
        Listed {
            text: String::new(alloc),
            count: 0,
        }
    }

    fn add(&mut self, name: &str) -> Result<(), AllocError> {
        if self.count < MOST {
            if self.count > 0 {
                self.text.push_str(", ")?;
            }
            let name = Excerpt::of(name.as_bytes());
            write!(self.text, "`{name}`")?;
        }
        self.count = self.count.saturating_add(1);
        Ok(())
    }
}

impl fmt::Display for Listed {
    fn fmt<W: fmt::Write>(&self, f: &mut fmt::Formatter<W>) -> fmt::Result {
        f.write_str(self.text.as_str())?;
        if self.count > MOST {
            write!(f, " and {} more", self.count - MOST)?;
        }
        Ok(())
    }
}

// The keys that stand where one is missing, and the nearest of those that mean nothing.
fn tell_keys(
    alloc: Global,
    table: &Table,
    place: &Place,
    key: Key,
    told: &mut String,
) -> Result<(), AllocError> {
    let mut found = Listed::new(alloc);
    for other in table.keys() {
        found.add(other.as_str())?;
    }
    if found.count == 0 {
        told.push_str("; no key is found")?;
    } else {
        write!(told, "; found: {found}")?;
    }
    if let Some(nearest) = nearest_stranger(alloc, table, known_at(place), key.word())? {
        let nearest = Excerpt::of(nearest.as_bytes());
        write!(told, "; the nearest is `{nearest}`")?;
    }
    Ok(())
}

// The first table of a kind in a module that has the key.
fn holder(module_: &Table, kind: &str, key: Key) -> Option<usize> {
    for (i, entry) in entries_of(module_, kind).iter().enumerate() {
        if let Value::Table(table) = entry {
            if table.contains_key(key.word()) {
                return Some(i.saturating_add(1));
            }
        }
    }
    None
}

// The port or the assembly of a module in which its key stands.
fn tell_holder(module_: &Table, key: Key, told: &mut String) -> Result<(), AllocError> {
    let word = key.word();
    if let Some(port) = holder(module_, "port", key) {
        write!(told, "; `{word}` stands in its [[module.port]] {port}")?;
    } else if let Some(assembly) = holder(module_, "assembly", key) {
        write!(
            told,
            "; `{word}` stands in its [[module.assembly]] {assembly}"
        )?;
    }
    Ok(())
}

fn tell_missing(
    alloc: Global,
    document: &Table,
    place: &Place,
    key: Key,
    told: &mut String,
) -> Result<(), AllocError> {
    let Some(table) = table_at(document, place) else {
        return Ok(());
    };
    if table.contains_key(key.word()) {
        told.push_str("; it is an empty array")?;
        return Ok(());
    }
    tell_keys(alloc, table, place, key, told)?;
    match place {
        Place::Module { .. } => tell_holder(table, key, told),
        _ => Ok(()),
    }
}

// The number at a key.
fn number_at(table: &Table, key: Key) -> Option<i64> {
    table.get(key.word())?.as_integer()
}

// The text at a key.
fn text_at<'a>(table: &'a Table, key: Key) -> Option<&'a str> {
    match table.get(key.word()) {
        Some(value) => value.as_str(),
        None => None,
    }
}

// The least address of a link.
fn tell_first(document: &Table, place: &Place, told: &mut String) -> Result<(), AllocError> {
    let Some(table) = table_at(document, place) else {
        return Ok(());
    };
    if let Some(first) = number_at(table, Key::First) {
        write!(told, "; `first` is {first}")?;
    }
    Ok(())
}

// Characters that may be an address on a link of kind text, where they stand as they are.
fn tell_characters(document: &Table, place: &Place, told: &mut String) -> Result<(), AllocError> {
    let Some(table) = table_at(document, place) else {
        return Ok(());
    };
    let Some(text) = text_at(table, Key::Address) else {
        return Ok(());
    };
    if let Ok(address) = Address::read(text.as_bytes()) {
        if text.contains('.') {
            let pairs = Pairs(&address);
            write!(told, "; these characters are the pairs {pairs}")?;
        }
    }
    Ok(())
}

// Bytes as pairs of hexadecimal digits.
#[derive(Clone, Copy)]
struct Pairs<'a>(&'a Address);

impl fmt::Display for Pairs<'_> {
    fn fmt<W: fmt::Write>(&self, f: &mut fmt::Formatter<W>) -> fmt::Result {
        for byte in self.0.as_slice() {
            write!(f, "{byte:02X}")?;
        }
        Ok(())
    }
}

// The first table of a kind that has the name.
fn tell_namesake(document: &Table, place: &Place, told: &mut String) -> Result<(), AllocError> {
    let (kind, name) = match place {
        Place::Link { name, .. } => ("link", name),
        Place::Module { name, .. } => ("module", name),
        _ => return Ok(()),
    };
    let Some(name) = name else {
        return Ok(());
    };
    for (i, entry) in entries_of(document, kind).iter().enumerate() {
        if has_text(entry, Key::Name, name.as_slice()) {
            let number = i.saturating_add(1);
            write!(told, ", [[{kind}]] {number}")?;
            return Ok(());
        }
    }
    Ok(())
}

fn has_text(entry: &Value, key: Key, text: &[u8]) -> bool {
    match entry {
        Value::Table(table) => match text_at(table, key) {
            Some(found) => found.as_bytes() == text,
            None => false,
        },
        _ => false,
    }
}

// Whether a port stands at the address, in hexadecimal, on the link.
fn stands_at(port: &Value, link: &Name, address: &str) -> bool {
    match port {
        Value::Table(table) => match text_at(table, Key::Address) {
            Some(found) => {
                found.eq_ignore_ascii_case(address) && has_text(port, Key::Link, link.as_slice())
            }
            None => false,
        },
        _ => false,
    }
}

// The first port of a module at the address on the link, by its number.
fn port_at(module_: &Table, link: &Name, address: &str) -> Option<usize> {
    for (i, port) in entries_of(module_, "port").iter().enumerate() {
        if stands_at(port, link, address) {
            return Some(i.saturating_add(1));
        }
    }
    None
}

// The first port at the address on the link.
fn tell_port(
    alloc: Global,
    document: &Table,
    link: &Name,
    address: &Address,
    told: &mut String,
) -> Result<(), AllocError> {
    let mut pairs = String::new(alloc);
    write!(pairs, "{}", Pairs(address))?;
    for (i, entry) in entries_of(document, "module").iter().enumerate() {
        if let Value::Table(table) = entry {
            if let Some(port) = port_at(table, link, pairs.as_str()) {
                let place = Place::Port {
                    number: i.saturating_add(1),
                    name: name_of(table),
                    port,
                };
                write!(told, ", {place}")?;
                return Ok(());
            }
        }
    }
    Ok(())
}

// The first module of the originator.
fn tell_originator(
    document: &Table,
    vendor: u16,
    serial: u32,
    told: &mut String,
) -> Result<(), AllocError> {
    for (i, entry) in entries_of(document, "module").iter().enumerate() {
        if let Value::Table(table) = entry {
            let own = (number_at(table, Key::Vendor), number_at(table, Key::Serial));
            if own == (Some(i64::from(vendor)), Some(i64::from(serial))) {
                let place = Place::Module {
                    number: i.saturating_add(1),
                    name: name_of(table),
                };
                write!(told, ", {place}")?;
                return Ok(());
            }
        }
    }
    Ok(())
}

// The names of the links.
fn tell_links(alloc: Global, document: &Table, told: &mut String) -> Result<(), AllocError> {
    let mut names = Listed::new(alloc);
    for entry in entries_of(document, "link") {
        if let Value::Table(table) = entry {
            match text_at(table, Key::Name) {
                Some(name) if name != SPARE => names.add(name)?,
                _ => {}
            }
        }
    }
    write!(told, "; allowed: {names}")
}

// The range of a link's addresses once more in decimal numbers.
fn tell_decimal(legal: LegalAddresses, told: &mut String) -> Result<(), AllocError> {
    match legal {
        LegalAddresses::Byte { first, last } => write!(told, ", in decimal {first} to {last}"),
        LegalAddresses::Text { .. } => told.push_str(", in decimal 33 to 126"),
    }
}

// What stands elsewhere in the file.
fn tell(
    alloc: Global,
    document: &Table,
    fault: &LoadFault,
    told: &mut String,
) -> Result<(), AllocError> {
    match fault {
        LoadFault::Missing { key, place } => tell_missing(alloc, document, place, *key, told),
        LoadFault::Range {
            key: Key::Last,
            place,
            found: Found::Integer(_),
        } => { tell_first(document, place, told) }
        LoadFault::Range {
            key: Key::Address,
            place,
            ..
        } => tell_characters(document, place, told),
        LoadFault::DoubleName { place } => tell_namesake(document, place, told),
        LoadFault::DoubleAddress { link, address, .. } => {
            tell_port(alloc, document, link, address, told)
        }
        LoadFault::DoubleOriginator { vendor, serial, .. } => {
            tell_originator(document, *vendor, *serial, told)
        }
        LoadFault::UnknownLink { .. } => tell_links(alloc, document, told),
        LoadFault::AddressNotLegal { legal, .. } => tell_decimal(*legal, told),
        _ => Ok(()),
    }
}

// Whether a carriage return stands before no newline.
fn has_lone_return(text: &str) -> bool {
    let mut after_return = false;
    for byte in text.as_bytes() {
        if after_return && *byte != b'\n' {
            return true;
        }
        after_return = *byte == b'\r';
    }
    after_return
}

/// A fault of the text of a topology file in words, with what else the text says of it: the keys
/// that are found where one is missing, the table or port that has the same, the links that there
/// are. NoMemory where an allocation is refused.
pub fn explain_load(alloc: Global, text: &str, fault: &LoadFault) -> Result<String, NoMemory> {
    let mut told = String::new(alloc);
    write!(told, "{fault}")?;
    match toml::table_from_str(alloc, text) {
        Ok(document) => tell(alloc, &document, fault, &mut told)?,
        Err(error) if error.is_memory() => return Err(NoMemory),
        Err(_) if has_lone_return(text) => {
            told.push_str(
                "; a carriage return, 0D, ends no line: lines end with 0A, or with 0D 0A",
            )?
        }
        Err(_) => {}
    }
    Ok(told)
}
