//! Addresses of one byte that read as decimal numbers.

ghost use Rattle.std.specs.Prelude.{◌≡◌, ◌<◌};

use crate::report::Report;
use crate::tables::{entries_of, name_of};
use cip_topology::Place;
use std::alloc::{AllocError, Global};
use std::fmt;
use toml::{Table, Value};

// The port at a place has an address of two decimal digits.
#[derive(Clone, Copy)]
struct Decimal<'a> {
    place: &'a Place,
    digits: &'a str,
    // what they are, and what they seem to be
    byte: u16,
    slot: u16,
}

impl fmt::Display for Decimal<'_> {
    fn fmt<W: fmt::Write>(&self, f: &mut fmt::Formatter<W>) -> fmt::Result {
        let place = self.place;
        let digits = self.digits;
        let byte = self.byte;
        let slot = self.slot;
        write!(
            f,
            "{place}: `address` \"{digits}\" is {byte}, as its digits are hexadecimal; "
        )?;
        write!(f, "slot {slot} is \"{slot:02X}\"")
    }
}

// The number of a digit, as it stands in ASCII.
fn worth(digit: u8) -> u16
    ensures { result < 256 }
{
    u16::from(digit.wrapping_sub(b'0'))
}

// What two decimal digits are as a hexadecimal number, and as a decimal one; None of other texts,
// and of digits that are the same number as both.
fn numbers_in(text: &str) -> Option<(u16, u16)> {
    match text.as_bytes() {
        [b'0', _] => None,
        [tens, ones] if tens.is_ascii_digit() && ones.is_ascii_digit() => {
            let tens = worth(*tens);
            let ones = worth(*ones);
            Some((tens * 16 + ones, tens * 10 + ones))
        }
        _ => None,
    }
}

// The text at a key.
fn text_at<'a>(table: &'a Table, key: &str) -> Option<&'a str> {
    match table.get(key) {
        Some(value) => value.as_str(),
        None => None,
    }
}

fn is_byte_link(link: &Value, name: &str) -> bool {
    match link {
        Value::Table(table) => {
            text_at(table, "name") == Some(name) && text_at(table, "kind") == Some("byte")
        }
        _ => false,
    }
}

// Whether addresses are one byte on the link of this name.
fn has_byte_link(document: &Table, name: &str) -> bool {
    for link in entries_of(document, "link") {
        if is_byte_link(link, name) {
            return true;
        }
    }
    false
}

// The address of a port on a link of bytes, and what it is and seems to be.
fn decimal_in<'a>(document: &Table, port: &'a Value) -> Option<(&'a str, u16, u16)> {
    let Value::Table(table) = port else {
        return None;
    };
    let digits = text_at(table, "address")?;
    let (byte, slot) = numbers_in(digits)?;
    if has_byte_link(document, text_at(table, "link")?) {
        Some((digits, byte, slot))
    } else {
        None
    }
}

fn decimal_ports(
    alloc: Global,
    document: &Table,
    number: usize,
    module_: &Table,
    report: &mut Report,
) -> Result<(), AllocError>
    ensures { report.new.faults ≡ report.old.faults }
{
    'ports: for (i, entry) in entries_of(module_, "port").iter().enumerate() {
        if let Some((digits, byte, slot)) = decimal_in(document, entry) {
            let place = Place::Port {
                number,
                name: name_of(module_),
                port: i.saturating_add(1),
            };
            let decimal = Decimal {
                place: &place,
                digits,
                byte,
                slot,
            };
            report.warn(alloc, &decimal)?;
        }
    }
    Ok(())
}

/// Warns of each address on a link of bytes whose digits read as another number in decimal: they
/// are hexadecimal.
pub(crate) fn decimal_addresses(
    alloc: Global,
    document: &Table,
    report: &mut Report,
) -> Result<(), AllocError>
    ensures { report.new.faults ≡ report.old.faults }
{
    'modules: for (i, entry) in entries_of(document, "module").iter().enumerate() {
        if let Value::Table(table) = entry {
            decimal_ports(alloc, document, i.saturating_add(1), table, report)?;
        }
    }
    Ok(())
}
