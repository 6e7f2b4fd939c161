//! What stands at a key of a table: each value in its type and its range.
ghost use Rattle.std.specs.Prelude.{◌≡◌, ◌≤◌, true, IfOk, MatchResult, option_map};
ghost use Rattle.toml.specs.Data.{get_member};
ghost use Rattle.toml.specs.View.{view, items_view, table_view};
ghost use Rattle.cip_target.specs.Identity.{is_product_name};
ghost use Rattle.cip_topology.specs.declared.fault.LoadFault.TheVariants.{NoMemory};
ghost use Rattle.cip_topology.specs.declared.fault.LoadFault.TheVariants.{Missing as NoKey};
ghost use Rattle.cip_topology.specs.declared.fault.LoadFault.TheVariants.{Range as NoRange};
ghost use Rattle.cip_topology.specs.declared.key.Key.TheVariants.{Clock as AtClock};
ghost use Rattle.cip_topology.specs.declared.key.Key.TheVariants.{ProductName as AtProductName};
ghost use Rattle.cip_topology.specs.Words.{word_of};
ghost use Rattle.cip_topology.specs.Faults.{found_of};
ghost use Rattle.cip_topology.specs.Keys.{value_at, number_of, number_at, number_or_at, counted_at};
ghost use Rattle.cip_topology.specs.Keys.{text_at, name_at, pairs_of, address_at, array_of};
ghost use Rattle.cip_topology.specs.Keys.{items_at, table_of};
ghost use Rattle.cip_topology.specs.Calls.{Gives};

use crate::fault::LoadFault;
use crate::found::Found;
use crate::key::Key;
use crate::place::Place;
use cip_base::{Address, Bytes, count_of};
use cip_chassis::Name;
use cip_target::is_product_name;
use hex::FromHexError;
use std::alloc::Global;
use toml::{Table, Value};

fn value_at<'a>(table: &'a Table, key: Key) -> Option<&'a Value>
    ensures { option_map (λ v. view v.now) result
        ≡ get_member (word_of key) (table_view table.now) }
{
    table.get(key.word())
}

/// The value at a key of a table; Missing where the key is not there.
pub(crate) fn value<'a>(table: &'a Table, place: &Place, key: Key) -> Result<&'a Value, LoadFault>
    ensures { Gives (λ v. view v.now) result
        (value_at place.now key (table_view table.now)) }
{
    match value_at(table, key) {
        Some(value) => Ok(value),
        None => Err(LoadFault::Missing {
            key,
            place: place.copy(),
        }),
    }
}

/// The value is of another type, or out of the key's range.
pub(crate) fn out_of_range(place: &Place, key: Key, value: &Value) -> LoadFault
    ensures { result ≡ NoRange key place.now (found_of (view value.now)) }
{
    LoadFault::Range {
        key,
        place: place.copy(),
        found: Found::of(value),
    }
}

fn number_of(
    value: &Value,
    place: &Place,
    key: Key,
    least: u32,
    most: u32,
) -> Result<u32, LoadFault>
    ensures is { Gives (λ n. n) result (number_of place.now key least most (view value.now)) }
    ensures low { IfOk result (λ n. least ≤ n) }
    ensures high { IfOk result (λ n. n ≤ most) }
{
    match value.as_integer() {
        Some(number) if number >= i64::from(least) && number <= i64::from(most) => {
            Ok(number as u32)
        }
        _ => Err(out_of_range(place, key, value)),
    }
}

/// The number at a key, from least to most.
pub(crate) fn number(
    table: &Table,
    place: &Place,
    key: Key,
    least: u32,
    most: u32,
) -> Result<u32, LoadFault>
    ensures is { Gives (λ n. n) result
        (number_at place.now key least most (table_view table.now)) }
    ensures low { IfOk result (λ n. least ≤ n) }
    ensures high { IfOk result (λ n. n ≤ most) }
{
    let value = value(table, place, key)?;
    number_of(value, place, key, least, most)
}

/// The number at a key, or another one where the key is not there.
pub(crate) fn number_or(
    table: &Table,
    place: &Place,
    key: Key,
    otherwise: u32,
    least: u32,
    most: u32,
) -> Result<u32, LoadFault>
    requires above { least ≤ otherwise }
    requires below { otherwise ≤ most }
    ensures is { Gives (λ n. n) result
        (number_or_at place.now key otherwise least most (table_view table.now)) }
    ensures low { IfOk result (λ n. least ≤ n) }
    ensures high { IfOk result (λ n. n ≤ most) }
{
    match value_at(table, key) {
        Some(value) => number_of(value, place, key, least, most),
        None => Ok(otherwise),
    }
}

/// The first id or request number at a key, or 1 where the key is not there. Its count, the low
/// half, is above 0.
pub(crate) fn counted(table: &Table, place: &Place, key: Key) -> Result<u32, LoadFault>
    ensures { Gives (λ n. n) result (counted_at place.now key (table_view table.now)) }
{
    let Some(value) = value_at(table, key) else {
        return Ok(1);
    };
    let number = number_of(value, place, key, 1, u32::MAX)?;
    if count_of(number) >= 1 {
        Ok(number)
    } else {
        Err(out_of_range(place, key, value))
    }
}

/// The time at which a module begins.
pub(crate) fn clock(table: &Table, place: &Place) -> Result<u64, LoadFault>
    ensures is { Gives (λ n. n) result
        (number_or_at place.now AtClock 0 0 9223372036854775807 (table_view table.now)) }
    ensures high { IfOk result (λ n. n ≤ 9223372036854775807) }
{
    let Some(value) = value_at(table, Key::Clock) else {
        return Ok(0);
    };
    match value.as_integer() {
        Some(number) if number >= 0 => Ok(number as u64),
        _ => Err(out_of_range(place, Key::Clock, value)),
    }
}

/// The text at a key.
pub(crate) fn text<'a>(table: &'a Table, place: &Place, key: Key) -> Result<&'a str, LoadFault>
    ensures { Gives (λ s. s.now) result
        (text_at (λ s. true) place.now key (table_view table.now)) }
{
    let value = value(table, place, key)?;
    match value.as_str() {
        Some(text) => Ok(text),
        None => Err(out_of_range(place, key, value)),
    }
}

/// The name of a link or a module.
pub(crate) fn name(table: &Table, place: &Place) -> Result<Name, LoadFault>
    ensures { Gives (λ s. s) result (name_at place.now (table_view table.now)) }
{
    let value = value(table, place, Key::Name)?;
    let Some(text) = value.as_str() else {
        return Err(out_of_range(place, Key::Name, value));
    };
    match Name::read(text.as_bytes()) {
        Some(name) => Ok(name),
        None => Err(out_of_range(place, Key::Name, value)),
    }
}

/// The product name of a module.
pub(crate) fn product_name(alloc: Global, table: &Table, place: &Place) -> Result<Bytes, LoadFault>
    ensures { Gives (λ s. s) result
        (text_at is_product_name place.now AtProductName (table_view table.now)) }
{
    let value = value(table, place, Key::ProductName)?;
    match value.as_str() {
        Some(text) if is_product_name(text.as_bytes()) => {
            Ok(Bytes::of(Vec::from_slice(alloc, text.as_bytes())?))
        }
        _ => Err(out_of_range(place, Key::ProductName, value)),
    }
}

// The bytes of a text of pairs of hexadecimal digits, if they are an address.
fn pairs_of(alloc: Global, text: &str) -> Result<Option<Address>, LoadFault>
    ensures { MatchResult result (λ a. a ≡ pairs_of text.now) (λ e. e ≡ NoMemory) }
{
    if text.len() > 32 {
        return Ok(None);
    }
    match hex::decode(alloc, text) {
        Ok(bytes) => Ok(Address::read(bytes.as_slice()).ok()),
        Err(FromHexError::OutOfMemory) => Err(LoadFault::NoMemory),
        Err(_) => Ok(None),
    }
}

/// The address of a port.
pub(crate) fn address(alloc: Global, table: &Table, place: &Place) -> Result<Address, LoadFault>
    ensures { Gives (λ a. a) result (address_at place.now (table_view table.now)) }
{
    let value = value(table, place, Key::Address)?;
    let Some(text) = value.as_str() else {
        return Err(out_of_range(place, Key::Address, value));
    };
    match pairs_of(alloc, text)? {
        Some(address) => Ok(address),
        None => Err(out_of_range(place, Key::Address, value)),
    }
}

/// The items of an array; Range where the value at the key is none.
pub(crate) fn array_of<'a>(
    value: &'a Value,
    place: &Place,
    key: Key,
) -> Result<&'a [Value], LoadFault>
    ensures { Gives (λ s. items_view s.now) result (array_of place.now key (view value.now)) }
{
    match value.as_array() {
        Some(items) => Ok(items.as_slice()),
        None => Err(out_of_range(place, key, value)),
    }
}

/// The tables of a kind, none where the key is not there.
pub(crate) fn items<'a>(table: &'a Table, place: &Place, key: Key) -> Result<&'a [Value], LoadFault>
    ensures { Gives (λ s. items_view s.now) result
        (items_at place.now key (table_view table.now)) }
{
    match value_at(table, key) {
        Some(value) => array_of(value, place, key),
        None => Ok(&[]),
    }
}

/// The table of an entry.
pub(crate) fn table_of<'a>(
    entry: &'a Value,
    place: &Place,
    key: Key,
) -> Result<&'a Table, LoadFault>
    ensures { Gives (λ t. table_view t.now) result (table_of place.now key (view entry.now)) }
{
    match entry.as_table() {
        Some(table) => Ok(table),
        None => Err(out_of_range(place, key, entry)),
    }
}
