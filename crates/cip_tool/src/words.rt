//! The words of a path in words, one by one.
ghost use Rattle.std.specs.Prelude.{◌≡◌, ◌==◌, ◌<◌, ◌^◌, map, All, IfOk, Some, None, drop, [], ◌∷◌};
ghost use Rattle.std.specs.Prelude.{if◌then◌else◌, option_map};
ghost use Rattle.std.specs.List.{slice_split, list_all};
ghost use Rattle.cip_segment.specs.Short.{IsWritable};
ghost use Rattle.cip_tool.specs.Words.{Gives, GivesBy, texts, bounded, port_of};
ghost use Rattle.cip_tool.specs.Words.{is_plain, is_decimal_digit};
ghost use Rattle.cip_tool.specs.Words.{is_name, is_marked, hex_of, if_address, address_of};
ghost use Rattle.cip_tool.specs.Words.{object_by, object_of, key_fields, key_by, key_of};
ghost use Rattle.cip_tool.specs.Words.{data_of, if_symbol, symbol_of, named_of, numbered};
ghost use Rattle.cip_segment.specs.declared.segment.Segment.TheVariants as segments;
ghost use Rattle.cip_tool.specs.declared.fault.WordFault.TheVariants as faults;
ghost use Rattle.cip_tool.specs.Spelling.{is_symbol};

use crate::fault::{WordError, WordFault};
use crate::numbers::{number_u8, number_u16, number_u32};
use cip_base::{Address, Bytes, KeyFields, PortNumber};
use cip_segment::Segment;
use hex::FromHexError;
use std::alloc::{AllocError, Global};

/// The parts of a text between the characters `at`.
pub(crate) fn parts_of(alloc: Global, text: &str, at: char) -> Result<Vec<&str>, AllocError>
    requires { at < 128 }
    ensures { IfOk result (λ v. map (λ part. part.now) v.items
        ≡ slice_split (λ b. b == at) text.now) }
{
    text.split(at).collect(alloc)
}

fn in_u8(fault: WordFault, word: &str) -> Result<u8, WordError>
    ensures { Gives result (bounded fault (2 ^ 8) word.now) }
{
    match number_u8(word) {
        Some(n) => Ok(n),
        None => Err(WordError::Fault(fault)),
    }
}

fn in_u16(fault: WordFault, word: &str) -> Result<u16, WordError>
    ensures { Gives result (bounded fault (2 ^ 16) word.now) }
{
    match number_u16(word) {
        Some(n) => Ok(n),
        None => Err(WordError::Fault(fault)),
    }
}

fn in_u32(fault: WordFault, word: &str) -> Result<u32, WordError>
    ensures { Gives result (bounded fault (2 ^ 32) word.now) }
{
    match number_u32(word) {
        Some(n) => Ok(n),
        None => Err(WordError::Fault(fault)),
    }
}

fn known_port(number: u16) -> PortNumber
    requires { 0 < number }
    ensures { result ≡ number }
{
    match PortNumber::new(number) {
        Some(port) => port,
        None => unreachable!(),
    }
}

/// A port: its number, or the name of the backplane's or the Ethernet's.
pub(crate) fn port_of(word: &str) -> Result<PortNumber, WordError>
    ensures { Gives result (port_of word.now) }
{
    if word == "backplane" {
        return Ok(known_port(1));
    }
    if word == "enet" {
        return Ok(known_port(2));
    }
    match PortNumber::new(in_u16(WordFault::Port, word)?) {
        Some(port) => Ok(port),
        None => Err(WordError::Fault(WordFault::Port)),
    }
}

fn are_plain(bytes: &[u8]) -> bool
    ensures { result ≡ list_all is_plain bytes.now }
{
    bytes.iter().all(|byte| {
        32 < *byte && *byte < 127 && *byte != b',' && *byte != b'=' && *byte != b'@'
    })
}

fn are_digits(bytes: &[u8]) -> bool
    ensures { result ≡ list_all is_decimal_digit bytes.now }
{
    bytes.iter().all(|byte| 47 < *byte && *byte < 58)
}

// What stands behind 0x, where that stands first.
fn behind_mark(word: &str) -> Option<&str>
    ensures { option_map (λ rest. rest.now) result
        ≡ (if is_marked word.now then Some (drop 2 word.now) else None) }
{
    word.strip_prefix("0x")
}

/// Whether a word is an address of 2 to 16 plain characters.
pub(crate) fn is_name(word: &str) -> bool
    ensures { result ≡ is_name word.now }
{
    let bytes = word.as_bytes();
    1 < bytes.len()
        && bytes.len() < 17
        && behind_mark(word).is_none()
        && are_plain(bytes)
        && !are_digits(bytes)
}

// The bytes that pairs of hexadecimal digits write.
fn hex_of(alloc: Global, fault: WordFault, digits: &str) -> Result<Vec<u8>, WordError>
    ensures { GivesBy (λ v. v.items) result (hex_of fault digits.now) }
{
    match hex::decode(alloc, digits) {
        Ok(bytes) => Ok(bytes),
        Err(FromHexError::OutOfMemory) => Err(WordError::NoMemory),
        Err(_) => Err(WordError::Fault(fault)),
    }
}

fn if_address(bytes: &[u8]) -> Result<Address, WordError>
    ensures { Gives result (if_address bytes.now) }
{
    match Address::read(bytes) {
        Ok(address) => Ok(address),
        Err(_) => Err(WordError::Fault(WordFault::Address)),
    }
}

/// An address: a text, bytes behind 0x, or the number of a byte.
pub(crate) fn address_of(alloc: Global, word: &str) -> Result<Address, WordError>
    ensures { Gives result (address_of word.now) }
{
    if is_name(word) {
        return if_address(word.as_bytes());
    }
    match behind_mark(word) {
        Some(digits) => {
            let bytes = hex_of(alloc, WordFault::Address, digits)?;
            if_address(bytes.as_slice())
        }
        None => if_address(&[in_u8(WordFault::Address, word)?]),
    }
}

// CLASS
fn class_by(alloc: Global, class: &str) -> Result<Vec<Segment>, WordError>
    ensures gives { GivesBy (λ v. v.items) result (object_by (class.now ∷ [])) }
    ensures writable { IfOk result (λ v. All IsWritable v.items) }
{
    let class = in_u16(WordFault::Class, class)?;
    Ok(vec![in alloc; Segment::Class(class)]?)
}

// CLASS/INSTANCE
fn instance_by(alloc: Global, class: &str, instance: &str) -> Result<Vec<Segment>, WordError>
    ensures gives { GivesBy (λ v. v.items) result (object_by (class.now ∷ instance.now ∷ [])) }
    ensures writable { IfOk result (λ v. All IsWritable v.items) }
{
    let class = in_u16(WordFault::Class, class)?;
    let instance = in_u32(WordFault::Instance, instance)?;
    Ok(vec![in alloc; Segment::Class(class), Segment::Instance(instance)]?)
}

// CLASS/INSTANCE/ATTRIBUTE
fn attribute_by(
    alloc: Global,
    class: &str,
    instance: &str,
    attribute: &str,
) -> Result<Vec<Segment>, WordError>
    ensures gives { GivesBy (λ v. v.items) result
        (object_by (class.now ∷ instance.now ∷ attribute.now ∷ [])) }
    ensures writable { IfOk result (λ v. All IsWritable v.items) }
{
    let class = in_u16(WordFault::Class, class)?;
    let instance = in_u32(WordFault::Instance, instance)?;
    let attribute = in_u16(WordFault::Attribute, attribute)?;
    Ok(vec![in alloc;
        Segment::Class(class),
        Segment::Instance(instance),
        Segment::Attribute(attribute),
    ]?)
}

// One, two or three segments.
fn object_by(alloc: Global, parts: &[&str]) -> Result<Vec<Segment>, WordError>
    ensures gives { GivesBy (λ v. v.items) result (object_by (texts parts.now)) }
    ensures writable { IfOk result (λ v. All IsWritable v.items) }
{
    match parts {
        [class] => class_by(alloc, class),
        [class, instance] => instance_by(alloc, class, instance),
        [class, instance, attribute] => attribute_by(alloc, class, instance, attribute),
        _ => Err(WordError::Fault(WordFault::Object)),
    }
}

/// CLASS/INSTANCE/ATTRIBUTE, or the first or the first two of them.
pub(crate) fn object_of(alloc: Global, text: &str) -> Result<Vec<Segment>, WordError>
    ensures gives { GivesBy (λ v. v.items) result (object_of text.now) }
    ensures writable { IfOk result (λ v. All IsWritable v.items) }
{
    let parts = parts_of(alloc, text, '/')?;
    object_by(alloc, parts.as_slice())
}

fn key_fields(
    vendor: &str,
    device_type: &str,
    product: &str,
    major: &str,
    minor: &str,
) -> Result<Segment, WordError>
    ensures gives { Gives result
        (key_fields vendor.now device_type.now product.now major.now minor.now) }
    ensures writable { IfOk result IsWritable }
{
    let words = (
        number_u16(vendor),
        number_u16(device_type),
        number_u16(product),
        number_u8(major),
        number_u8(minor),
    );
    let (Some(vendor), Some(device_type), Some(product), Some(major), Some(minor)) = words else {
        return Err(WordError::Fault(WordFault::Key));
    };
    Ok(Segment::Key(KeyFields {
        vendor,
        device_type,
        product,
        major,
        minor,
    }))
}

// VENDOR/TYPE/PRODUCT/MAJOR/MINOR
fn key_of(alloc: Global, text: &str) -> Result<Segment, WordError>
    ensures gives { Gives result (key_of text.now) }
    ensures writable { IfOk result IsWritable }
{
    let parts = parts_of(alloc, text, '/')?;
    match parts.as_slice() {
        [vendor, device_type, product, major, minor] => {
            key_fields(vendor, device_type, product, major, minor)
        }
        _ => Err(WordError::Fault(WordFault::Key)),
    }
}

// Whole words of data.
fn data_of(alloc: Global, digits: &str) -> Result<Segment, WordError>
    ensures gives { Gives result (data_of digits.now) }
    ensures writable { IfOk result IsWritable }
{
    let bytes = hex_of(alloc, WordFault::Data, digits)?;
    if bytes.len() > 510 || bytes.len() % 2 == 1 {
        return Err(WordError::Fault(WordFault::Data));
    }
    Ok(Segment::Words(Bytes::of(bytes)))
}

fn if_symbol(bytes: Vec<u8>) -> Result<Segment, WordError>
    ensures gives { Gives result (if_symbol bytes.items) }
    ensures writable { IfOk result IsWritable }
{
    if bytes.len() > 255 {
        return Err(WordError::Fault(WordFault::Symbol));
    }
    Ok(Segment::Symbol(Bytes::of(bytes)))
}

/// Whether a symbol is written by its characters.
pub(crate) fn is_symbol(text: &str) -> bool
    ensures { result ≡ is_symbol text.now }
{
    behind_mark(text).is_none() && are_plain(text.as_bytes())
}

// Plain characters, or bytes behind 0x.
fn symbol_of(alloc: Global, text: &str) -> Result<Segment, WordError>
    ensures gives { Gives result (symbol_of text.now) }
    ensures writable { IfOk result IsWritable }
{
    if let Some(digits) = behind_mark(text) {
        return if_symbol(hex_of(alloc, WordFault::Symbol, digits)?);
    }
    if are_plain(text.as_bytes()) {
        return if_symbol(Vec::from_slice(alloc, text.as_bytes())?);
    }
    Err(WordError::Fault(WordFault::Symbol))
}

fn instance_of(text: &str) -> Result<Segment, WordError>
    ensures gives { Gives result
        (numbered segments.Instance (bounded faults.Instance (2 ^ 32) text.now)) }
    ensures writable { IfOk result IsWritable }
{
    Ok(Segment::Instance(in_u32(WordFault::Instance, text)?))
}

fn attribute_of(text: &str) -> Result<Segment, WordError>
    ensures gives { Gives result
        (numbered segments.Attribute (bounded faults.Attribute (2 ^ 16) text.now)) }
    ensures writable { IfOk result IsWritable }
{
    Ok(Segment::Attribute(in_u16(WordFault::Attribute, text)?))
}

fn member_of(text: &str) -> Result<Segment, WordError>
    ensures gives { Gives result
        (numbered segments.Member (bounded faults.Member (2 ^ 16) text.now)) }
    ensures writable { IfOk result IsWritable }
{
    Ok(Segment::Member(in_u16(WordFault::Member, text)?))
}

fn point_of(text: &str) -> Result<Segment, WordError>
    ensures gives { Gives result
        (numbered segments.Point (bounded faults.Point (2 ^ 32) text.now)) }
    ensures writable { IfOk result IsWritable }
{
    Ok(Segment::Point(in_u32(WordFault::Point, text)?))
}

fn inhibit_of(text: &str) -> Result<Segment, WordError>
    ensures gives { Gives result
        (numbered segments.Inhibit (bounded faults.Inhibit (2 ^ 8) text.now)) }
    ensures writable { IfOk result IsWritable }
{
    Ok(Segment::Inhibit(in_u8(WordFault::Inhibit, text)?))
}

/// What NAME=VALUE names.
pub(crate) fn named_of(alloc: Global, name: &str, text: &str) -> Result<Segment, WordError>
    ensures gives { Gives result (named_of name.now text.now) }
    ensures writable { IfOk result IsWritable }
{
    if name == "instance" {
        instance_of(text)
    } else if name == "attribute" {
        attribute_of(text)
    } else if name == "member" {
        member_of(text)
    } else if name == "point" {
        point_of(text)
    } else if name == "inhibit" {
        inhibit_of(text)
    } else if name == "key" {
        key_of(alloc, text)
    } else if name == "data" {
        data_of(alloc, text)
    } else if name == "symbol" {
        symbol_of(alloc, text)
    } else {
        Err(WordError::Fault(WordFault::Name))
    }
}
