//! Paths in words, written.
ghost use Rattle.std.specs.Prelude.{◌≡◌, ◌<◌, ◌++◌, ◌∷◌, [], All, IfOk, OnOk, Some, None};
ghost use Rattle.std.specs.Prelude.{decimal, if◌then◌else◌, option_map, string_bytes};
ghost use Rattle.hex.specs.Hex.{encode_upper};
ghost use Rattle.cip_base.specs.Fields.{IsBytes};
ghost use Rattle.cip_segment.specs.Reading.{segments_of};
ghost use Rattle.cip_segment.specs.Short.{IsRanged};
ghost use Rattle.cip_tool.specs.Words.{is_name};
ghost use Rattle.cip_tool.specs.Routes.{IsSpelling};
ghost use Rattle.cip_tool.specs.Spelling.{marked, address_text, is_symbol, key_text};
ghost use Rattle.cip_tool.specs.Spelling.{spelling_of, HasBytes};
ghost use Rattle.cip_tool.specs.Pieces.{alone, piece, next};

use crate::words::{is_name, is_symbol};
use cip_base::{KeyFields, NoMemory};
use cip_segment::{PathView, Segment, segments};
use itoa::Buffer;
use std::alloc::Global;

fn put(text: &mut String, piece: &str) -> Result<(), NoMemory>
    ensures { OnOk result (string_bytes text.new ≡ string_bytes text.old ++ piece.now) }
{
    text.push_str(piece)?;
    Ok(())
}

fn put_number(text: &mut String, number: u32) -> Result<(), NoMemory>
    ensures { OnOk result (string_bytes text.new ≡ string_bytes text.old ++ decimal number) }
{
    let mut buffer = Buffer::new();
    put(text, buffer.format(number))
}

// A name, and a number behind it.
fn put_numbered(text: &mut String, name: &str, number: u32) -> Result<(), NoMemory>
    ensures { OnOk result (string_bytes text.new
        ≡ string_bytes text.old ++ (name.now ++ decimal number)) }
{
    put(text, name)?;
    put_number(text, number)
}

fn put_u16(text: &mut String, name: &str, number: u16) -> Result<(), NoMemory>
    ensures text { OnOk result (string_bytes text.new
        ≡ string_bytes text.old ++ (name.now ++ decimal number)) }
    ensures fits { OnOk result (number < 65536) }
{
    put_numbered(text, name, u32::from(number))
}

fn put_u8(text: &mut String, name: &str, number: u8) -> Result<(), NoMemory>
    ensures text { OnOk result (string_bytes text.new
        ≡ string_bytes text.old ++ (name.now ++ decimal number)) }
    ensures fits { OnOk result (number < 256) }
{
    put_numbered(text, name, u32::from(number))
}

// A byte as a pair of hexadecimal digits.
fn put_pair(text: &mut String, byte: u8) -> Result<(), NoMemory>
    ensures { OnOk result (string_bytes text.new
        ≡ string_bytes text.old ++ encode_upper (byte ∷ [])) }
{
    let digits = b"0123456789ABCDEF";
    text.push(char::from(digits[usize::from(byte / 16)]))?;
    text.push(char::from(digits[usize::from(byte % 16)]))?;
    Ok(())
}

// Bytes as such pairs.
fn put_pairs(text: &mut String, bytes: &[u8]) -> Result<(), NoMemory>
    ensures { OnOk result (string_bytes text.new
        ≡ string_bytes text.old ++ encode_upper bytes.now) }
{
    for byte in bytes {
        put_pair(text, *byte)?;
    }
    Ok(())
}

// Bytes behind 0x.
fn put_marked(text: &mut String, bytes: &[u8]) -> Result<(), NoMemory>
    ensures { OnOk result (string_bytes text.new ≡ string_bytes text.old ++ marked bytes.now) }
{
    put(text, "0x")?;
    put_pairs(text, bytes)
}

// The characters of an address, where they are a name.
fn name_in(bytes: &[u8]) -> Option<&str>
    ensures { option_map (λ text. text.now) result
        ≡ (if is_name bytes.now then Some bytes.now else None) }
{
    let Ok(text) = std::str::from_utf8(bytes) else {
        return None;
    };
    if is_name(text) { Some(text) } else { None }
}

// An address: the number of a byte, a text, or bytes behind 0x.
fn put_address(text: &mut String, address: &[u8]) -> Result<(), NoMemory>
    ensures { OnOk result (string_bytes text.new
        ≡ string_bytes text.old ++ address_text address.now) }
{
    if address.len() == 1 {
        return put_number(text, u32::from(address[0]));
    }
    match name_in(address) {
        Some(name) => put(text, name),
        None => put_marked(text, address),
    }
}

fn put_key(text: &mut String, key: &KeyFields) -> Result<(), NoMemory>
    ensures text { OnOk result (string_bytes text.new ≡ string_bytes text.old ++ key_text key.now) }
    ensures ranged { OnOk result (IsRanged (Segment.Key key.now)) }
{
    put_u16(text, "key=", key.vendor)?;
    put_u16(text, "/", key.device_type)?;
    put_u16(text, "/", key.product)?;
    put_u8(text, "/", key.major)?;
    put_u8(text, "/", key.minor)
}

// The characters of a symbol, where it is written by them.
fn symbol_in(bytes: &[u8]) -> Option<&str>
    ensures { option_map (λ text. text.now) result
        ≡ (if is_symbol bytes.now then Some bytes.now else None) }
{
    let Ok(text) = std::str::from_utf8(bytes) else {
        return None;
    };
    if is_symbol(text) { Some(text) } else { None }
}

// The characters of a symbol, or its bytes behind 0x.
fn put_symbol(text: &mut String, name: &[u8]) -> Result<(), NoMemory>
    ensures text { OnOk result (string_bytes text.new
        ≡ string_bytes text.old ++ alone (Segment.Symbol name.now)) }
    ensures bytes { OnOk result (IsBytes name.now) }
{
    put(text, "symbol=")?;
    match symbol_in(name) {
        Some(plain) => put(text, plain),
        None => put_marked(text, name),
    }
}

fn put_port(text: &mut String, port: u16, address: &[u8]) -> Result<(), NoMemory>
    ensures text { OnOk result (string_bytes text.new
        ≡ string_bytes text.old ++ alone (Segment.Port port address.now)) }
    ensures bytes { OnOk result (IsBytes address.now) }
{
    put_number(text, u32::from(port))?;
    put(text, ",")?;
    put_address(text, address)
}

fn put_data(text: &mut String, bytes: &[u8]) -> Result<(), NoMemory>
    ensures text { OnOk result (string_bytes text.new
        ≡ string_bytes text.old ++ alone (Segment.Words bytes.now)) }
    ensures bytes { OnOk result (IsBytes bytes.now) }
{
    put(text, "data=")?;
    put_pairs(text, bytes)
}

// One segment by itself.
fn put_alone(text: &mut String, segment: &Segment) -> Result<(), NoMemory>
    ensures text { OnOk result (string_bytes text.new
        ≡ string_bytes text.old ++ alone segment.now) }
    ensures ranged { OnOk result (IsRanged segment.now) }
    ensures bytes { OnOk result (HasBytes segment.now) }
{
    match segment {
        Segment::Port(port, address) => put_port(text, port.get(), address.as_slice()),
        Segment::Class(number) => put_u16(text, "@", *number),
        Segment::Instance(number) => put_numbered(text, "instance=", *number),
        Segment::Member(number) => put_u16(text, "member=", *number),
        Segment::Point(number) => put_numbered(text, "point=", *number),
        Segment::Attribute(number) => put_u16(text, "attribute=", *number),
        Segment::Key(key) => put_key(text, key),
        Segment::Words(bytes) => put_data(text, bytes.as_slice()),
        Segment::Symbol(name) => put_symbol(text, name.as_slice()),
        Segment::Inhibit(time) => put_u8(text, "inhibit=", *time),
    }
}

// The next segment stands behind a class, or behind a class and an instance, in one word.
#[derive(Clone, Copy)]
enum Behind {
    Class,
    Instance,
    Other,
}

// What the segment after this one stands behind.
fn next(behind: Behind, segment: &Segment) -> Behind
    ensures { result ≡ next behind segment.now }
{
    match (behind, segment) {
        (_, Segment::Class(_)) => Behind::Class,
        (Behind::Class, Segment::Instance(_)) => Behind::Instance,
        _ => Behind::Other,
    }
}

// Puts a segment behind others, as a part of the word before it where it may be one.
fn put_next(text: &mut String, behind: Behind, segment: &Segment) -> Result<(), NoMemory>
    ensures text { OnOk result (string_bytes text.new
        ≡ string_bytes text.old ++ piece behind segment.now) }
    ensures ranged { OnOk result (IsRanged segment.now) }
    ensures bytes { OnOk result (HasBytes segment.now) }
{
    match (behind, segment) {
        (Behind::Class, Segment::Instance(number)) => put_numbered(text, "/", *number),
        (Behind::Instance, Segment::Attribute(number)) => put_u16(text, "/", *number),
        _ => {
            put(text, ",")?;
            put_alone(text, segment)
        }
    }
}

fn put_all(text: &mut String, segments: &[Segment]) -> Result<(), NoMemory>
    ensures text { OnOk result (string_bytes text.new
        ≡ string_bytes text.old ++ spelling_of segments.now) }
    ensures ranged { OnOk result (All IsRanged segments.now) }
    ensures bytes { OnOk result (All HasBytes segments.now) }
{
    let Some((first, others)) = segments.split_first() else {
        return put(text, "-");
    };
    put_alone(text, first)?;
    let mut behind = next(Behind::Other, first);
    for segment in others {
        put_next(text, behind, segment)?;
        behind = next(behind, segment);
    }
    Ok(())
}

fn spelled(alloc: Global, segments: &[Segment]) -> Result<String, NoMemory>
    ensures text { IfOk result (λ text. string_bytes text ≡ spelling_of segments.now) }
    ensures ranged { OnOk result (All IsRanged segments.now) }
    ensures bytes { OnOk result (All HasBytes segments.now) }
{
    let mut text = String::new(alloc);
    put_all(&mut text, segments)?;
    Ok(text)
}

/// A path in words, such as `read_route` reads: it is read as the segments of the path. NoMemory
/// where an allocation is refused.
pub fn spell_path(alloc: Global, path: PathView<'_>) -> Result<String, NoMemory>
    ensures spelling { IfOk result (λ text. string_bytes text
        ≡ spelling_of (segments_of path.entry.bytes.now)) }
    ensures read { IfOk result (λ text. IsSpelling path.entry.bytes.now (string_bytes text)) }
{
    let segments = segments(alloc, path)?;
    spelled(alloc, segments.as_slice())
}
