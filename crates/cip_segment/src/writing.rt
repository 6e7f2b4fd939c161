//! Writing segments in their shortest forms.
ghost use Rattle.std.specs.Prelude.{◌≡◌, ◌<◌, ◌≤◌, ◌++◌, length, OnOk, IfOk, IfErr, IsTrue, ◌↔◌};
ghost use Rattle.std.specs.Prelude.{All, IsOk};
ghost use Rattle.cip_segment.specs.Spelling.{Spells};
ghost use Rattle.cip_base.specs.Fields.{pad};
ghost use Rattle.cip_segment.specs.Reading.{path_at};
ghost use Rattle.cip_segment.specs.Short.{short_number, short, IsPut, IsWritable, IsRanged};
ghost use Rattle.cip_segment.specs.Short.{IsWriteFault};

use crate::fault::PathFault;
use crate::path::Path;
use crate::segment::Segment;
use cip_base::{KeyFields, MAX_PATH, put_double, put_word};
use std::alloc::{AllocError, Global};

fn put_number(out: &mut Vec<u8>, head: u8, number: u32) -> Result<(), AllocError>
    requires { head < 128 }
    ensures { OnOk result (out.new.items ≡ out.old.items ++ short_number head number) }
{
    if number < 256 {
        out.push(head)?;
        out.push(number as u8)?;
        return Ok(());
    }
    if number < 65536 {
        out.push(head + 1)?;
        out.push(0)?;
        return put_word(out, number as u16);
    }
    out.push(head + 2)?;
    out.push(0)?;
    put_double(out, number)
}

fn put_padded(out: &mut Vec<u8>, bytes: &[u8]) -> Result<(), AllocError>
    ensures { OnOk result (out.new.items ≡ out.old.items ++ (bytes.now ++ pad (length bytes.now))) }
{
    out.extend_from_slice(bytes)?;
    if bytes.len() % 2 == 1 {
        out.push(0)?;
    }
    Ok(())
}

fn put_port(out: &mut Vec<u8>, number: u16, address: &[u8]) -> Result<(), AllocError>
    requires least { 1 ≤ length address.now }
    requires most { length address.now ≤ 16 }
    ensures { OnOk result (IsPut (Segment.Port number address.now) out.old.items out.new.items) }
{
    let low = if number < 15 { number as u8 } else { 15 };
    if address.len() == 1 {
        out.push(low)?;
        if number >= 15 {
            put_word(out, number)?;
        }
        out.extend_from_slice(address)
    } else {
        out.push(16 + low)?;
        out.push(address.len() as u8)?;
        if number >= 15 {
            put_word(out, number)?;
        }
        put_padded(out, address)
    }
}

fn put_key(out: &mut Vec<u8>, key: &KeyFields) -> Result<(), AllocError>
    ensures bytes { OnOk result (IsPut (Segment.Key key.now) out.old.items out.new.items) }
    ensures ranged { OnOk result (IsRanged (Segment.Key key.now)) }
{
    out.push(0x34)?;
    out.push(4)?;
    put_word(out, key.vendor)?;
    put_word(out, key.device_type)?;
    put_word(out, key.product)?;
    out.push(key.major)?;
    out.push(key.minor)?;
    Ok(())
}

fn put_words(out: &mut Vec<u8>, content: &[u8]) -> Result<(), AllocError>
    requires { length content.now ≤ 510 }
    ensures { OnOk result (IsPut (Segment.Words content.now) out.old.items out.new.items) }
{
    out.push(0x80)?;
    out.push((content.len() / 2) as u8)?;
    out.extend_from_slice(content)
}

fn put_symbol(out: &mut Vec<u8>, name: &[u8]) -> Result<(), AllocError>
    requires { length name.now ≤ 255 }
    ensures { OnOk result (IsPut (Segment.Symbol name.now) out.old.items out.new.items) }
{
    out.push(0x91)?;
    out.push(name.len() as u8)?;
    put_padded(out, name)
}

fn put(out: &mut Vec<u8>, segment: &Segment) -> Result<(), AllocError>
    requires { IsWritable segment.now }
    ensures bytes { OnOk result (IsPut segment.now out.old.items out.new.items) }
    ensures ranged { OnOk result (IsRanged segment.now) }
{
    match segment {
        Segment::Port(port, address) => put_port(out, port.get(), address.as_slice()),
        Segment::Class(number) => put_number(out, 0x20, u32::from(*number)),
        Segment::Instance(number) => put_number(out, 0x24, *number),
        Segment::Member(number) => put_number(out, 0x28, u32::from(*number)),
        Segment::Point(number) => put_number(out, 0x2C, *number),
        Segment::Attribute(number) => put_number(out, 0x30, u32::from(*number)),
        Segment::Key(key) => put_key(out, key),
        Segment::Words(data) => put_words(out, data.as_slice()),
        Segment::Symbol(name) => put_symbol(out, name.as_slice()),
        Segment::Inhibit(time) => {
            out.push(0x43)?;
            out.push(*time)?;
            Ok(())
        }
    }
}

/// Whether the segment can be written: simple data of whole words and at most 510 bytes, a symbol
/// of at most 255 bytes.
pub fn segment_ok(segment: &Segment) -> bool
    ensures { IsTrue result ↔ IsWritable segment.now }
{
    match segment {
        Segment::Words(data) => data.as_slice().len() <= 510 && data.as_slice().len() % 2 == 0,
        Segment::Symbol(name) => name.as_slice().len() <= 255,
        _ => true,
    }
}

fn put_all(out: &mut Vec<u8>, segments: &[Segment]) -> Result<(), AllocError>
    requires { All IsWritable segments.now }
    ensures bytes { OnOk result (out.new.items ≡ out.old.items ++ short segments.now) }
    ensures ranged { OnOk result (All IsRanged segments.now) }
{
    for segment in segments {
        put(out, segment)?;
    }
    Ok(())
}

fn short_bytes(alloc: Global, segments: &[Segment]) -> Result<Vec<u8>, AllocError>
    requires { All IsWritable segments.now }
    ensures bytes { IfOk result (λ bytes. bytes.items ≡ short segments.now) }
    ensures ranged { OnOk result (All IsRanged segments.now) }
{
    let mut bytes = Vec::new(alloc);
    put_all(&mut bytes, segments)?;
    Ok(bytes)
}

/// The path that spells the segments, each in its shortest form (Volume 1, Appendix C): numbers in
/// the fewest bits, an address of one byte without its size. TooLong where that passes 510 bytes.
/// The condition is `segment_ok` of each.
pub fn write_path(alloc: Global, segments: &[Segment]) -> Result<Path, PathFault>
    requires { All IsWritable segments.now }
    ensures ok { IfOk result (λ path. path ≡ short segments.now) }
    ensures spells { IfOk result (λ path. Spells path segments.now) }
    ensures reads { IfOk result (λ path. path_at path ≡ Ok segments.now) }
    ensures fits { IsOk result → length (short segments.now) ≤ 510 }
    ensures fault { IfErr result (IsWriteFault segments.now) }
{
    match short_bytes(alloc, segments) {
        Err(_) => Err(PathFault::NoMemory),
        Ok(bytes) => {
            if bytes.len() > MAX_PATH {
                Err(PathFault::TooLong)
            } else {
                Ok(Path::of(bytes))
            }
        }
    }
}
