//! Text behind text: bytes, numbers and hexadecimal pairs, each written once into its place.
ghost use Rattle.std.specs.Prelude.{◌≡◌, ◌++◌, OnOk, decimal};
ghost use Rattle.hex.specs.Hex.{encode_upper};
ghost use Rattle.cip_transcript.specs.Show.{bytes_text, optional_text};

use cip_base::NoMemory;
use cip_text::fill_pairs;
use itoa::Buffer;

/// Puts bytes behind a text. NoMemory where an allocation is refused.
pub fn put(text: &mut Vec<u8>, bytes: &[u8]) -> Result<(), NoMemory>
    ensures { OnOk result (text.new.items ≡ text.old.items ++ bytes.now) }
{
    text.extend_from_slice(bytes)?;
    Ok(())
}

/// A number in decimal digits.
pub(crate) fn put_number(text: &mut Vec<u8>, number: u64) -> Result<(), NoMemory>
    ensures { OnOk result (text.new.items ≡ text.old.items ++ decimal number) }
{
    if number < 10 {
        text.push(b'0' + number as u8)?;
        return Ok(());
    }
    let mut buffer = Buffer::new();
    put(text, buffer.format(number).as_bytes())
}

// Bytes as pairs of digits, in upper case, written into room that is made for all of them.
fn put_pairs(text: &mut Vec<u8>, bytes: &[u8]) -> Result<(), NoMemory>
    ensures { OnOk result (text.new.items ≡ text.old.items ++ encode_upper bytes.now) }
{
    let start = text.len();
    let Some(end) = start.checked_add(2 * bytes.len()) else {
        return Err(NoMemory);
    };
    text.resize(end, 0)?;
    fill_pairs(bytes, text.slice_mut(start..));
    Ok(())
}

/// Bytes as upper-case pairs, a dash for none.
pub(crate) fn put_bytes(text: &mut Vec<u8>, bytes: &[u8]) -> Result<(), NoMemory>
    ensures { OnOk result (text.new.items ≡ text.old.items ++ bytes_text bytes.now) }
{
    match bytes {
        [] => put(text, b"-"),
        _ => put_pairs(text, bytes),
    }
}

/// A number, a dash for none.
pub(crate) fn put_optional(text: &mut Vec<u8>, number: Option<u64>) -> Result<(), NoMemory>
    ensures { OnOk result (text.new.items ≡ text.old.items ++ optional_text number) }
{
    match number {
        Some(number) => put_number(text, number),
        None => put(text, b"-"),
    }
}
