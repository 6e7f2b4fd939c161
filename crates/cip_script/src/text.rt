//! Words and bytes as they stand in a script.

ghost use Rattle.std.specs.Prelude.{◌≡◌, ◌==◌, ◌≤◌, ◌*◌, ◌++◌, ◌∷◌, [], length, take, map};
ghost use Rattle.std.specs.Prelude.{IfOk, OnOk, IfSome, slice_index, option_map, if◌then◌else◌};
ghost use Rattle.hex.specs.Hex.{decode_of};
ghost use Rattle.cip_script.specs.Text.{words_of, kept_words, bytes_of, ok_bytes};

use cip_tool::digit;
use std::alloc::{AllocError, Global};

// One more word at the end, if it is not empty.
#[inline(always)]
fn push_word<'a>(word: &'a str, found: &mut Vec<&'a str>) -> Result<(), AllocError>
    ensures { OnOk result (map (λ word. word.now) found.new.items
        ≡ map (λ word. word.now) found.old.items ++ kept_words (word.now ∷ [])) }
{
    if !word.is_empty() {
        found.push(word)?;
    }
    Ok(())
}

/// The words of a line, in place of those before, whose room is kept.
pub(crate) fn words<'a>(line: &'a str, found: &mut Vec<&'a str>) -> Result<(), AllocError>
    ensures { OnOk result (map (λ word. word.now) found.new.items ≡ words_of line.now) }
{
    found.clear();
    let bytes = line.as_bytes();
    let mut start = 0;
    for (i, byte) in bytes.iter().enumerate() {
        if *byte == b' ' {
            push_word(&line[start..i], found)?;
            start = i + 1;
        }
    }
    push_word(&line[start..], found)
}

// The bytes of pairs of hexadecimal digits; false where one is no digit.
fn fill_bytes(digits: &[u8], output: &mut [u8]) -> bool
    requires { length digits.now ≡ 2 * length output.old }
    ensures { ok_bytes (decode_of digits.now) ≡ (if result then Some output.new else None) }
{
    'pairs: for i in 0..output.len() {
        let high = digit(digits[2 * i]);
        let low = digit(digits[2 * i + 1]);
        if 16 <= high || 16 <= low {
            return false;
        }
        output[i] = 16 * high + low;
    }
    true
}

/// Bytes as pairs of hexadecimal digits, or a dash for none. Only memory is an error.
pub(crate) fn bytes(alloc: Global, word: &str) -> Result<Option<Vec<u8>>, AllocError>
    ensures { IfOk result (λ found. option_map (λ v. v.items) found ≡ bytes_of word.now) }
{
    if word == "-" {
        return Ok(Some(Vec::new(alloc)));
    }
    let digits = word.as_bytes();
    if digits.is_empty() || digits.len() % 2 == 1 {
        return Ok(None);
    }
    let mut found = vec![in alloc; 0u8; digits.len() / 2]?;
    if fill_bytes(digits, found.as_mut_slice()) {
        Ok(Some(found))
    } else {
        Ok(None)
    }
}

/// The bytes of pairs of hexadecimal digits, written at the beginning of a room, and how many they
/// are; None for a dash too, and for more than have room.
pub(crate) fn bytes_into(word: &str, room: &mut [u8]) -> Option<usize>
    ensures within { IfSome result (λ count. count ≤ length room.new) }
    ensures found { IfSome result (λ count. bytes_of word.now ≡ Some (take count room.new)) }
{
    let digits = word.as_bytes();
    let count = digits.len() / 2;
    if count == 0 || digits.len() % 2 == 1 || room.len() < count {
        return None;
    }
    if fill_bytes(digits, &mut room[..count]) {
        Some(count)
    } else {
        None
    }
}

/// Whether the line begins with `#`.
pub(crate) fn is_comment(line: &str) -> bool
    ensures { result ≡ (slice_index line.now 0 == 35) }
{
    match line.as_bytes() {
        [first, ..] => *first == b'#',
        [] => false,
    }
}
