//! Words, numbers and bytes as they stand in a line.
ghost use Rattle.std.specs.Prelude.{◌≡◌, ◌^◌, ◌↔◌, [], map, IfOk, IfSome, IsSome, option_map};
ghost use Rattle.std.specs.Prelude.{Some, None, true, false, MatchOption};
ghost use Rattle.std.specs.Str.{IsAscii};
ghost use Rattle.std.specs.List.{list_all, slice_split};
ghost use Rattle.std.specs.Char.{is_ascii_digit};
ghost use Rattle.cip_words.specs.Shown.{words_of, is_dot, halves_of};
ghost use Rattle.cip_words.specs.Shown.{number_of, below, bytes_of};

use hex::FromHexError;
use std::alloc::{AllocError, Global};

/// The line as a text, if it is ASCII.
pub fn ascii(line: &[u8]) -> Option<&str>
    ensures text { IfSome result (λ text. text.now ≡ line.now) }
    ensures exact { IsSome result ↔ IsAscii line.now }
{
    if line.is_ascii() {
        return Some(unsafe { std::str::from_utf8_unchecked(line) });
    }
    None
}

/// The words of a line: what stands between its spaces, empty words too.
pub fn words(alloc: Global, line: &str) -> Result<Vec<&str>, AllocError>
    ensures { IfOk result (λ v. map (λ word. word.now) v.items ≡ words_of line.now) }
{
    line.split(' ').collect(alloc)
}

// The most words of a line that shows a part of an entry, and one more.
const ROOM: usize = 10;

// Room for the words of a line. Where it is refused, each word asks for its own.
fn room<'a>(alloc: Global) -> Vec<&'a str>
    ensures { result.items ≡ [] }
{
    match Vec::with_capacity(alloc, ROOM) {
        Ok(parts) => parts,
        Err(_) => Vec::new(alloc),
    }
}

/// The words of a line that is ASCII, as `words` gives them, found byte by byte. AllocError where
/// an allocation is refused.
pub fn ascii_words(alloc: Global, line: &str) -> Result<Vec<&str>, AllocError>
    requires { IsAscii line.now }
    ensures { IfOk result (λ v. map (λ word. word.now) v.items ≡ words_of line.now) }
{
    let mut parts = room(alloc);
    let mut start = 0;
    'bytes: for i in 0..line.len() {
        if line.as_bytes()[i] != b' ' {
            continue;
        }
        parts.push(&line[start..i])?;
        start = i + 1;
    }
    parts.push(&line[start..])?;
    Ok(parts)
}

/// The parts of a word between its dots.
pub fn dotted(alloc: Global, word: &str) -> Result<Vec<&str>, AllocError>
    ensures { IfOk result (λ v. map (λ part. part.now) v.items ≡ slice_split is_dot word.now) }
{
    word.split('.').collect(alloc)
}

/// The two parts of a word around its only dot.
pub fn halves(word: &str) -> Option<(&str, &str)>
    ensures { MatchOption result (halves_of word.now ≡ None)
        (λ parts. halves_of word.now ≡ Some (parts.0.now, parts.1.now)) }
{
    let Some((first, rest)) = word.split_once('.') else {
        return None;
    };
    match rest.split_once('.') {
        Some(_) => None,
        None => Some((first, rest)),
    }
}

// Whether each byte is a decimal digit.
fn are_digits(word: &str) -> bool
    ensures { result ≡ list_all is_ascii_digit word.now }
{
    word.as_bytes().iter().all(|byte| byte.is_ascii_digit())
}

/// The number that decimal digits write, below 2^64.
pub fn number(word: &str) -> Option<u64>
    ensures { result ≡ below (2 ^ 64) (number_of word.now) }
{
    if !are_digits(word) {
        return None;
    }
    match word.parse::<u64>() {
        Ok(number) => Some(number),
        Err(_) => None,
    }
}

/// The number that decimal digits write, below 2^16.
pub fn number_u16(word: &str) -> Option<u16>
    ensures { result ≡ below (2 ^ 16) (number_of word.now) }
{
    match number(word) {
        Some(number) => u16::try_from(number).ok(),
        None => None,
    }
}

/// The number that decimal digits write, below 2^32.
pub fn number_u32(word: &str) -> Option<u32>
    ensures { result ≡ below (2 ^ 32) (number_of word.now) }
{
    match number(word) {
        Some(number) => u32::try_from(number).ok(),
        None => None,
    }
}

/// Bytes as pairs of hexadecimal digits, or a dash for none. Only memory is an error.
pub fn bytes(alloc: Global, word: &str) -> Result<Option<Vec<u8>>, AllocError>
    ensures { IfOk result (λ found. option_map (λ v. v.items) found ≡ bytes_of word.now) }
{
    if word == "-" {
        return Ok(Some(Vec::new(alloc)));
    }
    if word.is_empty() {
        return Ok(None);
    }
    match hex::decode(alloc, word) {
        Ok(bytes) => Ok(Some(bytes)),
        Err(FromHexError::OutOfMemory) => Err(AllocError),
        Err(FromHexError::InvalidHexCharacter { .. }) => Ok(None),
        Err(FromHexError::OddLength) => Ok(None),
        Err(FromHexError::InvalidStringLength) => Ok(None),
    }
}
