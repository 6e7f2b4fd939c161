//! What is wrong with bytes in hexadecimal, and where.

use crate::shown::Shown;
use cip_segment::{PathFault, view_path};
use std::fmt;

/// Why a word is no pairs of hexadecimal digits.
#[derive(Clone, Copy, Debug, PartialEq, Eq)]
pub enum HexFault {
    /// It begins with 0x.
    Marked,
    /// The digit of this number, from 1, is none.
    Digit(usize, char),
    /// So many digits are no pairs.
    Odd(usize),
}

impl fmt::Display for HexFault {
    fn fmt<W: fmt::Write>(&self, f: &mut fmt::Formatter<W>) -> fmt::Result {
        match self {
            HexFault::Marked => write!(f, "leave out 0x"),
            HexFault::Digit(place, found) => {
                let mut room = [0; 4];
                let found = Shown(found.encode_utf8(&mut room));
                write!(
                    f,
                    "digit {place} is {found}; allowed: 0 to 9, A to F, a to f"
                )
            }
            HexFault::Odd(count) => write!(f, "{count} digits, an odd number"),
        }
    }
}

/// The first thing that is wrong with a word as pairs of hexadecimal digits: 0x in front, a digit
/// that is none, or an odd number of them. None where nothing is.
pub fn hex_fault(word: &str) -> Option<HexFault> {
    if word.starts_with("0x") {
        return Some(HexFault::Marked);
    }
    for (i, c) in word.chars().enumerate() {
        if !c.is_ascii_hexdigit() {
            return Some(HexFault::Digit(i.saturating_add(1), c));
        }
    }
    if word.len() % 2 == 1 {
        return Some(HexFault::Odd(word.len()));
    }
    None
}

/// The byte, numbered from 1, at which bytes that are no path stop to be one; behind the last where
/// bytes are missing.
pub fn fault_place(bytes: &[u8]) -> usize {
    for i in 0..bytes.len() {
        match view_path(&bytes[..i + 1]) {
            Err(PathFault::Reserved(_)) | Err(PathFault::BadPad) => return i + 1,
            _ => {}
        }
    }
    bytes.len().saturating_add(1)
}
