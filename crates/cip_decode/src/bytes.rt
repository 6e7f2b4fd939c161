//! Bytes as pairs of digits.
ghost use Rattle.std.specs.Prelude.{◌≤◌, length};

use cip_text::{PART, pairs_in};
use std::fmt;

// At most so many bytes as pairs.
fn write_part<W: fmt::Write>(bytes: &[u8], f: &mut fmt::Formatter<W>) -> fmt::Result
    requires { length bytes.now ≤ PART }
{
    let mut room = [0u8; 64];
    f.write_str(pairs_in(bytes, &mut room[..2 * bytes.len()]))
}

/// Bytes as upper-case pairs, a dash for none.
#[derive(Clone, Copy)]
pub struct Pairs<'a>(pub &'a [u8]);

impl fmt::Display for Pairs<'_> {
    fn fmt<W: fmt::Write>(&self, f: &mut fmt::Formatter<W>) -> fmt::Result {
        if self.0.is_empty() {
            return f.write_str("-");
        }
        let mut rest = self.0;
        'parts: while rest.len() > PART {
            let (part, behind) = rest.split_at(PART);
            write_part(part, f)?;
            rest = behind;
        }
        write_part(rest, f)
    }
}

/// The most bytes of data that a decoded message tells.
const MOST: usize = 64;

/// The first bytes, or all of them.
pub(crate) fn front(bytes: &[u8]) -> &[u8] {
    if bytes.len() <= MOST {
        return bytes;
    }
    let (front, _) = bytes.split_at(MOST);
    front
}

/// Data behind what was decoded: its first bytes, and how many there are where not all are told.
#[derive(Clone, Copy)]
pub(crate) struct Rest<'a>(pub &'a [u8]);

impl fmt::Display for Rest<'_> {
    fn fmt<W: fmt::Write>(&self, f: &mut fmt::Formatter<W>) -> fmt::Result {
        let length = self.0.len();
        if length == 0 {
            return Ok(());
        }
        if length <= MOST {
            return write!(f, "; data {}", Pairs(self.0));
        }
        write!(f, "; data {}.. ({length} bytes)", Pairs(front(self.0)))
    }
}
