//! The beginnings of texts that a message tells of.
ghost use Rattle.std.specs.Prelude.{◌≡◌, ◌≤◌, length, take};

use crate::NoHeap;
use smallvec::SmallVec;
use std::fmt;
use std::marker::Model;

/// The first 40 bytes of a text. They lie in the value itself: no call takes memory.
#[derive(Debug)]
pub struct Excerpt {
    bytes: SmallVec<u8, 40, NoHeap>,
}

// (A derive would be written, and proved, anew in each crate above.)
impl Drop for Excerpt {
    #[inline(always)]
    fn drop(self) {
        let Excerpt { bytes: _ } = self;
    }
}

impl Model for Excerpt {
    ghost use Rattle.std.specs.Prelude.{List, ℕ};

    ghost Value = { List ℕ };

    ghost view = { λ e. e.bytes.items };
}

fn front(text: &[u8]) -> &[u8]
    ensures is { result.now ≡ take 40 text.now }
    ensures few { length result.now ≤ 40 }
{
    if text.len() <= 40 {
        return text;
    }
    let (front, _) = text.split_at(40);
    front
}

impl Excerpt {
    /// The first bytes of the text, or all of them.
    pub fn of(text: &[u8]) -> Excerpt
        ensures { result ≡ take 40 text.now }
    {
        match SmallVec::from_slice(NoHeap, front(text)) {
            Ok(bytes) => Excerpt { bytes },
            Err(_) => unreachable!(),
        }
    }

    /// The bytes, at most 40.
    pub fn as_slice(&self) -> &[u8]
        ensures { result.now ≡ self.now }
    {
        self.bytes.as_slice()
    }
}

// ASCII as it is, and each other byte by its number.
impl fmt::Display for Excerpt {
    fn fmt<W: fmt::Write>(&self, f: &mut fmt::Formatter<W>) -> fmt::Result {
        for byte in self.as_slice() {
            match *byte {
                printable @ 0x20..=0x7E => write!(f, "{}", char::from(printable))?,
                other => write!(f, "\\x{other:02X}")?,
            }
        }
        Ok(())
    }
}
