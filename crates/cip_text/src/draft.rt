//! A text in the making.
ghost use Rattle.std.specs.Prelude.{◌≡◌, ◌+◌, ◌≤◌, ◌++◌, [], length, take, OnOk, OnErr, IfOk};
ghost use Rattle.std.specs.Prelude.{◌*◌, ◌==◌, string_bytes, decimal};
ghost use Rattle.std.specs.Fmt.{AppendsText};
ghost use Rattle.std.specs.Str.{IsCharBoundary};
ghost use Rattle.hex.specs.Hex.{encode_upper};
ghost use Rattle.cip_text.specs.Texts.{pairs_text};

use crate::pairs::fill_pairs;
use cip_base::NoMemory;
use itoa::Buffer;
use std::alloc::Global;
use std::fmt::{self, Write};
use std::marker::Model;

/// A text that grows at its end. It has room behind it, so that most of what is put there is
/// written without a call, and takes no memory.
#[derive(Drop)]
pub struct Draft {
    // the text, and behind it what stood there before, or zeros
    room: Vec<u8>,
    end: usize,
}

impl Model for Draft {
    ghost use Rattle.std.specs.Prelude.{List, ℕ, ◌≤◌, length, take, IsUtf8};

    ghost Value = { List ℕ };

    ghost view = { λ d. take d.end d.room.items };

    ghost invariant = { λ d. (d.end ≤ length d.room.items)
        × ∥ IsUtf8 (take d.end d.room.items) ∥₁ };
}

// How many bytes more than needed a room gets.
const MORE: usize = 4096;

// Room for so many bytes behind the first ones, which stay.
#[inline(never)]
fn widen(room: &mut Vec<u8>, end: usize, count: usize) -> Result<(), NoMemory>
    requires { end ≤ length room.old.items }
    ensures room { OnOk result (end + count ≤ length room.new.items) }
    ensures text { take end room.new.items ≡ take end room.old.items }
    ensures least { end ≤ length room.new.items }
{
    let Some(least) = end.checked_add(count) else {
        return Err(NoMemory);
    };
    room.resize(least.saturating_add(MORE), 0)?;
    Ok(())
}

// Writes bytes behind the first ones, in more room where there is too little: their new end.
#[inline(always)]
fn append(room: &mut Vec<u8>, end: usize, part: &[u8]) -> Result<usize, NoMemory>
    requires { end ≤ length room.old.items }
    ensures fits { IfOk result (λ behind. behind ≤ length room.new.items) }
    ensures text { IfOk result (λ behind.
        take behind room.new.items ≡ take end room.old.items ++ part.now) }
    ensures least { OnErr result (end ≤ length room.new.items) }
    ensures left { OnErr result (take end room.new.items ≡ take end room.old.items) }
{
    if room.len() - end < part.len() {
        widen(room, end, part.len())?;
    }
    let behind = end + part.len();
    room.slice_mut(end..behind).copy_from_slice(part);
    Ok(behind)
}

// The same with bytes as pairs of digits.
fn append_pairs(room: &mut Vec<u8>, end: usize, bytes: &[u8]) -> Result<usize, NoMemory>
    requires { end ≤ length room.old.items }
    ensures fits { IfOk result (λ behind. behind ≤ length room.new.items) }
    ensures text { IfOk result (λ behind.
        take behind room.new.items ≡ take end room.old.items ++ encode_upper bytes.now) }
    ensures least { OnErr result (end ≤ length room.new.items) }
    ensures left { OnErr result (take end room.new.items ≡ take end room.old.items) }
{
    let count = 2 * bytes.len();
    if room.len() - end < count {
        widen(room, end, count)?;
    }
    let behind = end + count;
    fill_pairs(bytes, room.slice_mut(end..behind));
    Ok(behind)
}

impl Draft {
    /// An empty text. It takes no memory yet.
    pub fn new(alloc: Global) -> Draft
        ensures { result ≡ [] }
    {
        Draft {
            room: Vec::new(alloc),
            end: 0,
        }
    }

    /// What its memory comes from.
    pub fn allocator(&self) -> Global {
        *self.room.allocator()
    }

    /// How many bytes the text has.
    pub fn len(&self) -> usize
        ensures { result ≡ length self.now }
    {
        self.end
    }

    /// Whether it has none.
    pub fn is_empty(&self) -> bool
        ensures { result ≡ (length self.now == 0) }
    {
        self.end == 0
    }

    /// The text.
    pub fn as_str(&self) -> &str
        ensures { result.now ≡ self.now }
    {
        unsafe { std::str::from_utf8_unchecked(&self.room.as_slice()[..self.end]) }
    }

    /// The text begins anew, in the room that it has.
    pub fn clear(&mut self)
        ensures { self.new ≡ [] }
    {
        self.end = 0;
    }

    // What was put behind the first bytes goes again.
    fn undo(&mut self, end: usize)
        ensures { IsCharBoundary self.old end → self.new ≡ take end self.old }
    {
        if self.as_str().is_char_boundary(end) {
            self.end = end;
        }
    }

    /// Puts what a value shows, as `write!` does. NoMemory where an allocation is refused, or where
    /// the value gives up: then what was put of it is taken off again, which no clause says.
    pub fn write_fmt<D: fmt::Display + Drop>(&mut self, value: D) -> Result<(), NoMemory>
        ensures { OnOk result (AppendsText self.old self.new (D.output value)) }
    {
        let end = self.end;
        match self.write(value) {
            Ok(()) => Ok(()),
            Err(_) => {
                self.undo(end);
                Err(NoMemory)
            }
        }
    }

    /// Puts a text behind it. NoMemory where an allocation is refused: then it stays as it was.
    #[inline(always)]
    pub fn put(&mut self, part: &str) -> Result<(), NoMemory>
        ensures ok { OnOk result (self.new ≡ self.old ++ part.now) }
        ensures err { OnErr result (self.new ≡ self.old) }
    {
        self.end = append(&mut self.room, self.end, part.as_bytes())?;
        Ok(())
    }

    /// Puts a number in decimal digits. NoMemory where an allocation is refused.
    pub fn put_number(&mut self, number: u64) -> Result<(), NoMemory>
        ensures { OnOk result (self.new ≡ self.old ++ decimal number) }
    {
        let mut buffer = Buffer::new();
        self.put(buffer.format(number))
    }

    /// Puts a number in decimal digits behind what stands before it. NoMemory where an allocation
    /// is refused.
    #[inline(always)]
    pub fn put_count(&mut self, before: &str, number: u64) -> Result<(), NoMemory>
        ensures { OnOk result (self.new ≡ self.old ++ before.now ++ decimal number) }
    {
        self.put(before)?;
        self.put_number(number)
    }

    // Puts bytes, of which there are some, as pairs of digits.
    fn put_some(&mut self, bytes: &[u8]) -> Result<(), NoMemory>
        ensures { OnOk result (self.new ≡ self.old ++ encode_upper bytes.now) }
    {
        self.end = append_pairs(&mut self.room, self.end, bytes)?;
        Ok(())
    }

    /// Puts bytes as upper-case pairs, a dash for none. NoMemory where an allocation is refused.
    pub fn put_pairs(&mut self, bytes: &[u8]) -> Result<(), NoMemory>
        ensures { OnOk result (self.new ≡ self.old ++ pairs_text bytes.now) }
    {
        match bytes {
            [] => self.put("-"),
            _ => self.put_some(bytes),
        }
    }

    /// A copy as a string. NoMemory where an allocation is refused.
    pub fn copied(&self) -> Result<String, NoMemory>
        ensures { IfOk result (λ copy. string_bytes copy ≡ self.now) }
    {
        Ok(String::from_str(self.allocator(), self.as_str())?)
    }

    /// The text as a string; its room goes with it.
    pub fn into_string(self) -> String
        ensures { string_bytes result ≡ self }
    {
        let Draft { mut room, end } = self;
        room.truncate(end);
        unsafe { String::from_utf8_unchecked(room) }
    }
}

impl fmt::Write for Draft {
    ghost write_str_gives = { λ s bytes t. t ≡ s ++ bytes };

    #[inline(always)]
    fn write_str(&mut self, part: &str) -> fmt::Result {
        match self.put(part) {
            Ok(()) => Ok(()),
            Err(_) => Err(fmt::Error),
        }
    }
}
