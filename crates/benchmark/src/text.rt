//! Text that is made by templates.

use crate::fault::Fault;
use crate::random::Random;
use std::alloc::Global;

static DIGITS: [u8; 16] = *b"0123456789ABCDEF";

/// A text, in room that is kept when it begins anew.
#[derive(Drop)]
pub struct Text {
    room: Vec<u8>,
    // how many bytes of the room are the text's
    len: usize,
    // there was no room for a part
    is_cut: bool,
}

impl Text {
    /// No text, with room for so many bytes. NoMemory where an allocation is refused.
    pub fn new(alloc: Global, room: usize) -> Result<Text, Fault> {
        Ok(Text {
            room: Vec::from_elem(alloc, 0, room)?,
            len: 0,
            is_cut: false,
        })
    }

    /// No text again.
    pub fn clear(&mut self) {
        self.len = 0;
        self.is_cut = false;
    }

    /// How many bytes it has.
    pub fn len(&self) -> usize {
        self.len
    }

    /// The text. Room where a part of it had none.
    pub fn as_slice(&self) -> Result<&[u8], Fault> {
        match self.room.as_slice().get(..self.len) {
            Some(text) if !self.is_cut => Ok(text),
            _ => Err(Fault::Room),
        }
    }

    #[inline(always)]
    fn byte(&mut self, byte: u8) {
        match self.room.as_mut_slice().get_mut(self.len) {
            Some(place) => {
                *place = byte;
                self.len = self.len.wrapping_add(1);
            }
            None => self.is_cut = true,
        }
    }

    // The low byte of a number, as two hexadecimal digits.
    #[inline(always)]
    fn pair(&mut self, value: u64) {
        self.byte(DIGITS[(value / 16 % 16) as usize]);
        self.byte(DIGITS[(value % 16) as usize]);
    }

    // A number, in decimal digits.
    fn number(&mut self, value: u64) {
        let mut digits = [0u8; 20];
        let mut rest = value;
        let mut count: usize = 0;
        for place in 0..20 {
            digits[place] = DIGITS[(rest % 10) as usize];
            rest /= 10;
            count = place.wrapping_add(1);
            if rest == 0 {
                break;
            }
        }
        for place in (0..count).rev() {
            if let Some(digit) = digits.get(place) {
                self.byte(*digit);
            }
        }
    }

    /// A template, with a value in the place of each mark, in turn: `%` is a number, `$` two
    /// hexadecimal digits, `@` a character. A value that is missing is 0.
    pub fn put(&mut self, template: &[u8], values: &[u64]) {
        let mut values = values.iter();
        for byte in template {
            match *byte {
                b'%' => self.number(next_of(values.next())),
                b'$' => self.pair(next_of(values.next())),
                b'@' => self.byte((next_of(values.next()) % 128) as u8),
                other => self.byte(other),
            }
        }
    }

    /// So many bytes of any value, as hexadecimal digits.
    pub fn put_bytes(&mut self, random: &mut Random, count: u64) {
        let mut word = 0;
        for place in 0..count {
            if place % 8 == 0 {
                word = random.word();
            }
            self.pair(word);
            word /= 256;
        }
    }
}

fn next_of(value: Option<&u64>) -> u64 {
    match value {
        Some(value) => *value,
        None => 0,
    }
}
