//! The words of a line, and the marks round the call that it asks for.
//!
//! Numbers are decimal, or hexadecimal after `0x`. Bytes are pairs of hexadecimal digits, `-` for
//! none; `_` between them means nothing, `XX*N` is the byte XX so many times, and a plus and a
//! number after the pairs stand for so many zeros.
use cip_base::{Address, Bytes, PortNumber, Timing, Triad};
use cip_segment::{Path, read_path};
use std::alloc::Global;
use std::str::SplitAsciiWhitespace;

/// The words of a line that were not read yet. Each call reads the next one, or the next ones; None
/// where they are missing or not what is asked for.
#[derive(Drop)]
pub struct Words<'a> {
    // where the marks are written, if there are any
    marks: Option<&'a HostRuntime>,
    rest: SplitAsciiWhitespace<'a>,
    pub alloc: Global,
    /// Whether the call was refused memory.
    pub is_refused: bool,
    /// Of a call that gave nothing: whether its argument is, or came back, as it was.
    pub same: Option<bool>,
}

impl<'a> Words<'a> {
    /// The words of a line, between its spaces. The call that it asks for stands between marks on
    /// the standard output, where they are given one.
    pub fn of(alloc: Global, line: &'a str, marks: Option<&'a HostRuntime>) -> Words<'a> {
        Words {
            marks,
            rest: line.split_ascii_whitespace(),
            alloc,
            is_refused: false,
            same: None,
        }
    }

    /// The call comes.
    pub fn open(&self) {
        if let Some(rt) = self.marks {
            let _ = print!(rt; ">");
        }
    }

    /// The call was made, and was refused memory or not.
    pub fn close(&mut self, is_refused: bool) {
        if let Some(rt) = self.marks {
            let _ = print!(rt; "<");
        }
        self.is_refused = is_refused;
    }

    /// What the call gave, which fails only where it is refused memory.
    pub fn had<T: Drop, F: Drop>(&mut self, given: Result<T, F>) -> Option<T> {
        self.close(given.is_err());
        given.ok()
    }

    pub fn word(&mut self) -> Option<&'a str> {
        self.rest.next()
    }

    pub fn u64(&mut self) -> Option<u64> {
        number(self.word()?)
    }

    pub fn u32(&mut self) -> Option<u32> {
        u32::try_from(self.u64()?).ok()
    }

    pub fn u16(&mut self) -> Option<u16> {
        u16::try_from(self.u64()?).ok()
    }

    pub fn u8(&mut self) -> Option<u8> {
        u8::try_from(self.u64()?).ok()
    }

    /// A number, or a dash for none.
    pub fn u16_or_dash(&mut self) -> Option<Option<u16>> {
        match self.word()? {
            "-" => Some(None),
            word => Some(Some(u16::try_from(number(word)?).ok()?)),
        }
    }

    pub fn port(&mut self) -> Option<PortNumber> {
        PortNumber::new(self.u16()?)
    }

    pub fn timing(&mut self) -> Option<Timing> {
        Some(Timing {
            tick: self.u8()?,
            ticks: self.u8()?,
        })
    }

    pub fn triad(&mut self) -> Option<Triad> {
        Some(Triad {
            serial: self.u16()?,
            vendor: self.u16()?,
            originator: self.u32()?,
        })
    }

    pub fn bytes(&mut self) -> Option<Vec<u8>> {
        let word = self.word()?;
        match word.split_once('+') {
            Some((pairs, zeros)) => {
                let zeros = usize::from_str_radix(zeros, 10).ok()?;
                followed(decoded(self.alloc, pairs)?, zeros)
            }
            None => decoded(self.alloc, word),
        }
    }

    pub fn list(&mut self) -> Option<Bytes> {
        Some(Bytes::of(self.bytes()?))
    }

    pub fn path(&mut self) -> Option<Path> {
        let bytes = self.bytes()?;
        read_path(self.alloc, bytes.as_slice()).ok()
    }

    pub fn address(&mut self) -> Option<Address> {
        let bytes = self.bytes()?;
        Address::read(bytes.as_slice()).ok()
    }
}

fn number(word: &str) -> Option<u64> {
    match word.strip_prefix("0x") {
        Some(digits) => u64::from_str_radix(digits, 16).ok(),
        None => u64::from_str_radix(word, 10).ok(),
    }
}

// A byte so many times.
fn repeated(alloc: Global, byte: &str, times: &str) -> Option<Vec<u8>> {
    let byte = u8::from_str_radix(byte, 16).ok()?;
    let times = usize::from_str_radix(times, 10).ok()?;
    vec![in alloc; byte; times].ok()
}

// The bytes that pairs of hexadecimal digits spell, or one so many times; a dash none.
fn decoded(alloc: Global, word: &str) -> Option<Vec<u8>> {
    if word == "-" {
        return Some(Vec::new(alloc));
    }
    if let Some((byte, times)) = word.split_once('*') {
        return repeated(alloc, byte, times);
    }
    let pairs = word.replace(alloc, "_", "").ok()?;
    hex::decode(alloc, pairs.as_str()).ok()
}

// The bytes, and so many zeros behind them.
fn followed(mut bytes: Vec<u8>, zeros: usize) -> Option<Vec<u8>> {
    for _ in 0..zeros {
        bytes.push(0).ok()?;
    }
    Some(bytes)
}
