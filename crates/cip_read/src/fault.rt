//! Why a line is none of a transcript.
ghost use Rattle.std.specs.Prelude.{◌≡◌};
ghost use Rattle.cip_read.specs.declared.fault.LineFault.TheVariants.{NoMemory as NoLineMemory};
ghost use Rattle.cip_read.specs.declared.fault.ReadFault.TheVariants.{NoMemory as NoReadMemory};

use cip_base::{Excerpt, NoMemory};
use std::alloc::AllocError;
use std::fmt;
use thiserror::Error;

/// What is expected in the place of a word.
#[derive(Clone, Copy, Error)]
pub enum Expected {
    #[error("a number of at most {0}")]
    Number(u64),
    #[error("a number from 1 to {0}")]
    Positive(u64),
    #[error("pairs of hexadecimal digits, or - for none")]
    Bytes,
    #[error("a link address, 1 to 16 pairs of hexadecimal digits")]
    Address,
    #[error("a module of the topology")]
    Module,
    #[error("a frame's name, two numbers and a dot between them")]
    Frame,
    #[error("a number, or - for none")]
    Optional,
    /// One of these words.
    #[error("{0}")]
    Words(&'static str),
    /// The line's words, of which there are too few or too many.
    #[error("a line {0}")]
    Usage(&'static str),
    #[error("entry {0}")]
    Entry(usize),
    #[error("output {0} of the entry")]
    Output(usize),
}

impl fmt::Debug for Expected {
    fn fmt<W: fmt::Write>(&self, f: &mut fmt::Formatter<W>) -> fmt::Result {
        fmt::Display::fmt(self, f)
    }
}

/// What is wrong with a line: the place of the first faulty word, from 0, and what is expected
/// there; or a byte that is not ASCII.
#[derive(Clone, Copy)]
pub enum LineFault {
    Word(usize, Expected),
    NotText,
    NoMemory,
}

impl From<AllocError> for LineFault {
    ghost from_gives = { λ _ fault. fault ≡ NoLineMemory };

    fn from(_refused: AllocError) -> LineFault {
        LineFault::NoMemory
    }
}

/// Why a transcript is refused: its first faulty line, from 1, and there the word, from 1.
#[derive(Drop, Error)]
pub enum ReadFault {
    #[error("line {line}, word {word}: {found}: expected {expected}")]
    Word {
        line: usize,
        word: usize,
        found: Excerpt,
        expected: Expected,
    },
    #[error("line {line}, word {word}: nothing: expected {expected}")]
    Missing {
        line: usize,
        word: usize,
        expected: Expected,
    },
    #[error("line {line}: byte {place} is {byte:02X}: expected 00 to 7F")]
    NotText {
        line: usize,
        place: usize,
        byte: u8,
    },
    #[error("out of memory")]
    NoMemory,
}

impl fmt::Debug for ReadFault {
    fn fmt<W: fmt::Write>(&self, f: &mut fmt::Formatter<W>) -> fmt::Result {
        fmt::Display::fmt(self, f)
    }
}

impl From<NoMemory> for ReadFault {
    ghost from_gives = { λ _ fault. fault ≡ NoReadMemory };

    fn from(_refused: NoMemory) -> ReadFault {
        ReadFault::NoMemory
    }
}

impl From<AllocError> for ReadFault {
    ghost from_gives = { λ _ fault. fault ≡ NoReadMemory };

    fn from(_refused: AllocError) -> ReadFault {
        ReadFault::NoMemory
    }
}
