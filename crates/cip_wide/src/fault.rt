//! Why a wide script is none, or does not come out as it expects.

use cip_base::{Excerpt, NoMemory};
use cip_outcomes::{Near, Refusal, Unmet, excerpt, nearest};
use cip_script::{Explained, Frames};
use cip_tool::{AnswerFault, HexFault};
use cip_world::FrameName;
use std::alloc::{AllocError, AllocFailed, Global};
use std::fmt;
use thiserror::Error;

/// Why a word is none that may stand there.
#[derive(Drop, Error)]
pub enum WordFault {
    /// The modules that there are.
    #[error("no module of the topology; allowed: {0}{1}")]
    NoModule(String, Near),
    /// The links that there are.
    #[error("no link of the topology; allowed: {0}{1}")]
    NoLink(String, Near),
    #[error("no module with a port on the link")]
    NotThere,
    /// The line since which it is down.
    #[error("down since line {0}")]
    IsDown(usize),
    /// What is down.
    #[error("not down; down: {0}")]
    NotDown(String),
    #[error("no op of the module that was named before{0}")]
    NoOp(Near),
    #[error("no op; allowed: the name of one, or MODULE.NUMBER{0}")]
    NoOpWord(Near),
    #[error("a name for which the module has no number left")]
    Spent,
    #[error("no number from {0} to {1}; allowed: decimal digits, or 0x and hexadecimal digits")]
    NoNumber(u32, u32),
    #[error("no status; allowed: two hexadecimal digits, and / and four more, as 01/0109")]
    NoStatus,
    #[error("no bytes: {0}")]
    NoBytes(HexFault),
    #[error("no reason; allowed: OpUsed, NotOpen, WrongSize, ReservedService, NoInstance{0}")]
    NoReason(Near),
    #[error("no reason to drop a frame; allowed: Malformed, Late, UnknownId, WrongSize{0}")]
    NoDrop(Near),
    #[error("nothing to expect; allowed: done, refused, arrived, consumed, repeated, assembly, \
        attribute, open, closed, expired, dropped, chain, quiet{0}")]
    NoKind(Near),
}

impl fmt::Debug for WordFault {
    fn fmt<W: fmt::Write>(&self, f: &mut fmt::Formatter<W>) -> fmt::Result {
        fmt::Display::fmt(self, f)
    }
}

/// What is wrong with a line of a wide script.
#[derive(Drop, Error)]
pub enum LineFault {
    /// A line of the script's own words is faulty.
    #[error("{0}")]
    Script(Explained),
    /// It names no module; the modules that there are, and the nearest.
    #[error("{0}; allowed: {1}{2}")]
    NoModule(Explained, String, Near),
    /// It names no frame that waits; the frames that wait.
    #[error("{}; waiting: {}", .0, Frames(.1.as_slice()))]
    NoFrame(Explained, Vec<FrameName>),
    #[error("unknown word: {0}; allowed: send, open, large, close, enter, set, produce, tick, \
        deliver, lose, run, tables, trail, chain, cut, pass, down, up, tickall, repeat, expect{1}")]
    UnknownWord(Excerpt, Near),
    #[error("{word}: wrong number of words: {found} behind it; needed: {needed}")]
    Count {
        word: &'static str,
        found: usize,
        needed: &'static str,
    },
    #[error("{word}: {field}: {found} is {why}")]
    Word {
        word: Excerpt,
        field: &'static str,
        found: Excerpt,
        why: WordFault,
    },
    /// A path in words that is none.
    #[error("{0}: PATH: {1}")]
    Path(Excerpt, AnswerFault),
    #[error("}} closes no repeat")]
    NotOpened,
    #[error("repeat: no }} closes it")]
    NotClosed,
    #[error("repeat: more than 16 stand in one another")]
    TooDeep,
    #[error("more than 1,000,000 lines are played")]
    TooMany,
    #[error("the script that comes out has more than 1,048,576 bytes")]
    TooLong,
    /// A command was refused, and no line expects it.
    #[error("{0}")]
    Refused(Refusal),
    /// What was expected did not come.
    #[error("expect: {0}")]
    Unmet(Unmet),
}

impl fmt::Debug for LineFault {
    fn fmt<W: fmt::Write>(&self, f: &mut fmt::Formatter<W>) -> fmt::Result {
        fmt::Display::fmt(self, f)
    }
}

/// Why there is no script: a line, from 1, and what is wrong with it; or an allocation was refused.
#[derive(Drop)]
pub enum WideFault {
    Line(usize, LineFault),
    NoMemory,
}

impl From<AllocError> for WideFault {
    fn from(_refused: AllocError) -> WideFault {
        WideFault::NoMemory
    }
}

impl<T: Drop> From<AllocFailed<T>> for WideFault {
    fn from(_refused: AllocFailed<T>) -> WideFault {
        WideFault::NoMemory
    }
}

impl From<NoMemory> for WideFault {
    fn from(_refused: NoMemory) -> WideFault {
        WideFault::NoMemory
    }
}

/// What is wrong with a line, behind a pointer, so that it is handed up as one.
pub(crate) struct Wrong {
    // None once it was handed out
    fault: Option<Box<LineFault>>,
}

// (A derive would take the fault apart in each function that hands it up.)
impl Drop for Wrong {
    fn drop(self) {
        let Wrong { fault: _ } = self;
    }
}

/// Why a line gave nothing.
#[derive(Drop)]
pub(crate) enum LineError {
    Fault(Wrong),
    /// The script that comes out would be too long.
    TooLong,
    NoMemory,
}

impl From<AllocError> for LineError {
    fn from(_refused: AllocError) -> LineError {
        LineError::NoMemory
    }
}

impl From<NoMemory> for LineError {
    fn from(_refused: NoMemory) -> LineError {
        LineError::NoMemory
    }
}

impl LineError {
    /// Of this fault.
    pub(crate) fn of(alloc: Global, fault: LineFault) -> LineError {
        match Box::new(alloc, fault).ok() {
            None => LineError::NoMemory,
            fault => LineError::Fault(Wrong { fault }),
        }
    }

    /// At the line of this number.
    pub(crate) fn at(self, line: usize) -> WideFault {
        match self {
            LineError::Fault(mut wrong) => match wrong.fault.take() {
                Some(fault) => WideFault::Line(line, Box::into_inner(fault)),
                None => WideFault::NoMemory,
            },
            LineError::TooLong => WideFault::Line(line, LineFault::TooLong),
            LineError::NoMemory => WideFault::NoMemory,
        }
    }
}

static WORDS: [&str; 21] = [
    "send", "open", "large", "close", "enter", "set", "produce", "tick", "deliver", "lose", "run",
    "tables", "trail", "chain", "cut", "pass", "down", "up", "tickall", "repeat", "expect",
];

/// The first word of a line is none that there is.
pub(crate) fn unknown_word(alloc: Global, word: &str) -> LineError {
    match nearest(alloc, word, &WORDS) {
        Ok(near) => LineError::of(alloc, LineFault::UnknownWord(excerpt(word), near)),
        Err(_) => LineError::NoMemory,
    }
}

/// What was expected did not come.
pub(crate) fn unmet(alloc: Global, unmet: Unmet) -> LineError {
    LineError::of(alloc, LineFault::Unmet(unmet))
}

/// So many words stand behind the first one, where these are needed.
pub(crate) fn count_fault(word: &'static str, found: usize, needed: &'static str) -> LineFault {
    LineFault::Count {
        word,
        found,
        needed,
    }
}

/// A word that is none that may stand there.
pub(crate) fn word_fault(
    word: &str,
    field: &'static str,
    found: &str,
    why: WordFault,
) -> LineFault {
    LineFault::Word {
        word: excerpt(word),
        field,
        found: excerpt(found),
        why,
    }
}

/// The error of a `count_fault`.
pub(crate) fn wrong_count(
    alloc: Global,
    word: &'static str,
    found: usize,
    needed: &'static str,
) -> LineError {
    LineError::of(alloc, count_fault(word, found, needed))
}

/// The error of a `word_fault`.
pub(crate) fn wrong_word(
    alloc: Global,
    word: &str,
    field: &'static str,
    found: &str,
    why: WordFault,
) -> LineError {
    LineError::of(alloc, word_fault(word, field, found, why))
}

/// A path in words that is none.
pub(crate) fn wrong_path(alloc: Global, word: &str, why: AnswerFault) -> LineError {
    match why {
        AnswerFault::NoMemory => LineError::NoMemory,
        why => LineError::of(alloc, LineFault::Path(excerpt(word), why)),
    }
}
