//! What was expected and did not come.

use crate::answers::Answer;
use crate::counts::Counted;
use crate::naming::{OpName, Order, Place};
use crate::outcomes::{Code, Pairs};
use cip_base::{Bytes, Excerpt};
use cip_routing::{Dropped, Refused};
use cip_script::Frames;
use cip_world::FrameName;
use std::fmt;
use thiserror::Error;

/// How many bytes came, and how many were wanted, where these are not the same.
#[derive(Clone, Copy)]
pub struct Lengths {
    pub found: usize,
    pub wanted: usize,
}

impl fmt::Display for Lengths {
    fn fmt<W: fmt::Write>(&self, f: &mut fmt::Formatter<W>) -> fmt::Result {
        if self.found == self.wanted {
            return Ok(());
        }
        write!(f, " (size {}, and not {})", self.found, self.wanted)
    }
}

/// Bytes that came, and those that were wanted.
#[derive(Drop)]
pub struct Differing {
    pub found: Bytes,
    pub wanted: Bytes,
}

impl fmt::Display for Differing {
    fn fmt<W: fmt::Write>(&self, f: &mut fmt::Formatter<W>) -> fmt::Result {
        let found = self.found.as_slice();
        let wanted = self.wanted.as_slice();
        let lengths = Lengths {
            found: found.len(),
            wanted: wanted.len(),
        };
        write!(f, "{}, and not {}{lengths}", Pairs(found), Pairs(wanted))
    }
}

/// A reason for which a frame was dropped, or none.
#[derive(Clone, Copy)]
pub struct DropReason(pub Option<Dropped>);

impl fmt::Display for DropReason {
    fn fmt<W: fmt::Write>(&self, f: &mut fmt::Formatter<W>) -> fmt::Result {
        match self.0 {
            Some(dropped) => write!(f, "dropped with {dropped:?}"),
            None => f.write_str("taken"),
        }
    }
}

/// What came in place of what was expected.
#[derive(Drop, Error)]
pub enum Unmet {
    #[error("{kind}: {op} is not done")]
    NotDone {
        kind: &'static str,
        op: OpName,
    },
    #[error("done: {op} is done with {found}, and not with {wanted}{answer}")]
    Done {
        op: OpName,
        found: Code,
        wanted: Code,
        answer: Answer,
    },
    #[error("{kind}: {op} is done with bytes that are no reply")]
    NoReply {
        kind: &'static str,
        op: OpName,
    },
    #[error("refused: no command was given")]
    NoCommand,
    #[error("refused: the last command, {0}, was not refused")]
    NotRefused(Order),
    #[error("refused: the last command, {order}, \
        was refused with {found:?}, and not with {wanted}")]
    Refused {
        order: Order,
        found: Refused,
        wanted: Excerpt,
    },
    #[error("{kind}: no datum came to {place}")]
    NoDatum {
        kind: &'static str,
        place: Place,
    },
    #[error("{kind}: at {place} stands {bytes}")]
    Datum {
        kind: &'static str,
        place: Place,
        bytes: Differing,
    },
    #[error("consumed: the datum at {place} repeats count {count}, which the one before it has, \
        and is not written; `expect repeated` looks for such a one")]
    Repeats {
        place: Place,
        count: u16,
    },
    #[error("repeated: the datum at {place} {counted}")]
    NotRepeated {
        place: Place,
        counted: Counted,
    },
    #[error("assembly: {module_} has no assembly {instance}")]
    NoAssembly {
        module_: Excerpt,
        instance: u32,
    },
    #[error("attribute: {op} is done with {found}{answer}")]
    Failed {
        op: OpName,
        found: Code,
        answer: Answer,
    },
    #[error("attribute: the reply to {op} does not have attribute {number}")]
    NoAttribute {
        op: OpName,
        number: u16,
    },
    #[error("attribute: attribute {number} of {op} is {bytes}")]
    Attribute {
        op: OpName,
        number: u16,
        bytes: Differing,
    },
    #[error("open: {op} is not open{answer}")]
    NotOpen {
        op: OpName,
        answer: Answer,
    },
    #[error("closed: {0} is open")]
    Open(OpName),
    #[error("expired: {0} asked for no connection")]
    NotAsked(OpName),
    #[error("expired: the connection of {op} did not expire at {module_}{answer}")]
    NotExpired {
        op: OpName,
        module_: Excerpt,
        answer: Answer,
    },
    #[error("dropped: no frame came to {0}")]
    NoFrame(Excerpt),
    #[error("dropped: the last frame to {module_}, {}.{}, \
        was {found}, and not dropped with {wanted}", .frame.entry, .frame.output)]
    Dropped {
        module_: Excerpt,
        frame: FrameName,
        found: DropReason,
        wanted: Excerpt,
    },
    #[error("chain: that of {op} is {found}, and not {wanted}{answer}")]
    Chain {
        op: OpName,
        found: String,
        wanted: String,
        answer: Answer,
    },
    #[error("quiet: frames wait: {}", Frames(.0.as_slice()))]
    Waiting(Vec<FrameName>),
}

impl fmt::Debug for Unmet {
    fn fmt<W: fmt::Write>(&self, f: &mut fmt::Formatter<W>) -> fmt::Result {
        fmt::Display::fmt(self, f)
    }
}
