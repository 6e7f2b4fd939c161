//! Why the program ends with an exit status above 0.

use crate::options::USAGE;
use cip_base::NoMemory;
use cip_check::{Escaped, NotUtf8, Unread};
use cip_console::ConsoleFault;
use cip_script::Explained;
use cip_tool::AnswerFault;
use std::alloc::AllocError;
use std::fmt;
use thiserror::Error;

// One fault, or several.
fn fault_word(count: &usize) -> &'static str {
    if *count == 1 { "fault" } else { "faults" }
}

/// Why the program ends before its work is done.
#[derive(Drop, Error)]
pub enum Fault {
    /// What is wrong with the words of the command line.
    #[error("{0}\n{USAGE}")]
    Usage(String),
    /// A word of the command line, from 1, is no text.
    #[error("argument {0}: not UTF-8\n{USAGE}")]
    Argument(usize),
    /// There is no answer.
    #[error("{0}")]
    Answer(AnswerFault),
    /// A file can't be read.
    #[error("{}: {}", Escaped(.0.as_str()), .1)]
    Read(String, Unread),
    /// A topology file is no text.
    #[error("{}: {}", Escaped(.0.as_str()), .1)]
    NotText(String, NotUtf8),
    /// A topology file has so many faults, or rooms too small for scripts, which were told.
    #[error("{}: {} {}", Escaped(.0.as_str()), .1, fault_word(.1))]
    Faults(String, usize),
    /// A topology file breaks a rule; which.
    #[error("{}: {}", Escaped(.0.as_str()), .1)]
    Topology(String, String),
    /// A line of a script, and what is wrong with it.
    #[error("{}:{}: {}", Escaped(.0.as_str()), .1, .2)]
    Script(String, usize, Explained),
    /// A line of a wide script, and what is wrong with it.
    #[error("{0}")]
    Line(String),
    /// The console, which plays the script that a wide script is.
    #[error("{0}")]
    Console(ConsoleFault),
    #[error("standard output can't be written")]
    Write,
    /// Nobody reads any more what is written.
    #[error("nobody reads the standard output")]
    Unwanted,
    #[error("out of memory")]
    NoMemory,
}

impl fmt::Debug for Fault {
    fn fmt<W: fmt::Write>(&self, f: &mut fmt::Formatter<W>) -> fmt::Result {
        fmt::Display::fmt(self, f)
    }
}

// The exit status of a fault of the console. (No wide script is played on threads.)
fn status_of(fault: &ConsoleFault) -> u8 {
    match fault {
        ConsoleFault::Script(..) => 1,
        ConsoleFault::New(_) => 3,
        ConsoleFault::Read => 4,
        ConsoleFault::Write => 4,
        ConsoleFault::NoMemory => 5,
        ConsoleFault::Run(_) => 6,
    }
}

impl Fault {
    /// The exit status: 1 where what was asked for has no answer or a line of a script is faulty, 2
    /// for the options, 3 for a topology file, 4 for reading and writing, 5 where memory ran out,
    /// 141 where nobody reads any more, as a shell has it of a program that a broken pipe ended.
    pub fn status(&self) -> u8 {
        match self {
            Fault::Answer(AnswerFault::NoMemory) => 5,
            Fault::Answer(_) => 1,
            Fault::Usage(_) => 2,
            Fault::Argument(_) => 2,
            Fault::NotText(..) => 3,
            Fault::Faults(..) => 3,
            Fault::Topology(..) => 3,
            Fault::Script(..) => 1,
            Fault::Line(..) => 1,
            Fault::Console(fault) => status_of(fault),
            Fault::Read(..) => 4,
            Fault::Write => 4,
            Fault::Unwanted => 141,
            Fault::NoMemory => 5,
        }
    }

    /// Whether something is said of it: nothing is where nobody reads any more.
    pub fn is_told(&self) -> bool {
        !matches!(self, Fault::Unwanted)
    }
}

impl From<NoMemory> for Fault {
    fn from(_refused: NoMemory) -> Fault {
        Fault::NoMemory
    }
}

impl From<AllocError> for Fault {
    fn from(_refused: AllocError) -> Fault {
        Fault::NoMemory
    }
}

impl From<AnswerFault> for Fault {
    fn from(fault: AnswerFault) -> Fault {
        Fault::Answer(fault)
    }
}
