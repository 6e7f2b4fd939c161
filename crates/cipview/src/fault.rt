//! Why the program ends with an exit status above 0.
ghost use Rattle.std.specs.Prelude.{◌≡◌};
ghost use Rattle.cipview.specs.Statuses.{status_of, of_load};

use crate::options::{OptionsFault, Usage};
use cip_base::NoMemory;
use cip_check::{Escaped, NotUtf8, Unread};
use cip_read::ReadFault;
use cip_topology::LoadFault;
use std::alloc::AllocError;
use std::fmt;
use thiserror::Error;

// What stands behind a fault of the options.
const WRONG: Usage = Usage::Wrong;

/// Why the program ends before its work is done, with the file that it is about.
#[derive(Drop, Error)]
pub enum Fault {
    #[error("{0}")]
    Options(OptionsFault),
    /// A word of the command line asks for nothing that the program has, and why.
    #[error("{0}\n{WRONG}")]
    Usage(String),
    /// A module that is asked for is none of the topology's, and the modules that there are.
    #[error("--module {}: no module of the topology; allowed: {}", Escaped(.0.as_str()), .1)]
    Module(String, String),
    /// The first entry that is asked for stands behind the last one that there is.
    #[error("--from {0}: past the end, the last entry is {1}")]
    PastEnd(usize, usize),
    /// There is no entry, and one behind the first is asked for.
    #[error("--from {0}: past the end, there is no entry")]
    NoEntry(usize),
    /// The topology file, or the chassis that stands where none is given, breaks a rule: its name
    /// and which.
    #[error("{0}")]
    Topology(String),
    /// The topology file is no text.
    #[error("{}: {}", Escaped(.0.as_str()), .1)]
    NotText(String, NotUtf8),
    /// A file can't be read, or the topology file is too long.
    #[error("{}: {}", Escaped(.0.as_str()), .1)]
    Read(String, Unread),
    /// A line of the transcript.
    #[error("<stdin>: {0}")]
    Transcript(ReadFault),
    /// A line of the transcript that names no module, and the modules that there are.
    #[error("<stdin>: {0}; allowed: {1}; `--topology FILE` names the topology of the run")]
    Stranger(ReadFault, String),
    /// The transcript has no line that is whole.
    #[error("<stdin>: no line of a transcript: each ends with a newline, 0A")]
    NoLine,
    #[error("what is shown can't be written")]
    Write,
    /// Nobody reads any more what is shown.
    #[error("nobody reads what is shown")]
    Unwanted,
    #[error("out of memory")]
    NoMemory,
}

impl fmt::Debug for Fault {
    fn fmt<W: fmt::Write>(&self, f: &mut fmt::Formatter<W>) -> fmt::Result {
        fmt::Display::fmt(self, f)
    }
}

impl Fault {
    /// The exit status: 1 for the transcript, 2 for the options, 3 for the topology, 4 for reading
    /// and writing, 5 where memory ran out, 141 where nobody reads any more, as a shell has it of a
    /// program that a broken pipe ended; 0 for a text that was asked for.
    pub fn status(&self) -> u8
        ensures { result ≡ status_of self.now }
    {
        match self {
            Fault::Options(OptionsFault::Usage(Usage::Help)) => 0,
            Fault::Options(OptionsFault::Usage(Usage::Version)) => 0,
            Fault::Options(OptionsFault::Usage(Usage::Wrong)) => 2,
            Fault::Options(OptionsFault::NoMemory) => 5,
            Fault::Usage(_) => 2,
            Fault::Module(..) => 2,
            Fault::PastEnd(..) => 2,
            Fault::NoEntry(_) => 2,
            Fault::Topology(_) => 3,
            Fault::NotText(..) => 3,
            Fault::Read(..) => 4,
            Fault::Transcript(ReadFault::NoMemory) => 5,
            Fault::Transcript(_) => 1,
            Fault::Stranger(..) => 1,
            Fault::NoLine => 1,
            Fault::Write => 4,
            Fault::Unwanted => 141,
            Fault::NoMemory => 5,
        }
    }

    /// Whether something is said of it: nothing is where nobody reads any more.
    pub fn is_told(&self) -> bool {
        !matches!(self, Fault::Unwanted)
    }

    /// The topology file has this fault, and what is told of it.
    pub fn of_topology(told: String, fault: &LoadFault) -> Fault
        ensures { status_of result ≡ of_load fault.now }
    {
        match fault {
            LoadFault::NoMemory => Fault::NoMemory,
            _ => Fault::Topology(told),
        }
    }
}

impl From<NoMemory> for Fault {
    fn from(_refused: NoMemory) -> Fault {
        Fault::NoMemory
    }
}

impl From<AllocError> for Fault {
    fn from(_refused: AllocError) -> Fault {
        Fault::NoMemory
    }
}

impl From<ReadFault> for Fault {
    fn from(fault: ReadFault) -> Fault {
        match fault {
            ReadFault::NoMemory => Fault::NoMemory,
            other => Fault::Transcript(other),
        }
    }
}
