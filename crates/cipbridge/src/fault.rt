//! Why the program ends with an exit status above 0.
use crate::hint::Hint;
use cip_base::NoMemory;
use cip_check::{Escaped, NotUtf8, Unread};
use cip_console::{ConsoleFault, Explained, OptionsFault, Usage};
use cip_script::Frames;
use cip_threads::RunFault;
use cip_world::FrameName;
use std::fmt;
use thiserror::Error;

// What stands behind a fault of the options.
const WRONG: Usage = Usage::Wrong;

/// Why the program ends before its work is done, with the file that it is about.
#[derive(Drop, Error)]
pub enum Fault {
    #[error("{0}")]
    Options(OptionsFault),
    /// A word of the command line asks for nothing that the program has, and why.
    #[error("{0}\n{WRONG}")]
    Usage(String),
    /// A word of the command line, from 1, is no text.
    #[error("argument {0}: not UTF-8")]
    Argument(usize),
    /// The topology file, or the chassis that stands where none is given, breaks a rule: its name,
    /// the line, and which.
    #[error("{0}")]
    Topology(String),
    /// The topology file is no text.
    #[error("{}: {}", Escaped(.0.as_str()), .1)]
    NotText(String, NotUtf8),
    /// A file can't be read, or is too long.
    #[error("{}: {}", Escaped(.0.as_str()), .1)]
    Read(String, Unread),
    /// A line of the script, what is wrong with it, and what else helps.
    #[error("{}:{}: {}{}", Escaped(.0.as_str()), .1, .2, .3)]
    Script(String, usize, Explained, Hint),
    /// A line of the script that names no module, and the modules that there are.
    #[error("{}:{}: {}; allowed: {}", Escaped(.0.as_str()), .1, .2, .3)]
    NoModule(String, usize, Explained, String),
    /// A line of the script that names no frame that waits, and those that wait.
    #[error("{}:{}: {}; waiting: {}", Escaped(.0.as_str()), .1, .2, Frames(.3.as_slice()))]
    NoFrame(String, usize, Explained, Vec<FrameName>),
    /// A text that was asked for can't be written.
    #[error("standard output can't be written")]
    Say,
    /// Nobody reads any more what is written.
    #[error("nobody reads the standard output")]
    Unwanted,
    /// The console, but for reading and for the script.
    #[error("{0}")]
    Console(ConsoleFault),
    #[error("out of memory")]
    NoMemory,
}

impl fmt::Debug for Fault {
    fn fmt<W: fmt::Write>(&self, f: &mut fmt::Formatter<W>) -> fmt::Result {
        fmt::Display::fmt(self, f)
    }
}

// The exit status of a run of modules on threads.
fn status_of_run(fault: &RunFault) -> u8 {
    match fault {
        RunFault::Step(_) => 1,
        RunFault::New(_) => 3,
        RunFault::NoThread => 4,
        RunFault::NoMemory => 5,
        RunFault::Split(_) => 6,
    }
}

// The exit status of a fault of the console.
fn status_of(fault: &ConsoleFault) -> u8 {
    match fault {
        ConsoleFault::Script(..) => 1,
        ConsoleFault::New(_) => 3,
        ConsoleFault::Read => 4,
        ConsoleFault::Write => 4,
        ConsoleFault::NoMemory => 5,
        ConsoleFault::Run(fault) => status_of_run(fault),
    }
}

impl Fault {
    /// The exit status: 1 for the script, 2 for the options, 3 for the topology, 4 for reading and
    /// writing or where no thread can be made, 5 where memory ran out, 6 where a thread and the
    /// journal differ, 141 where nobody reads any more, as a shell has it of a program that ended
    /// by a broken pipe; 0 for a text that was asked for.
    pub fn status(&self) -> u8 {
        match self {
            Fault::Options(OptionsFault::Usage(Usage::Help)) => 0,
            Fault::Options(OptionsFault::Usage(Usage::Version)) => 0,
            Fault::Options(OptionsFault::Usage(Usage::Wrong)) => 2,
            Fault::Options(OptionsFault::NoMemory) => 5,
            Fault::Argument(_) => 2,
            Fault::Topology(..) => 3,
            Fault::NotText(..) => 3,
            Fault::Usage(_) => 2,
            Fault::Read(..) => 4,
            Fault::Say => 4,
            Fault::Unwanted => 141,
            Fault::Script(..) => 1,
            Fault::NoModule(..) => 1,
            Fault::NoFrame(..) => 1,
            Fault::Console(fault) => status_of(fault),
            Fault::NoMemory => 5,
        }
    }

    /// Whether something is said of it: nothing is where nobody reads any more.
    pub fn is_told(&self) -> bool {
        !matches!(self, Fault::Unwanted)
    }
}

impl From<NoMemory> for Fault {
    fn from(_refused: NoMemory) -> Fault {
        Fault::NoMemory
    }
}
