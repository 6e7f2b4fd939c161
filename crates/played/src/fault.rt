//! Why the program ends before its work is done.

use cip_base::NoMemory;
use std::alloc::{AllocError, AllocFailed};
use std::io;
use std::num::ParseIntError;
use step_times::TimesFault;
use thiserror::Error;

/// Why the program ends before its work is done.
#[derive(Clone, Copy, Debug, Error)]
pub enum Fault {
    #[error("usage: played plain|indexed|mixed [FILE ..], \
        played topologies FILE .., played chassis FILE, \
        played times [send|open|datum|send-full|open-full|datum-full|large|datum-4|datum-400|\
        datum-long|half|long TIMES [indexed]]")]
    Usage,
    #[error("a line cannot be played")]
    Line,
    #[error("the system refused")]
    System,
    #[error("out of memory")]
    NoMemory,
    #[error("the bridge did not send what was expected")]
    Unexpected,
}

impl From<io::Error> for Fault {
    fn from(_fault: io::Error) -> Fault {
        Fault::System
    }
}

impl From<ParseIntError> for Fault {
    fn from(_fault: ParseIntError) -> Fault {
        Fault::Usage
    }
}

impl From<AllocError> for Fault {
    fn from(_refused: AllocError) -> Fault {
        Fault::NoMemory
    }
}

impl<T: Drop> From<AllocFailed<T>> for Fault {
    fn from(_refused: AllocFailed<T>) -> Fault {
        Fault::NoMemory
    }
}

impl From<NoMemory> for Fault {
    fn from(_refused: NoMemory) -> Fault {
        Fault::NoMemory
    }
}

impl From<TimesFault> for Fault {
    fn from(fault: TimesFault) -> Fault {
        match fault {
            TimesFault::NoMemory => Fault::NoMemory,
            TimesFault::Unexpected => Fault::Unexpected,
        }
    }
}
