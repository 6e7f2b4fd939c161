//! Why the program ends before its work is done.

use cip_base::NoMemory;
use cip_console::ReadFault;
use cip_script::StepsFault;
use cip_topology::LoadFault;
use cip_world::WorldFault;
use std::alloc::{AllocError, AllocFailed};
use std::io;
use thiserror::Error;

/// Why the program ends before its work is done.
#[derive(Clone, Copy, Debug, Error)]
pub enum Fault {
    #[error("usage: played_worlds WHAT [WHAT FILE ..], where WHAT is \
        plain|indexed|late|two|ports|counted|book TURNS|turn|read|live|live-read|progress")]
    Usage,
    #[error("a line cannot be played")]
    Line,
    #[error("the system refused")]
    System,
    #[error("out of memory")]
    NoMemory,
    #[error("the chassis was not made")]
    Chassis,
}

impl From<io::Error> for Fault {
    fn from(_fault: io::Error) -> Fault {
        Fault::System
    }
}

impl From<AllocError> for Fault {
    fn from(_refused: AllocError) -> Fault {
        Fault::NoMemory
    }
}

impl<T: Drop> From<AllocFailed<T>> for Fault {
    fn from(_refused: AllocFailed<T>) -> Fault {
        Fault::NoMemory
    }
}

impl From<NoMemory> for Fault {
    fn from(_refused: NoMemory) -> Fault {
        Fault::NoMemory
    }
}

impl From<LoadFault> for Fault {
    fn from(_fault: LoadFault) -> Fault {
        Fault::Chassis
    }
}

impl From<WorldFault> for Fault {
    fn from(_fault: WorldFault) -> Fault {
        Fault::NoMemory
    }
}

impl From<StepsFault> for Fault {
    fn from(_fault: StepsFault) -> Fault {
        Fault::Line
    }
}

impl From<ReadFault> for Fault {
    fn from(fault: ReadFault) -> Fault {
        match fault {
            ReadFault::NoMemory => Fault::NoMemory,
            _ => Fault::System,
        }
    }
}
