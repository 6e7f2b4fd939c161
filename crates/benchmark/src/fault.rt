//! Why the program ends before its work is done.

use cip_base::NoMemory;
use cip_read::ReadFault;
use cip_topology::LoadFault;
use std::alloc::{AllocError, AllocFailed};
use std::io;
use thiserror::Error;

/// Why the program ends before its work is done.
#[derive(Clone, Copy, Debug, PartialEq, Eq, Error)]
pub enum Fault {
    #[error("usage: benchmark all|ticks|cyclic|requests|trails|views|line SEED [small]")]
    Usage,
    #[error("the system refused")]
    System,
    #[error("a script or a topology is too long")]
    Room,
    #[error("a topology is not loaded")]
    Topology,
    #[error("a script is not played to its end")]
    Script,
    #[error("a transcript is not read")]
    Transcript,
    #[error("out of memory")]
    NoMemory,
}

impl From<io::Error> for Fault {
    fn from(_fault: io::Error) -> Fault {
        Fault::System
    }
}

impl From<AllocError> for Fault {
    fn from(_refused: AllocError) -> Fault {
        Fault::NoMemory
    }
}

impl<T: Drop> From<AllocFailed<T>> for Fault {
    fn from(_refused: AllocFailed<T>) -> Fault {
        Fault::NoMemory
    }
}

impl From<NoMemory> for Fault {
    fn from(_refused: NoMemory) -> Fault {
        Fault::NoMemory
    }
}

impl From<ReadFault> for Fault {
    fn from(fault: ReadFault) -> Fault {
        match fault {
            ReadFault::NoMemory => Fault::NoMemory,
            _ => Fault::Transcript,
        }
    }
}

impl From<LoadFault> for Fault {
    fn from(fault: LoadFault) -> Fault {
        match fault {
            LoadFault::NoMemory => Fault::NoMemory,
            _ => Fault::Topology,
        }
    }
}
