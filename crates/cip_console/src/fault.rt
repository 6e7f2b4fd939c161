//! Why a script was not run to its end.
ghost use Rattle.std.specs.Prelude.{◌≡◌};
ghost use Rattle.cip_console.specs.declared.fault.ConsoleFault.TheVariants.{NoMemory as Refused};

use cip_base::NoMemory;
use cip_script::ScriptFault;
use cip_threads::RunFault;
use cip_world::NewFault;
use std::alloc::AllocError;
use thiserror::Error;

/// Why a script was not run to its end.
#[derive(Clone, Copy, Debug, PartialEq, Eq, Error)]
pub enum ConsoleFault {
    /// The first faulty line, from 1, and its fault. Nothing was written, but for NoFrame and
    /// ClockFull: these come in the run, after the transcript so far.
    #[error("line {0}: {1}")]
    Script(usize, ScriptFault),
    /// The script can't be read, or has more than 1,048,576 bytes. Nothing was written.
    #[error("the script can't be read")]
    Read,
    /// The writer failed or took no byte. A prefix of the transcript was written.
    #[error("the transcript can't be written")]
    Write,
    /// An allocation was refused. A prefix of the transcript was written.
    #[error("out of memory")]
    NoMemory,
    /// A run of modules on threads came to no end: no thread could be made, a clock is full, or a
    /// thread and the journal differ. Nothing was written.
    #[error("{0}")]
    Run(RunFault),
    /// The modules are not those of the topology, or not as at the beginning: Count, Config or
    /// NotFresh. Nothing was written.
    #[error("{0}")]
    New(NewFault),
}

impl From<AllocError> for ConsoleFault {
    ghost from_gives = { λ _ fault. fault ≡ Refused };

    fn from(_refused: AllocError) -> ConsoleFault {
        ConsoleFault::NoMemory
    }
}

impl From<NoMemory> for ConsoleFault {
    ghost from_gives = { λ _ fault. fault ≡ Refused };

    fn from(_refused: NoMemory) -> ConsoleFault {
        ConsoleFault::NoMemory
    }
}
