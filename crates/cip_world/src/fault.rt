//! Why a world did nothing.
ghost use Rattle.std.specs.Prelude.{◌≡◌};
ghost use Rattle.cip_world.specs.declared.fault.WorldFault.TheVariants.{NoMemory as NoWorldMemory};

use cip_base::NoMemory;
use cip_clock::ClockFull;
use thiserror::Error;

/// Why an event did not happen: the journal and the modules are as they were.
#[derive(Clone, Copy, Debug, Error, PartialEq, Eq)]
pub enum WorldFault {
    /// The topology has no such module.
    #[error("no such module")]
    NoModule,
    /// No frame of this name waits.
    #[error("no such frame waits")]
    NoFrame,
    /// The routing table has no such step.
    #[error("{0}")]
    Step(ClockFull),
    /// An allocation was refused.
    #[error("out of memory")]
    NoMemory,
}

impl From<NoMemory> for WorldFault {
    ghost from_gives = { λ _ fault. fault ≡ NoWorldMemory };

    fn from(_refused: NoMemory) -> WorldFault {
        WorldFault::NoMemory
    }
}
