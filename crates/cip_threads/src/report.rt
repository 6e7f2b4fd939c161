//! What a run of threads answers.
use crate::feed::Feed;
use crate::lists::Items;
use cip_base::ModuleId;
use cip_clock::ClockFull;
use cip_routing::Tables;
use cip_world::{End, Entry, FrameName, NewFault};
use thiserror::Error;

/// What waits in the end: feeds that no module took, those of each module in their order, and
/// frames that did not arrive, in rising name.
#[derive(Drop)]
pub struct Waiting {
    pub feeds: Items<(ModuleId, Feed)>,
    pub frames: Items<FrameName>,
}

/// What the threads did: the journal, oldest entry first; the tables of each module after it; what
/// waits; and whether nothing waits or all turns are taken.
#[derive(Drop)]
pub struct Report {
    pub journal: Items<Entry>,
    pub tables: Items<Tables>,
    pub waiting: Waiting,
    pub end: End,
}

/// Why there is no report. The modules are gone.
#[derive(Clone, Copy, Debug, Error, PartialEq, Eq)]
pub enum RunFault {
    /// An allocation was refused.
    #[error("out of memory")]
    NoMemory,
    /// A thread could not be started.
    #[error("no thread")]
    NoThread,
    /// What the worker of module m tells is not what the journal has, or the book does not add up.
    #[error("module {} and the journal differ", .0.0)]
    Split(ModuleId),
    /// The routing table has no such step.
    #[error("{0}")]
    Step(ClockFull),
    /// The modules are not those of the topology, as at the beginning.
    #[error("{0}")]
    New(NewFault),
}

/// A message or the book is missing something or differs from the journal, or there was no memory.
#[derive(Clone, Copy, PartialEq, Eq)]
pub(crate) enum CompareFault {
    NoMemory,
    Differs(ModuleId),
}
