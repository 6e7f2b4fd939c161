//! What contracts see of the book and of messages.
use crate::feed::Feed;
use crate::lists::Items;
use cip_base::ModuleId;
use cip_chassis::Topology;
use cip_routing::{Event, ModuleConfig, Tables};
use cip_world::{Entry, FrameName, Input, Outputs};

/// The book as contracts see it, with the newest entry first. No value of it is made.
#[derive(Drop)]
pub(crate) struct BookView {
    pub(crate) topology: Topology,
    pub(crate) given: Items<(ModuleId, Feed)>,
    // What waits for each module, by its place.
    pub(crate) feeds: Items<Items<Feed>>,
    pub(crate) frames: Items<Items<FrameName>>,
    pub(crate) hands: Items<Option<Input>>,
    pub(crate) journal: Items<Entry>,
    pub(crate) taken: usize,
    pub(crate) turns: usize,
    pub(crate) stopped: bool,
}

/// An event that a module stepped by, and what it did.
#[derive(Drop)]
pub(crate) struct TakenTurn {
    pub(crate) event: Event,
    pub(crate) outputs: Outputs,
}

/// A worker's message as contracts see it, with the newest step first. No value of it is made.
#[derive(Drop)]
pub(crate) struct MessageView {
    pub(crate) m: ModuleId,
    pub(crate) config: ModuleConfig,
    pub(crate) history: Items<TakenTurn>,
    pub(crate) tables: Tables,
}
