//! What is played: a topology and a script.

use crate::fault::Fault;
use crate::text::Text;
use std::alloc::Global;

// The room for a topology, and for a script, in bytes.
const TOPOLOGY_ROOM: usize = 65_536;

const SCRIPT_ROOM: usize = 1_100_000;

/// A topology and a script over it, in room that is kept when they are made anew.
#[derive(Drop)]
pub struct Made {
    pub topology: Text,
    pub script: Text,
}

impl Made {
    /// Nothing is made yet. NoMemory where an allocation is refused.
    pub fn new(alloc: Global) -> Result<Made, Fault> {
        Ok(Made {
            topology: Text::new(alloc, TOPOLOGY_ROOM)?,
            script: Text::new(alloc, SCRIPT_ROOM)?,
        })
    }

    /// Nothing is made again.
    pub fn clear(&mut self) {
        self.topology.clear();
        self.script.clear();
    }
}
