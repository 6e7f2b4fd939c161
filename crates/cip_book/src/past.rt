//! What is kept of the entries that were read, to tell what trails and chains are of.
use crate::opens::Opens;
use cip_base::{ModuleId, NoMemory};
use cip_chassis::Topology;
use cip_event::Output;
use cip_read::{CommandWord, Given};
use std::alloc::Global;

/// How many entries are kept: the last ones.
const KEPT: usize = 16_384;

/// An entry that was read.
#[derive(Clone, Copy)]
pub struct Taken {
    pub entry: usize,
    /// The module that took a step; None of a loss.
    pub at: Option<ModuleId>,
    /// Its command, and the op or instance of it.
    pub command: Option<(CommandWord, u32)>,
}

/// The last entries, and the connections that ops of modules open.
#[derive(Drop)]
pub struct Past<'a> {
    topology: &'a Topology,
    // an entry at its number behind the first, modulo the most that are kept
    taken: Vec<Taken>,
    first: Option<usize>,
    opens: Opens<'a>,
}

// The command of what a module was given.
fn command_of(given: Given) -> Option<(CommandWord, u32)> {
    match given {
        Given::Command(word, number) => Some((word, number)),
        _ => None,
    }
}

impl<'a> Past<'a> {
    /// No entry was read of a run over this topology.
    pub fn new(alloc: Global, topology: &'a Topology) -> Past<'a> {
        Past {
            topology,
            taken: Vec::new(alloc),
            first: None,
            opens: Opens::new(alloc, topology),
        }
    }

    // Where an entry has its place.
    fn place(&self, entry: usize) -> usize {
        entry.saturating_sub(self.first.unwrap_or(0)) % KEPT
    }

    fn keep(&mut self, taken: Taken) -> Result<(), NoMemory> {
        if self.first.is_none() {
            self.first = Some(taken.entry);
        }
        let place = self.place(taken.entry);
        match self.taken.get_mut(place) {
            Some(kept) => *kept = taken,
            None => self.taken.push(taken)?,
        }
        Ok(())
    }

    /// A module took a step. NoMemory where an allocation is refused.
    pub fn step(&mut self, entry: usize, at: ModuleId, given: Given) -> Result<(), NoMemory> {
        self.opens.begin(at, given);
        self.keep(Taken {
            entry,
            at: Some(at),
            command: command_of(given),
        })
    }

    /// A frame was lost. NoMemory where an allocation is refused.
    pub fn loss(&mut self, entry: usize) -> Result<(), NoMemory> {
        self.opens.lose();
        self.keep(Taken {
            entry,
            at: None,
            command: None,
        })
    }

    /// The entry of this number, where it is kept.
    pub fn of(&self, entry: usize) -> Option<Taken> {
        match self.taken.get(self.place(entry)) {
            Some(taken) if taken.entry == entry => Some(*taken),
            _ => None,
        }
    }

    /// An output of the step under way. NoMemory where an allocation is refused.
    pub fn output(&mut self, alloc: Global, output: &Output) -> Result<(), NoMemory> {
        self.opens.output(alloc, output)
    }

    /// The place of the module of a name.
    pub fn place_of(&self, name: &[u8]) -> Option<usize> {
        match self.topology.by_name(name) {
            Some(id) => Some(id.0),
            None => None,
        }
    }

    /// The connections that ops of modules open, where the run was read from its first entry on.
    pub fn opens(&self) -> Option<&Opens<'a>> {
        match self.first {
            Some(0) => Some(&self.opens),
            _ => None,
        }
    }
}
