//! The chain of an op, as it stands in a run.
ghost use Rattle.std.specs.Prelude.{◌≡◌, ◌++◌, OnOk};
ghost use Rattle.cip_transcript.specs.Chained.{chain_of};
ghost use Rattle.cip_transcript.specs.Show.{chain_text};

use crate::pieces::put;
use crate::show::{name_in, put_broken, put_chain};
use cip_base::{Bytes, ModuleId, NoMemory};
use cip_chain::{ChainFault, chain};
use cip_world::{Shown, World};
use std::alloc::Global;

/// Puts the chain of an op of a module behind a text: the modules through which its connection goes
/// and the instances at its end, or that none is open, or the module that lacks the next
/// connection. NoMemory where an allocation is refused: then a part may stand there.
pub fn put_chain_of(
    alloc: Global,
    world: &World,
    names: &[Bytes],
    at: ModuleId,
    op: u32,
    text: &mut Vec<u8>,
) -> Result<(), NoMemory>
    requires stand { ⟦<World as Shown>⟧.stands world.now }
    ensures { OnOk result (text.new.items ≡ text.old.items ++ chain_text names.now
        (chain_of world.now.ledger.plan world.now.ledger.journal at.0 op)) }
{
    // What happened is a run of the topology: on each run `chain` answers one of the three.
    let _run = world.journal();
    match chain(alloc, world, at, op) {
        Ok(view) => put_chain(text, names, &view),
        Err(ChainFault::NotOpen) => put(text, b"not open\n"),
        Err(ChainFault::Broken(lacking)) => put_broken(text, name_in(names, lacking.0)),
        Err(ChainFault::NoMemory) => Err(NoMemory),
    }
}
