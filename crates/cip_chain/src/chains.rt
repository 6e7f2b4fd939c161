//! The modules through which a connection goes.
ghost use Rattle.std.specs.Prelude.{◌≡◌, ℕ, List, ◌++◌, ◌∷◌, [], Some, length, OnOk, IfOk, IfErr};
ghost use Rattle.std.specs.FinMap as finite;
ghost use Rattle.cip_base.specs.declared.triad.Triad.{Triad};
ghost use Rattle.cip_hops.specs.declared.hop.Held.TheVariants.{Open};
ghost use Rattle.cip_hops.specs.declared.hop.Hop.{Hop};
ghost use Rattle.cip_hops.specs.declared.opening.HopDown.TheVariants.{Link as DownLink};
ghost use Rattle.cip_config.specs.declared.config.ModuleSettings.{ModuleSettings as Settings};
ghost use Rattle.cip_chassis.specs.Plan.{IsTopology};
ghost use Rattle.cip_chassis.specs.Nodes.{Way};
ghost use Rattle.cip_world.specs.Chains.{Member, IsChain, last_of, AreDeliveries, AreKept};
ghost use Rattle.cip_world.specs.Chains.{IsTakenBy};
ghost use Rattle.cip_world.specs.Entering.{before_entry, IsEntered};
ghost use Rattle.cip_world.specs.Journals.{Journal};
ghost use Rattle.cip_world.specs.Mirrors.{IsOlder, IsMirrored};
ghost use Rattle.cip_world.specs.Runs.{IsModule, IsRun, state_in};
ghost use Rattle.cip_chain.specs.Answers.{IsView, IsChainFault};
ghost use Rattle.cip_chain.specs.declared.chains.ChainFault.TheVariants.{NoMemory as NoChainMemory};

use crate::seeking::{Next, next_to, opened};
use cip_base::{ModuleId, NoMemory};
use cip_world::{Shown, World};
use std::alloc::Global;
use std::marker::Model;
use thiserror::Error;

/// Modules of a chain, from the originator on.
#[derive(Drop)]
pub struct Modules {
    modules: Vec<ModuleId>,
}

impl Model for Modules {
    ghost use Rattle.std.specs.Prelude.{List};
    ghost use Rattle.cip_base.specs.declared.numbers.ModuleId.{ModuleId};

    ghost Value = { List ModuleId };

    ghost view = { λ m. m.modules.items };
}

impl Modules {
    /// The modules, borrowed.
    pub fn as_slice(&self) -> &[ModuleId]
        ensures { result.now ≡ self.now }
    {
        self.modules.as_slice()
    }
}

/// The end of a chain: the instances of its assemblies, that to which it consumes (O to T) and that
/// from which it produces (T to O).
#[derive(Clone, Copy, Debug, PartialEq, Eq)]
pub struct ChainEnd {
    pub consume: u32,
    pub produce: u32,
}

/// A chain: its modules, and its end.
#[derive(Drop)]
pub struct ChainView {
    pub modules: Modules,
    pub end: ChainEnd,
}

/// Why there is no chain.
#[derive(Clone, Copy, Debug, PartialEq, Eq, Error)]
pub enum ChainFault {
    /// The module has no connection that a command of this op opened.
    #[error("no connection of that op is open")]
    NotOpen,
    /// This module lacks the connection that the one before it names.
    #[error("the chain is broken")]
    Broken(ModuleId),
    /// An allocation was refused.
    #[error("out of memory")]
    NoMemory,
}

impl From<NoMemory> for ChainFault {
    ghost from_gives = { λ _ fault. fault ≡ NoChainMemory };

    fn from(_refused: NoMemory) -> ChainFault {
        ChainFault::NoMemory
    }
}

// One module more.
fn put(modules: &mut Vec<ModuleId>, at: ModuleId) -> Result<(), NoMemory>
    ensures { OnOk result (modules.new.items ≡ modules.old.items ++ at ∷ []) }
{
    modules.push(at)?;
    Ok(())
}

// The chain of an op, on a run of a topology.
fn follow(alloc: Global, world: &World, at: ModuleId, op: u32) -> Result<ChainView, ChainFault>
    requires stand { ⟦<World as Shown>⟧.stands world.now }
    requires run { IsRun world.now.ledger.plan world.now.ledger.journal }
    requires topology { IsTopology world.now.ledger.plan }
    ensures ok { IfOk result
        (IsView world.now.ledger.plan world.now.ledger.journal at.0 op) }
    ensures fault { IfErr result
        (IsChainFault world.now.ledger.plan world.now.ledger.journal at.0 op) }
{
    let mut modules = Vec::new(alloc);
    let mut here = opened(world, at, op)?;
    put(&mut modules, here.at)?;
    loop {
        match next_to(world, &here) {
            Ok(Next::Hop(next)) => {
                put(&mut modules, next.at)?;
                here = next;
            }
            Ok(Next::End { consume, produce }) => {
                return Ok(ChainView {
                    modules: Modules { modules },
                    end: ChainEnd { consume, produce },
                });
            }
            Err(fault) => return Err(fault),
        }
    }
}

/// The modules through which the connection goes that a command of this op opened at this module,
/// and the instances of the assemblies at its end. NotOpen where no connection of that op is open
/// there; Broken with the module that lacks the next connection; NoMemory. Whatever it answers, on
/// the world's run connections are mirrored below, also those that are gone, and a datum that is
/// entered on a chain of which nothing is removed comes to its end.
pub fn chain(alloc: Global, world: &World, at: ModuleId, op: u32) -> Result<ChainView, ChainFault>
    requires stand { ⟦<World as Shown>⟧.stands world.now }
    ensures ok { IfOk result
        (IsView world.now.ledger.plan world.now.ledger.journal at.0 op) }
    ensures fault { IfErr result
        (IsChainFault world.now.ledger.plan world.now.ledger.journal at.0 op) }
    ensures mirrored { (k : Journal) → IsOlder k world.now.ledger.journal → (m : ℕ)
        (config : Settings) → IsModule world.now.ledger.plan m config
        → (q : Triad) (h : Hop) (port : ℕ) (address : List ℕ)
        → finite.get (state_in config m k).hops.held q ≡ Some (Open h)
        → h.opening.down ≡ DownLink port address
        → IsMirrored world.now.ledger.plan world.now.ledger.journal
        (record { at = m; port = port; address = address }) h }
    ensures carries { (entry m own : ℕ) (bytes : List ℕ)
        → IsEntered world.now.ledger.journal entry m own bytes
        → (first : Member) (rest : List Member) → first.at ≡ m
        → IsChain world.now.ledger.plan (before_entry world.now.ledger.journal entry) own first rest
        → (ks : List ℕ) → AreDeliveries world.now.ledger.journal entry ks
        → length ks ≡ length rest
        → AreKept world.now.ledger.plan world.now.ledger.journal entry (last_of entry ks)
        (first ∷ rest)
        → IsTakenBy world.now.ledger.journal (last_of entry ks) (last_of first rest) bytes }
{
    let size = world.topology().configs().len();
    // Before anything happened no connection is open, nor is one at a module that is not there.
    if world.journal().is_empty() {
        return Err(ChainFault::NotOpen);
    }
    if at.0 >= size {
        return Err(ChainFault::NotOpen);
    }
    follow(alloc, world, at, op)
}
