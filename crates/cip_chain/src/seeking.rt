//! Connections of modules, and what stands next to them.
ghost use Rattle.std.specs.Prelude.{◌≡◌, IfOk, IfErr};
ghost use Rattle.cip_chassis.specs.Plan.{IsTopology};
ghost use Rattle.cip_world.specs.Runs.{IsRun};
ghost use Rattle.cip_hops.specs.declared.hop.Hop.{Hop};
ghost use Rattle.cip_chain.specs.Found.{member, IsSeen, IsOpened, IsOpenedFault, IsNext};
ghost use Rattle.cip_chain.specs.Found.{IsNextFault};

use crate::chains::ChainFault;
use cip_base::ModuleId;
use cip_hops::HopDown;
use cip_routing::HopRow;
use cip_world::{Shown, World};

// The row of a connection of a module.
#[derive(Drop)]
pub(crate) struct Here {
    pub(crate) at: ModuleId,
    pub(crate) row: HopRow,
}

// What stands next to a connection: another, or an end with the instances of its assemblies.
#[derive(Drop)]
pub(crate) enum Next {
    Hop(Here),
    End { consume: u32, produce: u32 },
}

// The connection that an op opened.
pub(crate) fn opened(world: &World, at: ModuleId, op: u32) -> Result<Here, ChainFault>
    requires stand { ⟦<World as Shown>⟧.stands world.now }
    requires run { IsRun world.now.ledger.plan world.now.ledger.journal }
    ensures ok { IfOk result
        (IsOpened world.now.ledger.plan world.now.ledger.journal at.0 op) }
    ensures fault { IfErr result
        (IsOpenedFault world.now.ledger.plan world.now.ledger.journal at.0 op) }
{
    match world.row_by_op(at, op)? {
        Some(row) => Ok(Here { at, row }),
        None => Err(ChainFault::NotOpen),
    }
}

// What stands next to a connection. On every run there is a module where it goes down to, and the
// connection names an id there.
pub(crate) fn next_to(world: &World, here: &Here) -> Result<Next, ChainFault>
    requires stand { ⟦<World as Shown>⟧.stands world.now }
    requires run { IsRun world.now.ledger.plan world.now.ledger.journal }
    requires topology { IsTopology world.now.ledger.plan }
    ensures ok { IfOk result (λ next. (hop : Hop)
        → IsSeen world.now.ledger.plan world.now.ledger.journal here.now hop
        → IsNext world.now.ledger.plan world.now.ledger.journal (member here.now hop) next) }
    ensures fault { IfErr result (λ fault. (hop : Hop)
        → IsSeen world.now.ledger.plan world.now.ledger.journal here.now hop
        → IsNextFault world.now.ledger.plan world.now.ledger.journal (member here.now hop)
        fault) }
{
    match &here.row.down {
        HopDown::End {
            consume,
            produce,
            ..
        } => Ok(Next::End {
            consume: *consume,
            produce: *produce,
        }),
        HopDown::Link { port, address } => {
            let Some(there) = world.topology().across(here.at, *port, address) else {
                return Err(ChainFault::Broken(here.at));
            };
            let Some(id) = here.row.their_id else {
                return Err(ChainFault::Broken(there.at));
            };
            match world.row_by_up(there.at, id, there.port, there.from)? {
                Some(row) => Ok(Next::Hop(Here { at: there.at, row })),
                None => Err(ChainFault::Broken(there.at)),
            }
        }
    }
}
