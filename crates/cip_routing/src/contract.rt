//! What the layers above know of a module.
ghost use Rattle.std.specs.Prelude.{◌≡◌, IfOk};
ghost use Rattle.std.specs.Option.{option_map};
ghost use Rattle.cip_hops.specs.Hops.{hop_by_op, hop_by_up};
ghost use Rattle.cip_config.specs.declared.config.ModuleSettings.{ModuleSettings as Settings};
ghost use Rattle.cip_routing.specs.State.{State};
ghost use Rattle.cip_routing.specs.Steps.{IsStep, IsStepFault};
ghost use Rattle.cip_routing.specs.Views.{ShowsState, hop_row_of};
ghost use Rattle.cip_routing.specs.Paired.{IsPaired};
ghost use Rattle.cip_routing.specs.Rooms.{HasRooms};

use crate::tables::{HopRow, Tables};
use cip_base::{Address, NoMemory, PortNumber};
use cip_config::ModuleConfig;
use cip_event::{Event, Output};
use thiserror::Error;

/// A step that did not happen: the module is as it was, and the event comes back whole.
#[derive(Debug, Drop, Error)]
pub enum StepFault {
    /// An allocation was refused.
    #[error("out of memory")]
    NoMemory(Event),
    /// The tick would lead past the last time, 9,223,372,036,854,775,807 microseconds. It is looked
    /// at first.
    #[error("the clock is full")]
    ClockFull(Event),
}

/// A module of a chassis: a config that never changes, and a state that each event changes as the
/// routing table says. In every state each connection that is opening waits for the reply to one
/// request, and each request that opens for one connection: the law `paired`. The rooms of its
/// tables are those of its config: the law `rooms`.
pub trait Module: Drop {
    ghost config_of: { Self → Settings };

    ghost state_of: { Self → State };

    ghost paired: { (m : Self) → IsPaired (state_of m).pendings (state_of m).hops };

    ghost rooms: { (m : Self) → HasRooms (config_of m) (state_of m) };

    /// The module's config.
    fn config(&self) -> &ModuleConfig
        ensures { result.now ≡ config_of self.now };

    /// Takes one event: a command, a frame or a tick. The outputs and the new state are those of
    /// the routing table.
    fn step(&mut self, event: Event) -> Result<Vec<Output>, StepFault>
        ensures ok { IfOk result (λ outputs. IsStep (config_of self.old) (state_of self.old) event
            (state_of self.new) outputs.items) }
        ensures fault { IsStepFault (config_of self.old) (state_of self.old) event
            (state_of self.new) result }
        ensures config { config_of self.new ≡ config_of self.old };

    /// The state, as lists in rising key.
    fn tables(&self) -> Result<Tables, NoMemory>
        ensures { IfOk result (ShowsState (state_of self.now)) };

    /// The row of the connection that a command of this op opened, of which there is at most one;
    /// NoMemory where an allocation is refused. It is looked up in `tables`; a module that finds
    /// its connections faster says so.
    fn row_by_op(&self, op: u32) -> Result<Option<HopRow>, NoMemory>
        ensures { IfOk result (λ row. row
            ≡ option_map hop_row_of (hop_by_op (state_of self.now).hops op)) }
    {
        Ok(self.tables()?.hops.by_op(op))
    }

    /// The row of the connection of which this is the own id towards the originator, on the link by
    /// this port to this address, in the same way. There is at most one.
    fn row_by_up(
        &self,
        id: u32,
        port: PortNumber,
        address: &Address,
    ) -> Result<Option<HopRow>, NoMemory>
        ensures { IfOk result (λ row. row ≡ option_map hop_row_of
            (hop_by_up (state_of self.now).hops id port address.now)) }
    {
        Ok(self.tables()?.hops.by_up(id, port, address))
    }
}

impl Module for Box<dyn Module + Send> {
    ghost config_of = { λ b. (Module-box b).config_of b.value };

    ghost state_of = { λ b. (Module-box b).state_of b.value };

    ghost paired = { λ b. (Module-box b).paired b.value };

    ghost rooms = { λ b. (Module-box b).rooms b.value };

    fn config(&self) -> &ModuleConfig {
        let inner = self.as_ref();
        inner.config()
    }

    fn step(&mut self, event: Event) -> Result<Vec<Output>, StepFault> {
        let inner = self.as_mut();
        inner.step(event)
    }

    fn tables(&self) -> Result<Tables, NoMemory> {
        let inner = self.as_ref();
        inner.tables()
    }

    fn row_by_op(&self, op: u32) -> Result<Option<HopRow>, NoMemory> {
        let inner = self.as_ref();
        inner.row_by_op(op)
    }

    fn row_by_up(
        &self,
        id: u32,
        port: PortNumber,
        address: &Address,
    ) -> Result<Option<HopRow>, NoMemory> {
        let inner = self.as_ref();
        inner.row_by_up(id, port, address)
    }
}
