//! The tick group: time that goes by.
ghost use Rattle.std.specs.Prelude.{◌≡◌, ◌++◌, [], IsTrue};
ghost use Rattle.cip_pending.specs.Pendings as pendings;
ghost use Rattle.cip_hops.specs.Hops.{due};
ghost use Rattle.cip_routing.specs.Effects.{applied};
ghost use Rattle.cip_routing.specs.Table.{pending_time_outs, hop_time_outs};
ghost use Rattle.cip_steps.specs.Code.Ticks.{TickGives};
ghost use Rattle.cip_steps.specs.Code.Device.{state_of_device};

use crate::device::Device;
use crate::tick::rows::timed_out_all;
use cip_base::Ms;
use cip_event::Output;

/// Why a tick does not happen: nothing has changed.
#[derive(Clone, Copy, PartialEq, Eq)]
pub enum TickFault {
    /// An allocation was refused.
    OutOfMemory,
    /// The time would pass its last value.
    Full,
}

impl Device {
    // Whether nothing is due at this time. The tables are looked at where it is not known.
    fn is_quiet(&mut self, now: u64) -> bool
        ensures pendings { IsTrue result → pendings.due now self.old.pendings ≡ [] }
        ensures hops { IsTrue result → due now self.old.hops ≡ [] }
        ensures after { state_of_device self.new ≡ state_of_device self.old }
        ensures config { self.new.config ≡ self.old.config }
    {
        if !self.pendings.is_quiet(now) {
            self.pendings.look_ahead();
        }
        if !self.hops.is_quiet(now) {
            self.hops.look_ahead();
        }
        self.pendings.is_quiet(now) && self.hops.is_quiet(now)
    }

    /// So many milliseconds go by: what is due goes up, in rising number, then what was silent is
    /// gone, in rising triad. Full where the time would pass its last value, looked at first, and
    /// OutOfMemory where an allocation is refused: then nothing has changed.
    pub fn tick(&mut self, by: Ms) -> Result<Vec<Output>, TickFault>
        ensures gives { TickGives (λ v. v.items) self.old.config (state_of_device self.old)
            (state_of_device self.new) by result }
        ensures config { self.new.config ≡ self.old.config }
    {
        let mut clock = self.clock;
        let Ok(()) = clock.advance(by) else {
            return Err(TickFault::Full);
        };
        let now = clock.now();
        if self.is_quiet(now) {
            self.clock = clock;
            return Ok(Vec::new(self.alloc));
        }
        let Ok(outputs) = timed_out_all(self.alloc, &self.pendings, &self.hops, now) else {
            return Err(TickFault::OutOfMemory);
        };
        self.clock = clock;
        self.clear_due(now);
        Ok(outputs)
    }

    // Takes out the pendings that are due.
    fn clear_pendings(&mut self, now: u64)
        ensures after { state_of_device self.new ≡ applied self.old.config
            (state_of_device self.old) (pending_time_outs now self.old.pendings) }
        ensures hops { due now self.new.hops ≡ due now self.old.hops }
        ensures config { self.new.config ≡ self.old.config }
    {
        while self.time_out_pending(now) {}
    }

    // Takes out the connections that are due.
    fn clear_hops(&mut self, now: u64)
        ensures after { state_of_device self.new ≡ applied self.old.config
            (state_of_device self.old) (hop_time_outs now self.old.hops) }
        ensures config { self.new.config ≡ self.old.config }
    {
        while self.time_out_hop(now) {}
    }

    // Takes out all that are due.
    fn clear_due(&mut self, now: u64)
        ensures after { state_of_device self.new ≡ applied self.old.config
            (state_of_device self.old)
            (pending_time_outs now self.old.pendings ++ hop_time_outs now self.old.hops) }
        ensures config { self.new.config ≡ self.old.config }
    {
        self.clear_pendings(now);
        self.clear_hops(now);
    }
}
