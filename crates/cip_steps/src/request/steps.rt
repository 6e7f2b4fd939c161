//! The request group: a request that came in by a port.
ghost use Rattle.std.specs.Prelude.{◌≡◌};
ghost use Rattle.cip_pending.specs.declared.entry.UpSide.TheVariants.{Link};
ghost use Rattle.cip_pending.specs.declared.entry.UpSide.{UpSide as UpSides};
ghost use Rattle.cip_routing.specs.RequestRows.{request_row};
ghost use Rattle.cip_steps.specs.Code.Device.{state_of_device};
ghost use Rattle.cip_steps.specs.Code.Reacts.{Reacts};
ghost use Rattle.cip_routing.specs.Table.{request_effects};

use crate::device::Device;
use crate::making::Making;
use crate::reaction::Reaction;
use cip_base::{Address, NoMemory, PortNumber};
use cip_event::{Dropped, Output};
use cip_pending::UpSide;
use cip_routing::{RequestDecision, failure, reply_to, request_row};

impl Device {
    /// A request that came in by a port. NoMemory where an allocation is refused: then nothing has
    /// changed.
    #[inline(always)]
    pub fn request(
        &mut self,
        making: Making,
        port: PortNumber,
        from: &Address,
        number: u32,
        bytes: &[u8],
    ) -> Result<Reaction, NoMemory>
        ensures { Reacts making (λ came. came ≡ bytes.now) self.old self.new
            (request_effects self.old.config (state_of_device self.old)
            (Link port from.now number) (request_row self.old.config port bytes.now)) result }
    {
        let up = UpSide::Link {
            port,
            address: from.copy(),
            number,
        };
        match request_row(self.config.settings(), port, bytes) {
            RequestDecision::UnknownPortOrTooLong | RequestDecision::NotARequest => {
                Ok(Reaction::Whole(Output::Dropped(Dropped::Malformed)))
            }
            RequestDecision::Refuses { service, refusal } => {
                let bytes = failure(self.alloc, service, refusal.status())?;
                Ok(Reaction::Whole(reply_to(up, bytes)))
            }
            RequestDecision::UnconnectedSend(data_) => self.unconnected_send(making, up, data_),
            RequestDecision::ForwardOpen { large, data_ } => {
                self.forward_open(making, up, large, data_)
            }
            RequestDecision::ForwardClose(data_) => self.forward_close(making, up, data_),
            RequestDecision::Target(request) => self.answer_here(up, request),
        }
    }
}
