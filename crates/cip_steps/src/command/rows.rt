//! Which row of the command group a command meets.
ghost use Rattle.std.specs.Prelude.{◌≡◌, ◌==◌, ◌≤◌, Some, length, slice_index};
ghost use Rattle.std.specs.FinMap as map;
ghost use Rattle.cip_unconnected.specs.Unconnected.{unconnected_bytes};
ghost use Rattle.cip_unconnected.specs.Reading.{unconnected_of};
ghost use Rattle.cip_hops.specs.Hops.{hop_by_op};
ghost use Rattle.cip_target.specs.Assemblies.{size_in};
ghost use Rattle.cip_routing.specs.CommandRows.{op_row, close_command_row, send_row, enter_row};
ghost use Rattle.cip_routing.specs.CommandRows.{set_row, produce_row};
ghost use Rattle.cip_steps.specs.Code.Commands.{Decides, IsNew, CanSend, CanEnter};
ghost use Rattle.cip_steps.specs.Code.Device.{state_of_device};

use crate::device::Device;
use cip_base::{MAX_DATUM, MAX_EMBEDDED, MAX_MESSAGE};
use cip_event::Refused;
use cip_hops::Hop;
use cip_unconnected::{UNCONNECTED_SEND, UnconnectedView};

// How long the message is.
fn message_len(view: UnconnectedView<'_>) -> usize
    ensures { result ≡ length (unconnected_bytes (unconnected_of view.entry)) }
{
    12 + view.request.len() + view.request.len() % 2 + view.route.bytes.len()
}

fn is_reserved(request: &[u8]) -> bool
    ensures { result ≡ (slice_index request.now 0 == UNCONNECTED_SEND) }
{
    match request {
        [service, ..] => *service == UNCONNECTED_SEND,
        [] => false,
    }
}

/// Each row says what a command finds that is taken, and why another is refused.
impl Device {
    /// The row of an Open.
    pub(crate) fn op_row(&self, op: u32) -> Result<(), Refused>
        ensures { Decides (λ u. IsNew (state_of_device self.now) op)
            (op_row (state_of_device self.now) op) result }
    {
        if self.ops.contains(op) {
            Err(Refused::OpUsed)
        } else {
            Ok(())
        }
    }

    /// The row of a Close of the connection that the op `of` opened, which it finds.
    pub(crate) fn close_command_row(&self, op: u32, of: u32) -> Result<&Hop, Refused>
        ensures { Decides (λ hop. hop_by_op self.now.hops of ≡ Some hop.now)
            (close_command_row (state_of_device self.now) op of) result }
    {
        self.op_row(op)?;
        self.hops.by_op(of).ok_or(Refused::NotOpen)
    }

    /// The row of a Send.
    #[tactic(auto, unfolding(cip_routing::specs::CommandRows::send_row))]
    pub(crate) fn send_row(&self, op: u32, view: UnconnectedView<'_>) -> Result<(), Refused>
        ensures { Decides
            (λ u. CanSend (state_of_device self.now) op (unconnected_of view.entry))
            (send_row (state_of_device self.now) op (unconnected_of view.entry)) result }
    {
        if self.ops.contains(op) {
            Err(Refused::OpUsed)
        } else if is_reserved(view.request) {
            Err(Refused::ReservedService)
        } else if view.request.len() > MAX_EMBEDDED || message_len(view) > MAX_MESSAGE {
            Err(Refused::WrongSize)
        } else {
            Ok(())
        }
    }

    /// The row of an Enter by the connection that the op opened, which it finds.
    pub(crate) fn enter_row(&self, of: u32, bytes: &[u8]) -> Result<&Hop, Refused>
        ensures { Decides (λ hop. CanEnter bytes.now (hop_by_op self.now.hops of) hop.now)
            (enter_row bytes.now (hop_by_op self.now.hops of)) result }
    {
        let Some(hop) = self.hops.by_op(of) else {
            return Err(Refused::NotOpen);
        };
        if bytes.len() != usize::from(hop.opening.ot_size) {
            return Err(Refused::WrongSize);
        }
        Ok(hop)
    }

    /// The row of a Set of an assembly.
    pub(crate) fn set_row(&self, instance: u32, bytes: &[u8]) -> Result<(), Refused>
        ensures { Decides (λ u. Unit {0})
            (set_row bytes.now (size_in self.now.target.objects.assemblies instance)) result }
    {
        let Some(assembly) = self.target.assembly(instance) else {
            return Err(Refused::NoInstance);
        };
        if bytes.len() != usize::from(assembly.size) {
            return Err(Refused::WrongSize);
        }
        Ok(())
    }

    /// The row of a Produce of an assembly, whose bytes it finds.
    pub(crate) fn produce_row(&self, instance: u32) -> Result<&[u8], Refused>
        ensures { Decides (λ held.
            (map.get self.now.target.objects.assemblies instance ≡ Some held.now)
            × (length held.now ≤ MAX_DATUM))
            (produce_row (map.get self.now.target.objects.assemblies instance)) result }
    {
        let Some(assembly) = self.target.assembly(instance) else {
            return Err(Refused::NoInstance);
        };
        Ok(self.target.produce(assembly.instance))
    }
}
