//! The reply group: a reply on its way up.
ghost use Rattle.std.specs.Prelude.{◌≡◌, ◌≤◌, ◌%◌, ◌∷◌, [], length, IfOk, IsOk};
ghost use Rattle.std.specs.FinMap as map;
ghost use Rattle.cip_open.specs.Reading.{success_of};
ghost use Rattle.cip_open.specs.GoesOn.{success_with, IsOpenSuccess};
ghost use Rattle.cip_routing.specs.Effects.{succeeded};
ghost use Rattle.cip_routing.specs.ReplyRows.{reply_row};
ghost use Rattle.cip_steps.specs.Code.Device.{state_of_device};
ghost use Rattle.cip_steps.specs.Code.Reacts.{Reacts, IsMade, outgoing_of};
ghost use Rattle.cip_routing.specs.Table.{reply_effects};

use crate::device::Device;
use crate::making::{Making, Outgoing};
use crate::reaction::{Edit, Reaction};
use cip_base::{Address, Bytes, NoMemory, PortNumber, Triad};
use cip_event::{Dropped, Output};
use cip_hops::HopUp;
use cip_open::{OpenReply, write_open_reply};
use cip_routing::{ReplyDecision, is_malformed, reply_row, reply_to};
use std::alloc::Global;

// The success of an open, large or not, with these ids.
#[inline(always)]
fn success_with(
    alloc: Global,
    making: Making,
    large: bool,
    success: OpenReply<'_>,
    up_id: u32,
    their_id: u32,
) -> Result<Outgoing, NoMemory>
    requires even { length success.reply.now % 2 ≡ 0 }
    requires most { length success.reply.now ≤ 510 }
    ensures made { IfOk result (λ made. made ≡ outgoing_of making
        (success_with large (success_of success.entry) up_id their_id)
        (Edit.SuccessUp up_id their_id)) }
    ensures edited { making ≡ Making.Edited → IsOk result }
{
    match making {
        Making::Anew => {
            let mut reply = success;
            reply.ot_id = up_id;
            reply.to_id = their_id;
            reply.large = large;
            Ok(Outgoing::anew(write_open_reply(alloc, &reply)?))
        }
        Making::Edited => Ok(Outgoing::edited(alloc, Edit::SuccessUp { up_id, their_id })),
    }
}

// The bytes as they came.
#[inline(always)]
fn as_they_came(alloc: Global, making: Making, bytes: &[u8]) -> Result<Outgoing, NoMemory>
    ensures made { IfOk result (λ made. made ≡ outgoing_of making bytes.now Edit.AsTheyCame) }
    ensures edited { making ≡ Making.Edited → IsOk result }
{
    match making {
        Making::Anew => Ok(Outgoing::anew(Bytes::of(Vec::from_slice(alloc, bytes)?))),
        Making::Edited => Ok(Outgoing::edited(alloc, Edit::AsTheyCame)),
    }
}

impl Device {
    // A success as it goes up: with the own up id, and the T to O id of the device above; a command
    // gets the bytes as received.
    fn success_up(
        &self,
        making: Making,
        large: bool,
        triad: &Triad,
        bytes: &[u8],
        success: OpenReply<'_>,
    ) -> Result<Outgoing, NoMemory>
        requires even { length success.reply.now % 2 ≡ 0 }
        requires most { length success.reply.now ≤ 510 }
        ensures made { IfOk result (λ made. IsMade making
            (λ came. came ≡ bytes.now × IsOpenSuccess large came (success_of success.entry))
            (succeeded large (map.get self.now.hops.held triad.now) bytes.now
            (success_of success.entry)) made) }
        ensures edited { making ≡ Making.Edited → IsOk result }
    {
        if let Some(held) = self.hops.held(triad) {
            if let HopUp::Link { their_id, .. } = &held.opening().up {
                let up_id = held.ids().up.unwrap_or(0);
                return success_with(self.alloc, making, large, success, up_id, *their_id);
            }
        }
        as_they_came(self.alloc, making, bytes)
    }

    /// A reply that came in by a port from an address. It takes no memory where its bytes are
    /// edited; else NoMemory where an allocation is refused: then nothing has changed.
    #[tactic(auto, unfolding(cip_routing::specs::ReplyRows::reply_row))]
    #[inline(always)]
    pub fn reply(
        &mut self,
        making: Making,
        port: PortNumber,
        from: &Address,
        number: u32,
        bytes: &[u8],
    ) -> Result<Reaction, NoMemory>
        ensures reacts { Reacts making (λ came. came ≡ bytes.now) self.old self.new
            (reply_effects number bytes.now (reply_row self.old.config (state_of_device self.old)
            port from.now number bytes.now)) result }
        ensures edited { making ≡ Making.Edited → IsOk result }
    {
        if is_malformed(self.config.settings(), port, bytes) {
            return Ok(Reaction::Whole(Output::Dropped(Dropped::Malformed)));
        }
        let Some(entry) = self.pendings.look(number, port, from) else {
            return Ok(Reaction::Whole(Output::Dropped(Dropped::Late)));
        };
        let kind = entry.kind;
        match reply_row(kind, bytes) {
            ReplyDecision::Malformed => Ok(Reaction::Whole(Output::Dropped(Dropped::Malformed))),
            ReplyDecision::OpenSucceeded(triad, success) => {
                let made = self.success_up(making, kind.is_large(), &triad, bytes, success)?;
                let Some(up) = self.finishes(number, port, from, &triad, success.ot_id) else {
                    unreachable!()
                };
                Ok(Reaction::with(reply_to(up, made.bytes), made.edit))
            }
            ReplyDecision::PassedUp => {
                let made = as_they_came(self.alloc, making, bytes)?;
                let Some(up) = self.takes(number, port, from) else {
                    unreachable!()
                };
                Ok(Reaction::with(reply_to(up, made.bytes), made.edit))
            }
        }
    }
}
