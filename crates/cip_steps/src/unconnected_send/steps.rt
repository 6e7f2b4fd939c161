//! The unconnected send group: an Unconnected_Send at a router and at its end.
ghost use Rattle.std.specs.Prelude.{◌≡◌, ◌≤◌, ◌<◌, ◌+◌, ◌∷◌, [], length, None, IfOk};
ghost use Rattle.cip_message.specs.Received.{IsReceived};
ghost use Rattle.cip_unconnected.specs.declared.unconnected.TheConstants.{UNCONNECTED_SEND};
ghost use Rattle.cip_unconnected.specs.Reading.{unconnected_of};
ghost use Rattle.cip_unconnected.specs.Unconnected.{Fits};
ghost use Rattle.cip_unconnected.specs.UnconnectedAt.{unconnected_at};
ghost use Rattle.cip_pending.specs.declared.entry.Kind.{Kind as Kinds};
ghost use Rattle.cip_pending.specs.Pendings.{refusal};
ghost use Rattle.cip_routing.specs.Table.{message_on};
ghost use Rattle.cip_steps.specs.Code.Reacts.{Reacts, SendCame, outgoing_of, send_edit};
ghost use Rattle.cip_steps.specs.Code.Reacts.{with_bytes};

use crate::device::Device;
use crate::making::{Making, Outgoing};
use crate::reaction::{Edit, Reaction};
use cip_base::{Address, Bytes, MAX_MESSAGE, NoMemory, PortNumber};
use cip_event::{Body, Output};
use cip_pending::{Entry, Kind, UpSide};
use cip_routing::{
    UnconnectedDecision, message_anew, reply_to, unconnected_failure, unconnected_row, unread_row,
};
use cip_segment::PathView;
use cip_unconnected::{UnconnectedView, read_unconnected, route_words};
use std::alloc::Global;

// What goes on: the embedded request itself where no path is left, else an Unconnected_Send with
// what is left of its route and one tick less.
#[inline(always)]
fn message_on(
    alloc: Global,
    making: Making,
    view: UnconnectedView<'_>,
    rest: PathView<'_>,
) -> Result<Outgoing, NoMemory>
    requires fits { Fits (unconnected_of view) }
    requires shorter { length rest.bytes.now ≤ length view.route.bytes.now }
    requires ticks { 2 ≤ view.timing.ticks }
    ensures { IfOk result (λ made. made ≡ outgoing_of making
        (message_on (unconnected_of view.entry) rest.entry.bytes.now)
        (send_edit rest.entry.bytes.now)) }
{
    match making {
        Making::Anew => Ok(Outgoing::anew(message_anew(alloc, view, rest)?)),
        Making::Edited if rest.bytes.is_empty() => Ok(Outgoing::edited(alloc, Edit::Unwrapped)),
        Making::Edited => Ok(Outgoing::edited(alloc, Edit::SentOn)),
    }
}

impl Device {
    ghost use Rattle.cip_steps.specs.Code.Does.{Handled};
    ghost use Rattle.cip_routing.specs.Effects.{Forwards};
    ghost use Rattle.cip_routing.specs.Table.{send_below};

    // An Unconnected_Send goes on as these bytes, under the next number.
    fn send_on(
        &mut self,
        up: UpSide,
        view: UnconnectedView<'_>,
        port: PortNumber,
        address: Address,
        bytes: Bytes,
    ) -> Output
        requires room { refusal self.old.pendings ≡ None }
        ensures handled { Handled self.old self.new (Forwards (with_bytes
            (send_below up (unconnected_of view.entry) port address []) bytes)
            Kinds.Unconnected ∷ []) (result ∷ []) }
        ensures ops { self.new.ops ≡ self.old.ops }
    {
        let deadline = self
            .clock
            .after_ticks(view.timing.tick % 16, view.timing.ticks);
        let to = address.copy();
        let words = view.route.words();
        let entry = Entry {
            up,
            port,
            address,
            deadline,
            words,
            kind: Kind::Unconnected,
        };
        let number = self.forwards(entry);
        Output::Send {
            port,
            to,
            body: Body::Request { number, bytes },
        }
    }
}

impl Device {
    ghost use Rattle.cip_steps.specs.Code.Device.{state_of_device};
    ghost use Rattle.cip_routing.specs.UnconnectedRows.{unconnected_row};
    ghost use Rattle.cip_routing.specs.Table.{unconnected_effects, unconnected_data_effects};

    /// An Unconnected_Send that was read.
    #[inline(always)]
    pub(crate) fn unconnected(
        &mut self,
        making: Making,
        up: UpSide,
        view: UnconnectedView<'_>,
    ) -> Result<Reaction, NoMemory>
        requires { Fits (unconnected_of view) }
        ensures reacts { Reacts making (SendCame (unconnected_of view.entry)) self.old self.new
            (unconnected_effects up (unconnected_of view.entry)
            (unconnected_row self.old.config self.old.pendings (unconnected_of view.entry)))
            result }
        ensures ops { self.new.ops ≡ self.old.ops }
    {
        match unconnected_row(self.config.settings(), &self.pendings, view) {
            UnconnectedDecision::Refuses(refusal) => {
                let words = Some(view.route.words());
                let bytes = unconnected_failure(self.alloc, refusal, words)?;
                Ok(Reaction::Whole(reply_to(up, bytes)))
            }
            UnconnectedDecision::AnsweredHere(request) => self.answer_here(up, request),
            UnconnectedDecision::Forwarded {
                port,
                address,
                rest,
            } => {
                let made = message_on(self.alloc, making, view, rest)?;
                let output = self.send_on(up, view, port, address, made.bytes);
                Ok(Reaction::with(output, made.edit))
            }
        }
    }

    /// An Unconnected_Send, by its data.
    #[inline(always)]
    pub(crate) fn unconnected_send(
        &mut self,
        making: Making,
        up: UpSide,
        data_: &[u8],
    ) -> Result<Reaction, NoMemory>
        requires { 6 + length data_.now ≤ MAX_MESSAGE }
        ensures { Reacts making (IsReceived UNCONNECTED_SEND data_.now) self.old self.new
            (unconnected_data_effects self.old.config (state_of_device self.old) up data_.now
            (unconnected_at data_.now)) result }
    {
        match read_unconnected(data_) {
            Ok(view) => self.unconnected(making, up, view),
            Err(fault) => {
                let refusal = unread_row(data_, fault);
                let bytes = unconnected_failure(self.alloc, refusal, route_words(data_))?;
                Ok(Reaction::Whole(reply_to(up, bytes)))
            }
        }
    }
}
