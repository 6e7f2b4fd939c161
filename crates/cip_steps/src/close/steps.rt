//! The close group: Forward_Close at a router, at an end and at its originator.
ghost use Rattle.std.specs.Prelude.{◌≡◌, ◌≤◌, ◌∷◌, [], IfOk, None};
ghost use Rattle.cip_message.specs.Received.{IsReceived};
ghost use Rattle.cip_close.specs.declared.request.TheConstants.{FORWARD_CLOSE};
ghost use Rattle.cip_close.specs.Reading.{close_of};
ghost use Rattle.cip_close.specs.CloseAt.{close_at};
ghost use Rattle.cip_pending.specs.Pendings.{refusal};
ghost use Rattle.cip_routing.specs.CloseRows.{close_row, ClosedAtTheEnd};
ghost use Rattle.cip_pending.specs.declared.entry.Kind.TheVariants.{Closing};
ghost use Rattle.cip_routing.specs.Effects.{Removes, Forwards};
ghost use Rattle.cip_routing.specs.Table.{close_on, close_below, close_effects, close_data_effects};
ghost use Rattle.cip_routing.specs.Table.{with_spending};
ghost use Rattle.cip_steps.specs.Code.Reacts.{Reacts, CloseCame, outgoing_of, with_bytes};
ghost use Rattle.cip_steps.specs.Code.Ready.{CanSpend, IsAsked};
ghost use Rattle.cip_steps.specs.Code.Does.{Handles, Handled};
ghost use Rattle.cip_steps.specs.Code.Device.{state_of_device};

use crate::close::rows::CloseDecision;
use crate::device::Device;
use crate::making::{Making, Outgoing};
use crate::reaction::{Edit, Reaction};
use cip_base::{Address, Bytes, NoMemory, PortNumber};
use cip_close::{CloseReply, CloseView, read_close, write_close, write_close_reply};
use cip_event::{Body, Output};
use cip_pending::{Entry, Kind, UpSide};
use cip_routing::{close_failed, reply_to, unread_close};
use cip_segment::PathView;
use std::alloc::Global;

// What goes on: one tick less, and what is left of the path.
#[inline(always)]
fn close_on(
    alloc: Global,
    making: Making,
    view: &CloseView<'_>,
    rest: PathView<'_>,
) -> Result<Outgoing, NoMemory>
    requires { 2 ≤ view.now.fields.timing.ticks }
    ensures { IfOk result (λ made. made ≡ outgoing_of making
        (close_on (close_of view.now) rest.entry.bytes.now) Edit.ClosedOn) }
{
    match making {
        Making::Anew => {
            let mut fields = view.fields;
            fields.timing.ticks -= 1;
            Ok(Outgoing::anew(write_close(alloc, &fields, rest)?))
        }
        Making::Edited => Ok(Outgoing::edited(alloc, Edit::ClosedOn)),
    }
}

impl Device {
    // The connection is removed, and its Forward_Close goes on by a link as these bytes.
    fn close_below(
        &mut self,
        up: UpSide,
        view: &CloseView<'_>,
        port: PortNumber,
        address: Address,
        bytes: Bytes,
    ) -> Output
        requires spend { CanSpend self.old up }
        requires pending { refusal self.old.pendings ≡ None }
        ensures { Handled self.old self.new (with_spending up (Removes view.now.fields.triad
            ∷ Forwards (with_bytes (close_below up (close_of view.now) port address []) bytes)
            (Closing view.now.fields.triad) ∷ [])) (result ∷ []) }
    {
        let timing = view.fields.timing;
        let deadline = self.clock.after_ticks(timing.tick % 16, timing.ticks);
        self.spend_for(&up);
        self.removes(&view.fields.triad);
        let entry = Entry {
            up,
            port,
            address: address.copy(),
            deadline,
            words: view.path.words(),
            kind: Kind::Closing(view.fields.triad),
        };
        let number = self.forwards(entry);
        Output::Send {
            port,
            to: address,
            body: Body::Request { number, bytes },
        }
    }

    // The connection ends here, and is removed.
    fn close_at_end(&mut self, up: UpSide, view: &CloseView<'_>) -> Result<Output, NoMemory>
        requires spend { CanSpend self.old up }
        ensures { Handles self.old self.new (with_spending up
            (close_effects up (close_of view.now) ClosedAtTheEnd)) result }
    {
        let triad = view.fields.triad;
        let reply = CloseReply { triad, reply: &[] };
        let bytes = write_close_reply(self.alloc, &reply)?;
        self.spend_for(&up);
        self.removes(&triad);
        Ok(reply_to(up, bytes))
    }

    /// A Forward_Close that was read. `sender` is whom it has to come from: a device, or the op of
    /// the Open.
    #[inline(always)]
    pub(crate) fn close(
        &mut self,
        making: Making,
        up: UpSide,
        sender: &UpSide,
        view: &CloseView<'_>,
    ) -> Result<Reaction, NoMemory>
        requires spend { CanSpend self.old up }
        ensures { Reacts making (CloseCame (close_of view.now)) self.old self.new
            (with_spending up (close_effects up (close_of view.now)
            (close_row (state_of_device self.old) sender.now (close_of view.now)))) result }
    {
        match self.close_row(sender, view) {
            CloseDecision::Refuses(refusal) => {
                let words = view.path.words();
                let bytes = close_failed(self.alloc, refusal.status(), view.fields.triad, words)?;
                self.spend_for(&up);
                Ok(Reaction::Whole(reply_to(up, bytes)))
            }
            CloseDecision::Forwarded {
                port,
                address,
                rest,
            } => {
                let made = close_on(self.alloc, making, view, rest)?;
                let output = self.close_below(up, view, port, address, made.bytes);
                Ok(Reaction::with(output, made.edit))
            }
            CloseDecision::ClosedAtTheEnd => { Ok(Reaction::Whole(self.close_at_end(up, view)?)) }
        }
    }

    /// A Forward_Close, by its data.
    #[inline(always)]
    pub(crate) fn forward_close(
        &mut self,
        making: Making,
        up: UpSide,
        data_: &[u8],
    ) -> Result<Reaction, NoMemory>
        requires { IsAsked up }
        ensures { Reacts making (IsReceived FORWARD_CLOSE data_.now) self.old self.new
            (close_data_effects (state_of_device self.old) up data_.now (close_at data_.now))
            result }
    {
        match read_close(data_) {
            Ok(view) => {
                let sender = up.copy();
                self.close(making, up, &sender, &view)
            }
            Err(fault) => {
                let bytes = unread_close(self.alloc, data_, fault)?;
                Ok(Reaction::Whole(reply_to(up, bytes)))
            }
        }
    }
}
