//! The open group: Forward_Open and Large_Forward_Open at a router, at an end and at its
//! originator.
ghost use Rattle.std.specs.Prelude.{◌≡◌, ◌≤◌, ◌<◌, ◌∷◌, [], IfOk, None, Ok};
ghost use Rattle.std.specs.Prelude.{true};
ghost use Rattle.cip_message.specs.Received.{IsReceived};
ghost use Rattle.cip_open.specs.Kinds.{open_service};
ghost use Rattle.cip_open.specs.Open.{FitWidth};
ghost use Rattle.cip_open.specs.Reading.{open_of};
ghost use Rattle.cip_open.specs.OpenAt.{open_at};
ghost use Rattle.cip_open.specs.declared.request.OpenView.{OpenView as Views};
ghost use Rattle.cip_pending.specs.Pendings.{refusal};
ghost use Rattle.cip_hops.specs.Hops as hops;
ghost use Rattle.cip_hops.specs.Sides.{up_is_link};
ghost use Rattle.cip_target.specs.Ends.{row_at};
ghost use Rattle.cip_routing.specs.OpenRows.{open_row, opening_with, ids_if_forwarded};
ghost use Rattle.cip_routing.specs.OpenRows.{Accepted};
ghost use Rattle.cip_hops.specs.declared.opening.HopDown.TheVariants.{Link as DownLink};
ghost use Rattle.cip_routing.specs.Effects.{Begins};
ghost use Rattle.cip_routing.specs.Table.{up_side_of, open_on, open_below, accepted_bytes};
ghost use Rattle.cip_routing.specs.Table.{open_effects, open_data_effects, with_spending};
ghost use Rattle.cip_steps.specs.Code.Reacts.{Reacts, OpenCame, outgoing_of, with_bytes};
ghost use Rattle.cip_steps.specs.Code.Ready.{CanSpend, IsAsked};
ghost use Rattle.cip_steps.specs.Code.Does.{Handles};
ghost use Rattle.cip_steps.specs.Code.Device.{state_of_device};

use crate::device::Device;
use crate::making::{Making, Outgoing};
use crate::open::rows::OpenDecision;
use crate::reaction::{Edit, Reaction};
use cip_base::{Address, Bytes, NoMemory, PortNumber};
use cip_event::{Body, Output};
use cip_hops::{HopDown, HopUp, Opening};
use cip_open::{
    OpenFields, OpenReply, OpenView, open_params, read_open_of, write_open, write_open_reply,
};
use cip_pending::{Entry, Kind, UpSide};
use cip_routing::{open_failed, reply_to, unread_open};
use cip_segment::{Path, PathView};
use cip_target::EndLink;
use std::alloc::Global;

/// The up side of a connection that this side asked for.
pub(crate) fn up_side_of(up: &UpSide, to_id: u32) -> HopUp
    ensures { result ≡ up_side_of up.now to_id }
{
    match up {
        UpSide::Link { port, address, .. } => HopUp::Link {
            port: *port,
            address: address.copy(),
            their_id: to_id,
        },
        UpSide::Local { op } => HopUp::Local { op: *op },
    }
}

// What is opened.
fn opening_with(up: HopUp, down: HopDown, fields: &OpenFields, path: Path) -> Opening
    ensures { result ≡ opening_with up down (record { fields = fields.now; path = path }) }
{
    Opening {
        triad: fields.triad,
        up,
        down,
        path,
        ot_size: open_params(fields.large, fields.ot_params).size,
        to_size: open_params(fields.large, fields.to_params).size,
        ot_rpi: fields.ot_rpi,
        to_rpi: fields.to_rpi,
        multiplier: fields.multiplier,
        class: fields.transport % 16,
        large: fields.large,
    }
}

// What goes on: one tick less, the own down id as T to O id, and what is left of the path.
#[inline(always)]
fn open_on(
    alloc: Global,
    making: Making,
    view: &OpenView<'_>,
    down_id: u32,
    rest: PathView<'_>,
) -> Result<Outgoing, NoMemory>
    requires ticks { 2 ≤ view.now.fields.timing.ticks }
    requires width { FitWidth view.now.fields }
    ensures { IfOk result (λ made. made ≡ outgoing_of making
        (open_on (open_of view.now) down_id rest.entry.bytes.now) (Edit.OpenedOn down_id)) }
{
    match making {
        Making::Anew => {
            let mut fields = view.fields;
            fields.timing.ticks -= 1;
            fields.to_id = down_id;
            Ok(Outgoing::anew(write_open(alloc, &fields, rest)?))
        }
        Making::Edited => Ok(Outgoing::edited(alloc, Edit::OpenedOn { down_id })),
    }
}

// The success of an end: its own up id, and no application reply.
fn accepted(alloc: Global, fields: &OpenFields, up_id: u32) -> Result<Bytes, NoMemory>
    ensures { IfOk result (λ b. b ≡ accepted_bytes (record { fields = fields.now; path = [] })
        up_id) }
{
    let reply = OpenReply {
        ot_id: up_id,
        to_id: fields.to_id,
        triad: fields.triad,
        ot_api: fields.ot_rpi,
        to_api: fields.to_rpi,
        reply: &[],
        large: fields.large,
    };
    write_open_reply(alloc, &reply)
}

impl Device {
    // The connection goes on by a link, and its request as these bytes.
    fn begin_below(
        &mut self,
        up: UpSide,
        view: &OpenView<'_>,
        port: PortNumber,
        address: Address,
        bytes: Bytes,
    ) -> Result<Output, NoMemory>
        requires spend { CanSpend self.old up }
        requires multiplier { view.now.fields.multiplier < 8 }
        requires pending { refusal self.old.pendings ≡ None }
        requires room { hops.refusal self.old.hops view.now.fields.triad
            (ids_if_forwarded (up_side_of up view.now.fields.to_id)) ≡ None }
        ensures { Handles self.old self.new (with_spending up (Begins (with_bytes
            (open_below (state_of_device self.old) up (open_of view.now) port address []) bytes)
            (opening_with (up_side_of up view.now.fields.to_id) (DownLink port address)
            (open_of view.now)) ∷ [])) result }
    {
        let path = view.path.to_path(self.alloc)?;
        let timing = view.fields.timing;
        let deadline = self.clock.after_ticks(timing.tick % 16, timing.ticks);
        let down = HopDown::Link {
            port,
            address: address.copy(),
        };
        let opening = opening_with(up_side_of(&up, view.fields.to_id), down, &view.fields, path);
        self.spend_for(&up);
        let entry = Entry {
            up,
            port,
            address: address.copy(),
            deadline,
            words: view.path.words(),
            kind: Kind::opening(view.fields.large, view.fields.triad),
        };
        let number = self.begins(entry, opening);
        Ok(Output::Send {
            port,
            to: address,
            body: Body::Request { number, bytes },
        })
    }

    // The connection ends here.
    fn open_at_end(
        &mut self,
        up: UpSide,
        view: &OpenView<'_>,
        link: EndLink,
    ) -> Result<Output, NoMemory>
        requires spend { CanSpend self.old up }
        requires multiplier { view.now.fields.multiplier < 8 }
        requires link { up_is_link (up_side_of up view.now.fields.to_id) ≡ true }
        requires room { hops.refusal self.old.hops view.now.fields.triad 1 ≡ None }
        requires fits { row_at self.old.target (open_of view.now) ≡ Ok link }
        ensures { Handles self.old self.new (with_spending up
            (open_effects (state_of_device self.old) up (open_of view.now) (Accepted link)))
            result }
    {
        let bytes = accepted(self.alloc, &view.fields, self.hops.last() + 1)?;
        let path = view.path.to_path(self.alloc)?;
        let down = HopDown::End {
            config: u32::from(link.config),
            consume: u32::from(link.consume),
            produce: u32::from(link.produce),
        };
        let opening = opening_with(up_side_of(&up, view.fields.to_id), down, &view.fields, path);
        self.accepts(opening, view, &link);
        Ok(reply_to(up, bytes))
    }

    /// An open, large or not, that was read.
    #[inline(always)]
    pub(crate) fn open(
        &mut self,
        making: Making,
        up: UpSide,
        view: &OpenView<'_>,
    ) -> Result<Reaction, NoMemory>
        requires spend { CanSpend self.old up }
        requires width { FitWidth view.now.fields }
        ensures { Reacts making (OpenCame (open_of view.now)) self.old self.new (with_spending up
            (open_effects (state_of_device self.old) up (open_of view.now)
            (open_row self.old.config (state_of_device self.old)
            (up_side_of up view.now.fields.to_id) (open_of view.now)))) result }
    {
        let asker = up_side_of(&up, view.fields.to_id);
        match self.open_row(&asker, view) {
            OpenDecision::Refuses(refusal) => {
                let words = view.path.words();
                let OpenFields { large, triad, .. } = view.fields;
                let bytes = open_failed(self.alloc, large, refusal.status(), triad, words)?;
                self.spend_for(&up);
                Ok(Reaction::Whole(reply_to(up, bytes)))
            }
            OpenDecision::Forwarded {
                port,
                address,
                rest,
            } => {
                let down_id = self.hops.last() + 1;
                let made = open_on(self.alloc, making, view, down_id, rest)?;
                let output = self.begin_below(up, view, port, address, made.bytes)?;
                Ok(Reaction::with(output, made.edit))
            }
            OpenDecision::Accepted(link) => {
                Ok(Reaction::Whole(self.open_at_end(up, view, link)?))
            }
        }
    }

    /// An open, large or not, by its data.
    #[inline(always)]
    pub(crate) fn forward_open(
        &mut self,
        making: Making,
        up: UpSide,
        large: bool,
        data_: &[u8],
    ) -> Result<Reaction, NoMemory>
        requires { IsAsked up }
        ensures { Reacts making (IsReceived (open_service large) data_.now) self.old self.new
            (open_data_effects self.old.config (state_of_device self.old) up
            large data_.now (open_at large data_.now)) result }
    {
        match read_open_of(large, data_) {
            Ok(view) => self.open(making, up, &view),
            Err(fault) => {
                let bytes = unread_open(self.alloc, large, data_, fault)?;
                Ok(Reaction::Whole(reply_to(up, bytes)))
            }
        }
    }
}
