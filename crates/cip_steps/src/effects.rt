//! The effects of the routing table, carried out one by one. None takes memory.
ghost use Rattle.std.specs.Prelude.{◌≡◌, ◌<◌, [], true, false, None, Some, is_some, if◌then◌else◌};
ghost use Rattle.std.specs.Prelude.{IsTrue, OnOk};
ghost use Rattle.std.specs.Option.{ForSome, option_map};
ghost use Rattle.std.specs.FinMap as map;
ghost use Rattle.std.specs.Vec.{vec_len, vec_capacity};
ghost use Rattle.cip_open.specs.Reading.{open_of};
ghost use Rattle.cip_pending.specs.Kinds.{opened_triad};
ghost use Rattle.cip_pending.specs.Pendings.{refusal, added, without, waiting_at};
ghost use Rattle.cip_base.specs.declared.triad.Triad.{Triad as Triads};
ghost use Rattle.cip_hops.specs.Hops.{begun, finished, HasId};
ghost use Rattle.cip_routing.specs.Code.Plans.{own_id};
ghost use Rattle.cip_hops.specs.Sides.{down_is_link, up_is_link};
ghost use Rattle.cip_target.specs.Ends.{row_at, configured};
ghost use Rattle.cip_routing.specs.State.{is_spent, spent_with};
ghost use Rattle.cip_routing.specs.Resets.{can_reset, reset_state};
ghost use Rattle.cip_routing.specs.Effects.{applied, given_up_of, given_up, removed, renewed};
ghost use Rattle.cip_routing.specs.Effects.{recounted, overwritten};
ghost use Rattle.cip_routing.specs.Code.Fit.{given_back};
ghost use Rattle.cip_steps.specs.Code.Device.{state_of_device};
ghost use Rattle.cip_routing.specs.Table.{with_spending};
ghost use Rattle.cip_steps.specs.Code.Ready.{IsReady, CanSpend};
ghost use Rattle.cip_routing.specs.OpenRows.{end_down};
ghost use Rattle.cip_routing.specs.Paired.{IsOther};

use crate::device::Device;
use cip_base::{Address, NoMemory, PortNumber, Triad};
use cip_hops::{HopDown, HopTable, Opening, Side};
use cip_open::OpenView;
use cip_pending::{Entry, Kind, UpSide};
use cip_target::{EndLink, Target};

// What a connection owned here is given back.
fn release(target: &mut Target, down: &HopDown)
    ensures after { target.new ≡ given_back down.now target.old }
    ensures objects { target.new.objects ≡ target.old.objects }
{
    if let HopDown::End { consume, .. } = down {
        if let Some(assembly) = target.assembly(*consume) {
            target.release(assembly.instance);
        }
    }
}

// What a pending was opening goes with it.
fn give_up(hops: &mut HopTable, kind: Kind)
    ensures { hops.new ≡ given_up_of kind hops.old }
{
    if let Some(triad) = kind.opened_triad() {
        let _opening = hops.abandon(&triad);
    }
}

impl Device {
    /// What a command does uses its op up.
    pub(crate) fn spend_for(&mut self, up: &UpSide)
        requires { CanSpend self.old up.now }
        ensures after { state_of_device self.new ≡ applied self.old.config
            (state_of_device self.old) (with_spending up.now []) }
        ensures config { self.new.config ≡ self.old.config }
        ensures target { self.new.target ≡ self.old.target }
    {
        if let UpSide::Local { op } = up {
            self.spends(*op);
        }
    }

    /// Makes room for one op more, and changes nothing else.
    pub(crate) fn reserves_op(&mut self) -> Result<(), NoMemory>
        ensures room { OnOk result (vec_len self.new.ops.ops < vec_capacity self.new.ops.ops) }
        ensures state { state_of_device self.new ≡ state_of_device self.old }
        ensures config { self.new.config ≡ self.old.config }
    {
        self.ops.reserve()
    }

    /// Uses up an op, for which there is room.
    pub(crate) fn spends(&mut self, op: u32)
        requires room { vec_len self.old.ops.ops < vec_capacity self.old.ops.ops }
        requires absent { is_spent op self.old.ops.ops.items ≡ false }
        ensures after { state_of_device self.new ≡ record (state_of_device self.old)
            { ops = spent_with op self.old.ops.ops.items } }
        ensures config { self.new.config ≡ self.old.config }
        ensures target { self.new.target ≡ self.old.target }
    {
        self.ops.spend(op);
    }

    /// A request waits that opens no connection. Its number.
    #[inline(always)]
    pub(crate) fn forwards(&mut self, entry: Entry) -> u32
        requires room { refusal self.old.pendings ≡ None }
        requires other { IsOther entry.kind }
        ensures value { result ≡ self.old.pendings.next }
        ensures after { state_of_device self.new ≡ record (state_of_device self.old)
            { pendings = added self.old.pendings entry } }
        ensures config { self.new.config ≡ self.old.config }
        ensures ops { self.new.ops ≡ self.old.ops }
    {
        self.pendings.is_within();
        let Ok(number) = self.pendings.add(entry) else {
            unreachable!()
        };
        number
    }

    /// A connection is opening, and the request waits that opens what is below. Its number.
    pub(crate) fn begins(&mut self, entry: Entry, opening: Opening) -> u32
        requires room { refusal self.old.pendings ≡ None }
        requires kind { opened_triad entry.kind ≡ Some opening.triad }
        requires link { down_is_link opening.down ≡ true }
        requires ready { IsReady self.old opening }
        ensures value { result ≡ self.old.pendings.next }
        ensures after { state_of_device self.new ≡ record (state_of_device self.old)
            { pendings = added self.old.pendings entry; hops = begun self.old.hops opening } }
        ensures config { self.new.config ≡ self.old.config }
    {
        self.pendings.is_within();
        let Ok(number) = self.pendings.add(entry) else {
            unreachable!()
        };
        let Ok(_) = self.hops.begin(opening) else {
            unreachable!()
        };
        number
    }

    /// A connection ends here: it is open at once, and its configuration bytes are written.
    pub(crate) fn accepts(&mut self, opening: Opening, view: &OpenView<'_>, link: &EndLink)
        requires triad { opening.triad ≡ view.now.fields.triad }
        requires up { up_is_link opening.up ≡ true }
        requires down { opening.down ≡ end_down link.now }
        requires ready { IsReady self.old opening }
        requires fits { row_at self.old.target (open_of view.now) ≡ Ok link.now }
        ensures after { state_of_device self.new ≡ record (state_of_device self.old) {
          hops = finished (begun self.old.hops opening) opening.triad 0 self.old.clock;
          assemblies = configured self.old.target.objects.assemblies (open_of view.now)
              link.now;
        } }
        ensures config { self.new.config ≡ self.old.config }
    {
        let triad = opening.triad;
        let now = self.clock.now();
        let Ok(_) = self.hops.begin(opening) else {
            unreachable!()
        };
        self.hops.finish(&triad, 0, now);
        self.target.accept(link, view);
    }

    /// The connection that a pending was opening is open. To whom the reply goes.
    pub(crate) fn finishes(
        &mut self,
        number: u32,
        port: PortNumber,
        from: &Address,
        triad: &Triad,
        their_id: u32,
    ) -> Option<UpSide>
        requires kind { ForSome (waiting_at self.old.pendings number port from.now)
            (λ entry. opened_triad entry.kind ≡ Some triad.now) }
        ensures value { result ≡ option_map (λ entry. entry.up)
            (waiting_at self.old.pendings number port from.now) }
        ensures after { state_of_device self.new ≡ (if is_some result then
            record (state_of_device self.old) {
              pendings = without self.old.pendings number;
              hops =
                  finished self.old.hops triad.now their_id self.old.clock;
            }
            else state_of_device self.old) }
        ensures config { self.new.config ≡ self.old.config }
    {
        let now = self.clock.now();
        let entry = self.pendings.take(number, port, from)?;
        self.hops.finish(triad, their_id, now);
        Some(entry.up)
    }

    /// A pending gets its reply. To whom it goes.
    pub(crate) fn takes(&mut self, number: u32, port: PortNumber, from: &Address) -> Option<UpSide>
        ensures value { result ≡ option_map (λ entry. entry.up)
            (waiting_at self.old.pendings number port from.now) }
        ensures after { state_of_device self.new ≡ (if is_some result then
            record (state_of_device self.old) {
              pendings = without self.old.pendings number;
              hops =
                  given_up (map.get self.old.pendings.entries number) self.old.hops;
            }
            else state_of_device self.old) }
        ensures config { self.new.config ≡ self.old.config }
    {
        let entry = self.pendings.take(number, port, from)?;
        give_up(&mut self.hops, entry.kind);
        Some(entry.up)
    }

    /// The connection of a triad, if one is open, is gone; what it owned here is given back.
    pub(crate) fn removes(&mut self, triad: &Triad)
        ensures after { state_of_device self.new ≡ record (state_of_device self.old)
            { hops = removed self.old.hops triad.now } }
        ensures config { self.new.config ≡ self.old.config }
        ensures pendings { self.new.pendings ≡ self.old.pendings }
    {
        if let Some(hop) = self.hops.remove(triad) {
            release(&mut self.target, &hop.opening.down);
        }
    }

    /// The whole module is reset, for which there is an incarnation.
    pub(crate) fn resets(&mut self)
        requires { IsTrue (can_reset (state_of_device self.old)) }
        ensures after { state_of_device self.new ≡ reset_state (state_of_device self.old) }
        ensures config { self.new.config ≡ self.old.config }
        ensures ops { self.new.ops ≡ self.old.ops }
    {
        self.pendings.reset();
        self.hops.reset();
        self.target.reset();
    }

    /// The side of a connection whose own id this is is watched anew from now on.
    #[inline(always)]
    pub(crate) fn renews(&mut self, side: Side, id: u32)
        requires named { (triad : Triads) × HasId (own_id side) self.old.hops id triad }
        ensures after { (triad : Triads) → HasId (own_id side) self.old.hops id triad
            → state_of_device self.new ≡ record (state_of_device self.old)
            { hops = renewed self.old.hops triad side self.old.clock } }
        ensures config { self.new.config ≡ self.old.config }
    {
        self.hops.is_within();
        let now = self.clock.now();
        match side {
            Side::Up => self.hops.touch_up(id, now),
            Side::Down => self.hops.touch_down(id, now),
        }
    }

    /// The count of the last datum, at an end.
    pub(crate) fn counts(&mut self, triad: &Triad, side: Side, count: u16)
        ensures after { state_of_device self.new ≡ record (state_of_device self.old)
            { hops = recounted self.old.hops triad.now side count } }
        ensures config { self.new.config ≡ self.old.config }
    {
        let is_end = match self.hops.by_triad(triad) {
            Some(hop) => !hop.opening.down.is_link(),
            None => false,
        };
        if is_end {
            self.hops.set_count(triad, side, count);
        }
    }

    /// An assembly gets these bytes, if it has as many.
    pub(crate) fn writes(&mut self, instance: u32, bytes: &[u8])
        ensures after { state_of_device self.new ≡ record (state_of_device self.old)
            { assemblies = overwritten self.old.target.objects.assemblies instance bytes.now } }
        ensures config { self.new.config ≡ self.old.config }
    {
        if let Some(assembly) = self.target.assembly(instance) {
            if usize::from(assembly.size) == bytes.len() {
                self.target.consume(assembly.instance, bytes);
            }
        }
    }
}

impl Device {
    ghost use Rattle.std.specs.Prelude.{◌++◌};
    ghost use Rattle.std.specs.Option.{option_to_list};
    ghost use Rattle.cip_pending.specs.Pendings.{first_due, due};
    ghost use Rattle.cip_hops.specs.Hops as hop;
    ghost use Rattle.cip_steps.specs.Code.Ticks.{pending_time_out, hop_time_out};

    /// One due pending goes, that of the least number; whether there was one.
    pub(crate) fn time_out_pending(&mut self, now: u64) -> bool
        ensures value { result ≡ is_some (first_due now self.old.pendings) }
        ensures after { state_of_device self.new ≡ applied self.old.config
            (state_of_device self.old) (pending_time_out (first_due now self.old.pendings)) }
        ensures due { due now self.old.pendings ≡ option_to_list (first_due now self.old.pendings)
            ++ due now self.new.pendings }
        ensures hops { hop.due now self.new.hops ≡ hop.due now self.old.hops }
        ensures config { self.new.config ≡ self.old.config }
    {
        match self.pendings.expire(now) {
            Some((_, entry)) => {
                give_up(&mut self.hops, entry.kind);
                true
            }
            None => false,
        }
    }

    /// One due connection goes, that of the least triad; whether there was one.
    pub(crate) fn time_out_hop(&mut self, now: u64) -> bool
        ensures value { result ≡ is_some (hop.first_due now self.old.hops) }
        ensures after { state_of_device self.new ≡ applied self.old.config
            (state_of_device self.old) (hop_time_out (hop.first_due now self.old.hops)) }
        ensures due { hop.due now self.old.hops ≡ option_to_list (hop.first_due now self.old.hops)
            ++ hop.due now self.new.hops }
        ensures config { self.new.config ≡ self.old.config }
    {
        self.hops.is_within();
        match self.hops.expire(now) {
            Some(hop) => {
                release(&mut self.target, &hop.opening.down);
                true
            }
            None => false,
        }
    }
}
