//! The table: records in a slab, and indexes of their keys by triad, by own ids and by op. All room
//! is reserved.
ghost use Rattle.std.specs.Prelude.{◌≡◌, ℕ, ◌+◌, ◌++◌, ◌<◌, ◌^◌, ◌||◌, [], false, IfOk, IsSome};
ghost use Rattle.std.specs.Prelude.{IsSomeAnd, IsTrue, is_ok, is_some, if◌then◌else◌};
ghost use Rattle.std.specs.List.{position, list_any};
ghost use Rattle.std.specs.Option.{option_copied, option_to_list, option_map_or};
ghost use Rattle.std.specs.FinMap as map;
ghost use Rattle.slab.specs.Slab.{get as get_record};
ghost use Rattle.cip_base.specs.Joined.{passes};
ghost use Rattle.cip_base.specs.Counts.{count_of};
ghost use Rattle.cip_base.specs.Counts as counts;
ghost use Rattle.cip_base.specs.declared.triad.Triad.{Triad as Triads};
ghost use Rattle.cip_hops.specs.declared.hop.Side.TheVariants.{Up, Down};
ghost use Rattle.cip_hops.specs.Sides.{op_of};
ghost use Rattle.cip_hops.specs.Changes.{Suits, IsChanged};
ghost use Rattle.cip_hops.specs.Hops.{has_next_incarnation, reset, refusal, begin_gives, begun};
ghost use Rattle.cip_hops.specs.Hops.{IsOpFree, opening_at, hop_at, without, without_if, IsWithout};
ghost use Rattle.cip_hops.specs.Hops.{finished, changed, is_link, ends_here, touched, counted};
ghost use Rattle.cip_hops.specs.Hops.{hop_by_up, hop_by_down, hop_by_op, HasId, up_id_of};
ghost use Rattle.cip_hops.specs.Hops.{down_id_of, first_due, due, rest, first_after, as_hop};
ghost use Rattle.cip_hops.specs.Hops.{is_hop_due, is_entry_due, is_entry_open, is_past, IsWithin};
ghost use Rattle.cip_hops.specs.Onwards.{on_side, hop_by, onward_of, after_onward};

use crate::hop::{Change, Held, Hop, Side};
use crate::onward::Onward;
use crate::opening::{BeginFault, BeginReason, Opening, OwnIds};
use crate::records::Records;
use crate::triads::{TriadIndex, place_after, place_near};
use cip_base::{
    Address, LAST_COUNT, LAST_INCARNATION, NoMemory, NumberIndex, PortNumber, Triad, counts_given,
    incarnation, reborn,
};
use cip_clock::LAST_BOUND;
use std::alloc::Global;
use std::marker::Model;

/// The connections of a module, opening and open, each under its triad. An id has a count in its
/// low half, under an incarnation: counts rise, and a reset begins the next incarnation, so that no
/// id comes back. All memory is taken by `with_room`.
pub struct HopTable {
    room: usize,
    // One past the last that was drawn: up to 2^32.
    next: u64,
    triads: TriadIndex,
    ups: NumberIndex,
    downs: NumberIndex,
    ops: NumberIndex,
    records: Records,
}

// (A derive would be written, and proved, anew in each crate above.)
impl Drop for HopTable {
    fn drop(self) {
        let HopTable {
            room: _,
            next: _,
            triads: _,
            ups: _,
            downs: _,
            ops: _,
            records: _,
        } = self;
    }
}

impl Model for HopTable {
    ghost use Rattle.std.specs.Coded.{codes};
    ghost use Rattle.std.specs.FinMap as map;
    ghost use Rattle.cip_base.specs.Triads.{triad_cmp, coded_triad};
    ghost use Rattle.cip_hops.specs.contracts.hop.Held as kept;
    ghost use Rattle.cip_hops.specs.Hops.{Hops};

    ghost Value = { Hops };

    ghost coded = { Prim.hlevel (codes, map.code {R = triad_cmp} coded_triad kept.the_row.coded) };

    ghost use Rattle.cip_hops.specs.Kept.{IsKept, hops};

    ghost view = { hops };

    ghost invariant = { IsKept };
}

impl HopTable {
    /// An empty table with room for `room` connections, opening and open together, whose first id
    /// is `first`: an incarnation, and a count above 0. NoMemory where the room is refused.
    pub fn with_room(alloc: Global, room: usize, first: u32) -> Result<HopTable, NoMemory>
        requires { 0 < count_of first }
        ensures { IfOk result (λ t. t ≡ record { room = room; next = first; held = map.empty }) }
    {
        let triads = TriadIndex::with_room(alloc, room)?;
        let ups = NumberIndex::with_room(alloc, room)?;
        let downs = NumberIndex::with_room(alloc, room)?;
        let ops = NumberIndex::with_room(alloc, room)?;
        let records = Records::with_capacity(alloc, room)?;
        Ok(HopTable {
            room,
            next: u64::from(first),
            triads,
            ups,
            downs,
            ops,
            records,
        })
    }

    /// Why `begin` would refuse an opening of this triad that draws so many ids; None where it
    /// would not.
    pub fn can_begin(&self, triad: &Triad, ids: u8) -> Option<BeginReason>
        ensures { result ≡ refusal self.now triad.now ids }
    {
        if self.triads.find(triad).is_some() {
            Some(BeginReason::Duplicate)
        } else if self.triads.len() >= self.room {
            Some(BeginReason::Full)
        } else if counts_given(self.next) + u64::from(ids) > LAST_COUNT {
            Some(BeginReason::IdsSpent)
        } else {
            None
        }
    }

    /// Keeps an opening under the next ids, one for each side that is a link and that of the down
    /// side first. Duplicate where its triad is opening or open, else Full where the room is used
    /// up, else IdsSpent where fewer counts up to 65,535 are left in this incarnation than it
    /// draws: the opening then comes back, and nothing changes.
    pub fn begin(&mut self, opening: Opening) -> Result<OwnIds, BeginFault>
        requires multiplier { opening.multiplier < 8 }
        requires op { IsOpFree self.old (op_of opening.up) }
        ensures value { result ≡ begin_gives self.old opening }
        ensures after { self.new ≡ (if is_ok result then begun self.old opening else self.old) }
    {
        match self.can_begin(&opening.triad, opening.ids_drawn()) {
            Some(BeginReason::Duplicate) => Err(BeginFault::Duplicate(opening)),
            Some(BeginReason::Full) => Err(BeginFault::Full(opening)),
            Some(BeginReason::IdsSpent) => Err(BeginFault::IdsSpent(opening)),
            None => {
                let triad = opening.triad;
                let op = opening.up.op();
                let ids = opening.own_ids(self.next);
                self.next += u64::from(opening.ids_drawn());
                let key = self.records.insert_reserved(Held::Opening(opening, ids));
                self.triads.note(triad, key);
                self.ups.note(ids.up, key);
                self.downs.note(ids.down, key);
                self.ops.note(op, key);
                Ok(ids)
            }
        }
    }

    /// Makes a hop of what was being opened: `their_id` is the O to T id of the node below (an end
    /// has none), and each side that is a link is watched from `now` on, in microseconds.
    pub fn finish(&mut self, triad: &Triad, their_id: u32, now: u64)
        requires opening { IsSome (opening_at self.old triad.now) }
        requires time { now < 2 ^ 63 }
        ensures { self.new ≡ finished self.old triad.now their_id now }
    {
        self.change(triad, Change::Finish { their_id, now });
    }

    /// Takes out what was being opened under this triad.
    pub fn abandon(&mut self, triad: &Triad) -> Option<Opening>
        ensures value { result ≡ opening_at self.old triad.now }
        ensures after { self.new ≡ without_if (is_some result) self.old triad.now }
    {
        if self.held(triad)?.hop().is_some() {
            return None;
        }
        match self.take_out(triad) {
            Held::Opening(opening, _) => Some(opening),
            Held::Open(_) => unreachable!(),
        }
    }

    /// Takes out the hop of this triad.
    pub fn remove(&mut self, triad: &Triad) -> Option<Hop>
        ensures value { result ≡ hop_at self.old triad.now }
        ensures after { self.new ≡ without_if (is_some result) self.old triad.now }
    {
        if self.held(triad)?.hop().is_none() {
            return None;
        }
        match self.take_out(triad) {
            Held::Open(hop) => Some(hop),
            Held::Opening(_, _) => unreachable!(),
        }
    }

    /// The hop of this triad.
    pub fn by_triad(&self, triad: &Triad) -> Option<&Hop>
        ensures { option_copied result ≡ hop_at self.now triad.now }
    {
        self.held(triad)?.hop()
    }

    /// The hop that a command of this op opened. There is at most one.
    pub fn by_op(&self, op: u32) -> Option<&Hop>
        ensures { option_copied result ≡ hop_by_op self.now op }
    {
        let key = self.ops.find(op)?;
        self.records.get(key)?.hop()
    }

    /// The hop of which this is the own id towards the originator, on the link by this port to this
    /// address. There is at most one.
    pub fn by_up(&self, id: u32, port: PortNumber, address: &Address) -> Option<&Hop>
        ensures { option_copied result ≡ hop_by_up self.now id port address.now }
    {
        let key = self.ups.find(id)?;
        let hop = self.records.get(key)?.hop()?;
        if hop.opening.up.is_at(port, address) {
            Some(hop)
        } else {
            None
        }
    }

    /// The hop of which this is the own id towards the target, on the link by this port to this
    /// address. There is at most one.
    pub fn by_down(&self, id: u32, port: PortNumber, address: &Address) -> Option<&Hop>
        ensures { option_copied result ≡ hop_by_down self.now id port address.now }
    {
        let key = self.downs.find(id)?;
        let hop = self.records.get(key)?.hop()?;
        if hop.opening.down.is_at(port, address) {
            Some(hop)
        } else {
            None
        }
    }

    /// Where a datum of `size` bytes goes on that comes in by this side of a hop: from this port
    /// and address, under the own id of that side. The side is then watched anew from `now` on, in
    /// microseconds. None where there is no such hop, where the datum goes no further than here, or
    /// where it does not have the size of its direction: nothing changes.
    #[inline(always)]
    pub fn pass_on(
        &mut self,
        side: Side,
        id: u32,
        port: PortNumber,
        address: &Address,
        size: usize,
        now: u64,
    ) -> Option<Onward>
        requires { now < 2 ^ 63 }
        ensures value { result ≡ onward_of side size
            (hop_by side self.old id port address.now) }
        ensures after { self.new ≡ after_onward self.old side now
            (hop_by side self.old id port address.now) result }
    {
        let key = key_of(&self.ups, &self.downs, side, id)?;
        let hop = self.records.get(key)?.hop()?;
        if !hop.is_at(side, port, address) {
            return None;
        }
        let onward = hop.onward(side, size)?;
        self.records.change(key, Change::Touch { side, now });
        Some(onward)
    }

    /// Watches a side of a hop anew from `now` on, in microseconds.
    pub fn touch(&mut self, triad: &Triad, side: Side, now: u64)
        requires link { IsSomeAnd (hop_at self.old triad.now) (λ hop. IsTrue (is_link side hop)) }
        requires time { now < 2 ^ 63 }
        ensures { self.new ≡ changed self.old triad.now (touched side now) }
    {
        self.change(triad, Change::Touch { side, now });
    }

    /// Watches the up side of the hop with this own id towards the originator anew from `now` on,
    /// in microseconds. The condition is that there is such a hop.
    pub fn touch_up(&mut self, id: u32, now: u64)
        requires named { (triad : Triads) × HasId up_id_of self.old id triad }
        requires time { now < 2 ^ 63 }
        ensures { (triad : Triads) → HasId up_id_of self.old id triad
            → self.new ≡ changed self.old triad (touched Up now) }
    {
        let Some(key) = self.ups.find(id) else {
            unreachable!()
        };
        self.records.change(
            key,
            Change::Touch {
                side: Side::Up,
                now,
            },
        );
    }

    /// Watches the down side of the hop with this own id towards the target anew from `now` on, in
    /// microseconds. The condition is that there is such a hop.
    pub fn touch_down(&mut self, id: u32, now: u64)
        requires named { (triad : Triads) × HasId down_id_of self.old id triad }
        requires time { now < 2 ^ 63 }
        ensures { (triad : Triads) → HasId down_id_of self.old id triad
            → self.new ≡ changed self.old triad (touched Down now) }
    {
        let Some(key) = self.downs.find(id) else {
            unreachable!()
        };
        self.records.change(
            key,
            Change::Touch {
                side: Side::Down,
                now,
            },
        );
    }

    /// Keeps the sequence count of the last datum of a hop that ends here: up that of the last that
    /// was consumed, down that of the last that was produced.
    pub fn set_count(&mut self, triad: &Triad, side: Side, count: u16)
        requires { IsSomeAnd (hop_at self.old triad.now) (λ hop. IsTrue (ends_here hop)) }
        ensures { self.new ≡ changed self.old triad.now (counted side count) }
    {
        self.change(triad, Change::Count { side, count });
    }

    /// Takes out the hop of the least triad of which either side has been silent until `now`, in
    /// microseconds.
    pub fn expire(&mut self, now: u64) -> Option<Hop>
        ensures value { result ≡ first_due now self.old }
        ensures after { IsWithout result self.old self.new }

        // What a loop over all that are due takes.
        ensures due { due now self.old ≡ option_to_list result ++ due now self.new }
        ensures rest { rest now self.new ≡ rest now self.old }
    {
        let at = due_place(self.triads.pairs(), &self.records, now)?;
        let triad = self.triads.pairs()[at].0;
        match self.take_out(&triad) {
            Held::Open(hop) => Some(hop),
            Held::Opening(_, _) => unreachable!(),
        }
    }

    /// The hop of the least triad above `after`, or of the least of all for None.
    pub fn next_after(&self, after: Option<&Triad>) -> Option<&Hop>
        ensures { option_copied result ≡ first_after (option_copied after.entry) self.now }
    {
        let pairs = self.triads.pairs();
        let from = place_after(pairs, after);
        let at = hop_place(&pairs[from..], &self.records)?;
        self.records.get(pairs[from + at].1)?.hop()
    }

    /// The same for one who goes through all: `near` is 0 at first, and then what the last call
    /// left there. That place is looked at first, and where nothing came in or went out meanwhile
    /// there is no search.
    #[inline(always)]
    pub fn next_near(&self, after: Option<&Triad>, near: &mut usize) -> Option<&Hop>
        ensures { option_copied result ≡ first_after (option_copied after.entry) self.now }
    {
        let pairs = self.triads.pairs();
        let from = place_near(pairs, after, *near);
        let at = hop_place(&pairs[from..], &self.records)?;
        *near = from + at + 1;
        self.records.get(pairs[from + at].1)?.hop()
    }

    /// The first time, in microseconds, at which either side of a connection has been silent for
    /// too long; None where no side of a connection is watched. It looks at each connection once;
    /// `next_due` does not.
    pub fn first_deadline(&self) -> Option<u64>
        ensures { (time : ℕ) → is_past time result
            ≡ list_any (is_entry_due time) (map.entries self.now.held) }
    {
        first_among(self.triads.pairs(), &self.records)
    }

    /// The first deadline as `first_deadline` tells it, in time that is logarithmic in the room for
    /// each connection whose first deadline moved away or went since the last call. Nothing changes
    /// that a caller sees.
    pub fn next_due(&mut self) -> Option<u64>
        ensures value { (time : ℕ) → is_past time result
            ≡ list_any (is_entry_due time) (map.entries self.old.held) }
        ensures after { self.new ≡ self.old }
    {
        let first = self.records.first_bound();
        if first < LAST_BOUND {
            Some(first)
        } else if first > LAST_BOUND {
            None
        } else {
            self.first_deadline()
        }
    }

    /// Whether it is known, without a look at the connections, that no side of one has been silent
    /// for too long at `now`, in microseconds. It is known until the first deadline that there was
    /// at the last `look_ahead` or `next_due`, where those that were set since are later.
    #[inline(always)]
    pub fn is_quiet(&self, now: u64) -> bool
        ensures { IsTrue result → due now self.now ≡ [] }
    {
        self.records.is_quiet(now)
    }

    /// Looks for the first deadline, for `is_quiet`, as `next_due` does. Nothing changes that a
    /// caller sees otherwise.
    pub fn look_ahead(&mut self)
        ensures { self.new ≡ self.old }
    {
        self.records.first_bound();
    }

    /// The incarnation of the ids that come next: their high 16 bits, until the next reset.
    pub fn incarnation(&self) -> u16
        ensures { result ≡ counts.incarnation self.now.next }
    {
        incarnation(self.next) as u16
    }

    /// Whether a reset can follow: an incarnation is left after this one.
    pub fn can_reset(&self) -> bool
        ensures { result ≡ has_next_incarnation self.now }
    {
        u64::from(self.incarnation()) < LAST_INCARNATION
    }

    /// Removes all openings and hops, and begins the next incarnation with count 1. The room stays,
    /// and no memory is taken: it takes time that is linear in what the table held.
    pub fn reset(&mut self)
        requires { IsTrue (has_next_incarnation self.old) }
        ensures { self.new ≡ reset self.old }
    {
        self.triads.clear();
        self.ups.clear();
        self.downs.clear();
        self.ops.clear();
        self.records.clear();
        self.next = reborn(self.next);
    }

    /// One less than the next id: the last that was drawn, or one less than the first.
    pub fn last(&self) -> u32
        ensures value { result + 1 ≡ self.now.next }
        ensures within { IsWithin self.now }
    {
        (self.next - 1) as u32
    }

    /// That each record stands under its own triad, and that ids end: a fact for the proof of a
    /// caller, and no work.
    pub fn is_within(&self)
        ensures { IsWithin self.now }
    {
        let _last = self.last();
    }

    /// What stands under a triad, opening or open.
    #[inline(always)]
    pub fn held(&self, triad: &Triad) -> Option<&Held>
        ensures { option_copied result ≡ map.get self.now.held triad.now }
    {
        let key = self.triads.find(triad)?;
        self.records.get(key)
    }

    // Changes what stands under a triad in its place. Its names stay.
    #[inline(always)]
    fn change(&mut self, triad: &Triad, change: Change)
        requires { IsSomeAnd (map.get self.old.held triad.now) (Suits change) }
        ensures { IsChanged change self.old triad.now self.new }
    {
        let Some(key) = self.triads.find(triad) else {
            unreachable!()
        };
        self.records.change(key, change);
    }

    // Takes out what stands under a triad, and forgets its names.
    fn take_out(&mut self, triad: &Triad) -> Held
        requires { IsSome (map.get self.old.held triad.now) }
        ensures value { map.get self.old.held triad.now ≡ Some result }
        ensures after { self.new ≡ without self.old triad.now }
    {
        let Some(key) = self.triads.find(triad) else {
            unreachable!()
        };
        let held = self.records.remove(key);
        let ids = held.ids();
        let op = held.opening().up.op();
        self.triads.forget(triad);
        self.ups.forget(ids.up);
        self.downs.forget(ids.down);
        self.ops.forget(op);
        held
    }
}

// Under an own id on this side the key of its record.
#[inline(always)]
fn key_of(ups: &NumberIndex, downs: &NumberIndex, side: Side, id: u32) -> Option<usize>
    ensures { result ≡ map.get (on_side side ups.now.keys downs.now.keys) id }
{
    match side {
        Side::Up => ups.find(id),
        Side::Down => downs.find(id),
    }
}

// Where the first triad stands whose hop is due.
fn due_place(pairs: &[(Triad, usize)], records: &Records, now: u64) -> Option<usize>
    ensures { result ≡ position (passes (is_entry_due now) (get_record records.now)) pairs.now }
{
    pairs.iter().position(|p| is_due_at(records, p.1, now))
}

fn is_due_at(records: &Records, key: usize, now: u64) -> bool
    ensures { result ≡ option_map_or (is_hop_due now) (get_record records.now key) false }
{
    match records.get(key) {
        Some(held) => held.is_due(now),
        None => false,
    }
}

// Where the first triad stands that has a hop.
fn hop_place(pairs: &[(Triad, usize)], records: &Records) -> Option<usize>
    ensures { result ≡ position (passes is_entry_open (get_record records.now)) pairs.now }
{
    pairs.iter().position(|p| is_hop_at(records, p.1))
}

fn is_hop_at(records: &Records, key: usize) -> bool
    ensures { result ≡ option_map_or (λ x. is_some (as_hop x)) (get_record records.now key) false }
{
    match records.get(key) {
        Some(held) => held.hop().is_some(),
        None => false,
    }
}

// The earlier of two, where None is never.
fn earlier(first: Option<u64>, second: Option<u64>) -> Option<u64>
    ensures { (time : ℕ) → is_past time result ≡ (is_past time first || is_past time second) }
{
    match (first, second) {
        (Some(one), Some(other)) => Some(one.min(other)),
        (Some(one), None) => Some(one),
        (None, other) => other,
    }
}

fn deadline_at(records: &Records, key: usize) -> Option<u64>
    ensures { (time : ℕ) → is_past time result
        ≡ option_map_or (is_hop_due time) (get_record records.now key) false }
{
    match records.get(key) {
        Some(Held::Open(hop)) => earlier(hop.up_deadline, hop.down_deadline),
        Some(Held::Opening(_, _)) => None,
        None => None,
    }
}

// The first time at which a hop of these triads is due.
fn first_among(pairs: &[(Triad, usize)], records: &Records) -> Option<u64>
    ensures { (time : ℕ) → is_past time result
        ≡ list_any (passes (is_entry_due time) (get_record records.now)) pairs.now }
{
    let mut first = None;
    for pair in pairs {
        first = earlier(first, deadline_at(records, pair.1));
    }
    first
}
