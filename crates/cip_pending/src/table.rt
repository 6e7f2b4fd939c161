//! The table: records in a slab, and an index of their keys by number. All room is reserved.
ghost use Rattle.std.specs.Prelude.{◌≡◌, ℕ, ◌+◌, ◌++◌, ◌<◌, ◌≤◌, ◌||◌, [], false, length, IfOk};
ghost use Rattle.std.specs.Prelude.{◌==◌, is_ok, is_some, IsTrue, if◌then◌else◌, option_map};
ghost use Rattle.std.specs.List.{position, list_any};
ghost use Rattle.std.specs.Ordering.{nat_cmp};
ghost use Rattle.std.specs.Option.{option_copied, option_to_list};
ghost use Rattle.std.specs.FinMap as map;
ghost use Rattle.slab.specs.Slab.{get as get_record};
ghost use Rattle.cip_base.specs.Counts as counts;
ghost use Rattle.cip_base.specs.Counts.{count_of};
ghost use Rattle.cip_pending.specs.Pendings.{has_next_incarnation, reset, refusal, add_gives};
ghost use Rattle.cip_pending.specs.Pendings.{added, waiting_at, without_if, IsWithout, is_due};
ghost use Rattle.cip_pending.specs.Pendings.{first_due, due, rest, first_after, is_after, IsWithin};
ghost use Rattle.cip_pending.specs.Quiet.{is_reached};
ghost use Rattle.cip_base.specs.Joined.{passes};
ghost use Rattle.cip_base.specs.Rising.{IsRising, Divides};

use crate::entry::{AddFault, AddReason, Entry};
use crate::records::Records;
use cip_base::{
    Address, LAST_COUNT, LAST_INCARNATION, NoMemory, NumberIndex, PortNumber, counts_given,
    incarnation, reborn,
};
use cip_clock::LAST_BOUND;
use std::alloc::Global;
use std::marker::Model;

/// The requests that wait for their replies, each under its number. A number has a count in its low
/// half, under an incarnation: counts rise, and a reset begins the next incarnation, so that no
/// number comes back. All memory is taken by `with_room`.
pub struct PendingTable {
    room: usize,
    // One past the last that was given: up to 2^32.
    next: u64,
    order: NumberIndex,
    records: Records,
}

// (A derive would be written, and proved, anew in each crate above.)
impl Drop for PendingTable {
    fn drop(self) {
        let PendingTable {
            room: _,
            next: _,
            order: _,
            records: _,
        } = self;
    }
}

impl Model for PendingTable {
    ghost use Rattle.cip_pending.specs.Pendings.{Pendings};
    ghost use Rattle.std.specs.Coded.{codes, coded_ℕ};
    ghost use Rattle.std.specs.FinMap as map;
    ghost use Rattle.std.specs.Ordering.{nat_cmp};
    ghost use Rattle.cip_pending.specs.contracts.entry.Entry as entry;

    ghost Value = { Pendings };

    ghost coded = { Prim.hlevel (codes, map.code {R = nat_cmp} coded_ℕ entry.the_row.coded) };

    ghost use Rattle.cip_pending.specs.Kept.{IsKept, pendings};

    ghost view = { pendings };

    ghost invariant = { IsKept };
}

impl PendingTable {
    /// An empty table with room for `room` requests, whose first number is `first`: an incarnation,
    /// and a count above 0. NoMemory where the room is refused.
    pub fn with_room(alloc: Global, room: usize, first: u32) -> Result<PendingTable, NoMemory>
        requires { 0 < count_of first }
        ensures { IfOk result (λ t. t ≡ record { room = room; next = first; entries = map.empty }) }
    {
        let order = NumberIndex::with_room(alloc, room)?;
        let records = Records::with_capacity(alloc, room)?;
        Ok(PendingTable {
            room,
            next: u64::from(first),
            order,
            records,
        })
    }

    /// Why `add` would refuse now; None where it would not.
    pub fn can_add(&self) -> Option<AddReason>
        ensures { result ≡ refusal self.now }
    {
        if self.order.len() >= self.room {
            Some(AddReason::Full)
        } else if counts_given(self.next) + 1 > LAST_COUNT {
            Some(AddReason::NumbersSpent)
        } else {
            None
        }
    }

    /// Keeps a request under the next number, and gives that number. Full where the room is used
    /// up, and else NumbersSpent where count 65,535 of this incarnation was given: the entry then
    /// comes back, and nothing changes.
    pub fn add(&mut self, entry: Entry) -> Result<u32, AddFault>
        ensures value { result ≡ add_gives self.old entry }
        ensures after { self.new ≡ (if is_ok result then added self.old entry else self.old) }
    {
        match self.can_add() {
            Some(AddReason::Full) => Err(AddFault::Full(entry)),
            Some(AddReason::NumbersSpent) => Err(AddFault::NumbersSpent(entry)),
            None => {
                let number = self.next as u32;
                let key = self.records.insert_reserved(entry);
                self.order.note(Some(number), key);
                self.next += 1;
                Ok(number)
            }
        }
    }

    /// The request of this number, where it went by this port to this address.
    pub fn look(&self, number: u32, port: PortNumber, address: &Address) -> Option<&Entry>
        ensures { option_copied result ≡ waiting_at self.now number port address.now }
    {
        let key = self.order.find(number)?;
        let entry = self.records.get(key)?;
        if entry.is_asked(port, address) {
            Some(entry)
        } else {
            None
        }
    }

    /// Takes out the request of this number, where it went by this port to this address.
    pub fn take(&mut self, number: u32, port: PortNumber, address: &Address) -> Option<Entry>
        ensures value { result ≡ waiting_at self.old number port address.now }
        ensures after { self.new ≡ without_if (is_some result) self.old number }
    {
        let key = self.order.find(number)?;
        if !self.records.get(key)?.is_asked(port, address) {
            return None;
        }
        self.order.forget(Some(number));
        Some(self.records.remove(key))
    }

    /// Takes out the request of the least number whose deadline is at most `now`, in microseconds.
    pub fn expire(&mut self, now: u64) -> Option<(u32, Entry)>
        ensures value { result ≡ first_due now self.old }
        ensures after { IsWithout result self.old self.new }

        // What a loop over all that are due takes.
        ensures due { due now self.old ≡ option_to_list result ++ due now self.new }
        ensures rest { rest now self.new ≡ rest now self.old }
    {
        let pairs = self.order.pairs();
        let at = first_due_place(pairs, &self.records, now)?;
        let (number, key) = pairs[at];
        self.order.forget(Some(number));
        Some((number, self.records.remove(key)))
    }

    /// The request of the least number above `after`, or of the least of all for None.
    pub fn next_after(&self, after: Option<u32>) -> Option<(u32, &Entry)>
        ensures { option_map (λ e. (e.0, e.1.now)) result ≡ first_after after self.now }
    {
        let pairs = self.order.pairs();
        let at = place_after(pairs, after);
        if at == pairs.len() {
            return None;
        }
        let (number, key) = pairs[at];
        Some((number, self.records.get(key)?))
    }

    /// The first deadline, in microseconds; None where nothing waits. It looks at each request
    /// once; `next_due` does not.
    pub fn first_deadline(&self) -> Option<u64>
        ensures { (time : ℕ) → is_reached time result
            ≡ list_any (is_due time) (map.entries self.now.entries) }
    {
        first_among(self.order.pairs(), &self.records)
    }

    /// The first deadline as `first_deadline` tells it, in time that is logarithmic in the room for
    /// each request that went since the last call. Nothing changes that a caller sees.
    pub fn next_due(&mut self) -> Option<u64>
        ensures value { (time : ℕ) → is_reached time result
            ≡ list_any (is_due time) (map.entries self.old.entries) }
        ensures after { self.new ≡ self.old }
    {
        let first = self.records.first_bound();
        if first < LAST_BOUND {
            Some(first)
        } else if first > LAST_BOUND {
            None
        } else {
            self.first_deadline()
        }
    }

    /// Whether it is known, without a look at the requests, that none is due at `now`, in
    /// microseconds. It is known until the first deadline that there was at the last `look_ahead`
    /// or `next_due`, where those that were added since are later.
    #[inline(always)]
    pub fn is_quiet(&self, now: u64) -> bool
        ensures { IsTrue result → due now self.now ≡ [] }
    {
        self.records.is_quiet(now)
    }

    /// Looks for the first deadline, for `is_quiet`, as `next_due` does. Nothing changes that a
    /// caller sees otherwise.
    pub fn look_ahead(&mut self)
        ensures { self.new ≡ self.old }
    {
        self.records.first_bound();
    }

    /// The incarnation of the numbers that come next: their high 16 bits, until the next reset.
    pub fn incarnation(&self) -> u16
        ensures { result ≡ counts.incarnation self.now.next }
    {
        incarnation(self.next) as u16
    }

    /// Whether a reset can follow: an incarnation is left after this one.
    pub fn can_reset(&self) -> bool
        ensures { result ≡ has_next_incarnation self.now }
    {
        u64::from(self.incarnation()) < LAST_INCARNATION
    }

    /// Removes all requests, and begins the next incarnation with count 1. The room stays, and no
    /// memory is taken: it takes time that is linear in what the table held.
    pub fn reset(&mut self)
        requires { IsTrue (has_next_incarnation self.old) }
        ensures { self.new ≡ reset self.old }
    {
        self.order.clear();
        self.records.clear();
        self.next = reborn(self.next);
    }

    /// One less than the next number: the last that was given, or one less than the first.
    pub fn last(&self) -> u32
        ensures value { result + 1 ≡ self.now.next }
        ensures within { IsWithin self.now }
    {
        (self.next - 1) as u32
    }

    /// That numbers rise and end: a fact for the proof of a caller, and no work.
    pub fn is_within(&self)
        ensures { IsWithin self.now }
    {
        let _last = self.last();
    }
}

// Where the first number stands whose record is due.
fn first_due_place(pairs: &[(u32, usize)], records: &Records, now: u64) -> Option<usize>
    ensures { result ≡ position (passes (is_due now) (get_record records.now)) pairs.now }
{
    pairs.iter().position(|p| is_due_at(records, p.1, now))
}

fn is_due_at(records: &Records, key: usize, now: u64) -> bool
    ensures { result ≡ passes (is_due now) (get_record records.now) (0, key) }
{
    match records.get(key) {
        Some(entry) => entry.deadline <= now,
        None => false,
    }
}

// Where the numbers above begin, by binary search.
fn place_after(pairs: &[(u32, usize)], after: Option<u32>) -> usize
    requires { IsRising nat_cmp pairs.now }
    ensures bound { result ≤ length pairs.now }
    ensures parts { Divides (λ p. is_after after p.0) pairs.now result }
{
    match after {
        None => 0,
        Some(last) => pairs.partition_point(|&(number, _)| number <= last),
    }
}

// The earlier of two, where None is never.
fn earlier(first: Option<u64>, second: Option<u64>) -> Option<u64>
    ensures { (time : ℕ) → is_reached time result
        ≡ (is_reached time first || is_reached time second) }
{
    match (first, second) {
        (Some(one), Some(other)) => Some(one.min(other)),
        (Some(one), None) => Some(one),
        (None, other) => other,
    }
}

fn deadline_at(records: &Records, number: u32, key: usize) -> Option<u64>
    ensures { (time : ℕ) → is_reached time result
        ≡ passes (is_due time) (get_record records.now) (number, key) }
{
    match records.get(key) {
        Some(entry) => Some(entry.deadline),
        None => None,
    }
}

// The first deadline of these numbers.
fn first_among(pairs: &[(u32, usize)], records: &Records) -> Option<u64>
    ensures { (time : ℕ) → is_reached time result
        ≡ list_any (passes (is_due time) (get_record records.now)) pairs.now }
{
    let mut first = None;
    for pair in pairs {
        first = earlier(first, deadline_at(records, pair.0, pair.1));
    }
    first
}
