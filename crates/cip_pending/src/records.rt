//! The records of a table, and the first of their deadlines.
ghost use Rattle.std.specs.Prelude.{◌≡◌, ℕ, ◌+◌, ◌<◌, ◌≤◌, [], Some, None, IfOk, IsTrue};
ghost use Rattle.std.specs.Option.{option_copied};
ghost use Rattle.slab.specs.Slab.{get, slab_len, ContainsKey, HasRoomFor, Updates};
ghost use Rattle.cip_pending.specs.declared.entry.Entry.{Entry as Waiting};
ghost use Rattle.cip_clock.specs.Bounds.{bound_under, IsFirstBound};
ghost use Rattle.cip_pending.specs.Quiet.{deadline_of, IsBounded};

use crate::entry::Entry;
use cip_clock::{Deadlines, bound_of};
use slab::Slab;
use std::alloc::{AllocError, Global};
use std::marker::Model;

/// The requests that wait, each under a key, with a time for each key before which its request is
/// not due. A request that goes leaves its time, until `first_bound` comes to it.
#[derive(Drop)]
pub(crate) struct Records {
    kept: Slab<Entry>,
    times: Deadlines,
}

impl Model for Records {
    ghost use Rattle.cip_pending.specs.declared.entry.Entry.{Entry};
    ghost use Rattle.cip_pending.specs.contracts.entry.Entry as entry;
    ghost use Rattle.slab.specs.Slab.{Slab, slab_code};

    ghost Value = { Slab Entry };

    ghost coded = { slab_code entry.the_row.coded };

    ghost use Rattle.cip_pending.specs.Quiet.{IsBounded};

    ghost view = { λ r. r.kept };

    ghost invariant = { λ r. IsBounded r.kept r.times };
}

impl Records {
    pub(crate) fn with_capacity(alloc: Global, capacity: usize) -> Result<Records, AllocError>
        ensures empty { IfOk result (λ s. s.slots ≡ []) }
        ensures capacity { IfOk result (λ s. capacity ≤ s.capacity) }
    {
        let kept = Slab::with_capacity(alloc, capacity)?;
        let times = Deadlines::with_room(alloc, kept.capacity())?;
        Ok(Records { kept, times })
    }

    /// The record of a key.
    #[inline(always)]
    pub(crate) fn get(&self, key: usize) -> Option<&Entry>
        ensures { option_copied result ≡ get self.now key }
    {
        self.kept.get(key)
    }

    /// Keeps a record, for which there is room, and gives its key.
    #[inline(always)]
    pub(crate) fn insert_reserved(&mut self, entry: Entry) -> usize
        requires { HasRoomFor self.old 1 }
        ensures was_vacant { get self.old result ≡ None }
        ensures updates { Updates self.old self.new result (Some entry) }
        ensures len { slab_len self.new ≡ slab_len self.old + 1 }
        ensures capacity { self.new.capacity ≡ self.old.capacity }
    {
        let deadline = entry.deadline;
        let key = self.kept.insert_reserved(entry);
        self.times.lower(key, bound_of(Some(deadline)));
        key
    }

    /// Takes out the record of a key.
    #[inline(always)]
    pub(crate) fn remove(&mut self, key: usize) -> Entry
        requires { ContainsKey self.old key }
        ensures value { get self.old key ≡ Some result }
        ensures updates { Updates self.old self.new key None }
        ensures len { slab_len self.new + 1 ≡ slab_len self.old }
        ensures capacity { self.new.capacity ≡ self.old.capacity }
    {
        self.kept.remove(key)
    }

    /// Forgets all records. The room stays.
    pub(crate) fn clear(&mut self)
        ensures empty { self.new.slots ≡ [] }
        ensures capacity { self.new.capacity ≡ self.old.capacity }
    {
        self.kept.clear();
    }

    /// Whether it is known without a look at the records that none is due at `now`.
    #[inline(always)]
    pub(crate) fn is_quiet(&self, now: u64) -> bool
        ensures { IsTrue result → (key : ℕ) (x : Waiting) → get self.now key ≡ Some x
            → now < x.deadline }
    {
        now < self.times.least()
    }

    /// The bound of the first deadline, `NEVER` where there is no record. It looks at the records
    /// that went since the last call, and at one more.
    pub(crate) fn first_bound(&mut self) -> u64
        ensures kept { self.new ≡ self.old }
        ensures first { IsFirstBound deadline_of (get self.old) result }
    {
        settled(&self.kept, &mut self.times)
    }
}

// The bound of what stands under a key.
fn bound_at(kept: &Slab<Entry>, key: usize) -> u64
    ensures { result ≡ bound_under deadline_of (get kept.now) key }
{
    match kept.get(key) {
        Some(entry) => bound_of(Some(entry.deadline)),
        None => bound_of(None),
    }
}

// The least bound, once it is that of what stands under its key.
fn settled(kept: &Slab<Entry>, times: &mut Deadlines) -> u64
    requires { IsBounded kept.now times.old }
    ensures bounded { IsBounded kept.now times.new }
    ensures first { IsFirstBound deadline_of (get kept.now) result }
{
    'settle: loop {
        let key = times.first();
        let bound = bound_at(kept, key);
        if times.bound(key) == bound {
            return bound;
        }
        times.set(key, bound);
    }
}
