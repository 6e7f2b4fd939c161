//! The records of a table, and the first of their deadlines.
ghost use Rattle.std.specs.Prelude.{◌≡◌, ℕ, ◌+◌, ◌<◌, ◌≤◌, [], false, Some, None, IfOk, IsTrue};
ghost use Rattle.std.specs.Prelude.{IsSomeAnd};
ghost use Rattle.std.specs.Option.{option_copied};
ghost use Rattle.slab.specs.Slab.{get, slab_len, with_value, ContainsKey, HasRoomFor, Updates};
ghost use Rattle.cip_hops.specs.declared.hop.Held.{Held as Kept};
ghost use Rattle.cip_hops.specs.Changes.{change_of, IsMeant};
ghost use Rattle.cip_hops.specs.Hops.{is_hop_due};
ghost use Rattle.cip_hops.specs.Quiet.{deadline_of, IsBounded};
ghost use Rattle.cip_clock.specs.Bounds.{bound_under, IsFirstBound};

use crate::hop::{Change, Held};
use cip_clock::{Deadlines, bound_of};
use slab::Slab;
use std::alloc::{AllocError, Global};
use std::marker::Model;

/// What stands under triads, each under a key, with a time for each key before which no side of its
/// connection has been silent for too long. A deadline that moves away, or goes, leaves its time,
/// until `first_bound` comes to it: so a datum changes no time but one that is too late.
#[derive(Drop)]
pub(crate) struct Records {
    pub(crate) kept: Slab<Held>,
    times: Deadlines,
}

impl Model for Records {
    ghost use Rattle.cip_hops.specs.declared.hop.Held.{Held};
    ghost use Rattle.cip_hops.specs.contracts.hop.Held as entry;
    ghost use Rattle.slab.specs.Slab.{Slab, slab_code};

    ghost Value = { Slab Held };

    ghost coded = { slab_code entry.the_row.coded };

    ghost use Rattle.cip_hops.specs.Quiet.{IsBounded};

    ghost view = { λ r. r.kept };

    ghost invariant = { λ r. IsBounded r.kept r.times };
}

impl Records {
    pub(crate) fn with_capacity(alloc: Global, capacity: usize) -> Result<Records, AllocError>
        ensures empty { IfOk result (λ s. s.slots ≡ []) }
        ensures capacity { IfOk result (λ s. capacity ≤ s.capacity) }
    {
        let kept = Slab::with_capacity(alloc, capacity)?;
        let times = Deadlines::with_room(alloc, kept.capacity())?;
        Ok(Records { kept, times })
    }

    /// The record of a key.
    #[inline(always)]
    pub(crate) fn get(&self, key: usize) -> Option<&Held>
        ensures { option_copied result ≡ get self.now key }
    {
        self.kept.get(key)
    }

    /// Keeps a record, for which there is room, and gives its key.
    pub(crate) fn insert_reserved(&mut self, held: Held) -> usize
        requires { HasRoomFor self.old 1 }
        ensures was_vacant { get self.old result ≡ None }
        ensures updates { Updates self.old self.new result (Some held) }
        ensures len { slab_len self.new ≡ slab_len self.old + 1 }
        ensures capacity { self.new.capacity ≡ self.old.capacity }
    {
        let time = bound_of(held.deadline());
        let key = self.kept.insert_reserved(held);
        self.times.lower(key, time);
        key
    }

    /// Changes the record of a key in its place.
    #[inline(always)]
    pub(crate) fn change(&mut self, key: usize, change: Change)
        requires { IsSomeAnd (get self.old key) (IsMeant change) }
        ensures { IsSomeAnd (get self.old key)
            (λ x. self.new ≡ with_value self.old key (change_of change x)) }
    {
        let Some(held) = self.kept.get_mut(key) else {
            unreachable!()
        };
        held.change(change);
        let bound = bound_of(held.deadline());
        self.times.lower(key, bound);
    }

    /// Takes out the record of a key.
    pub(crate) fn remove(&mut self, key: usize) -> Held
        requires { ContainsKey self.old key }
        ensures value { get self.old key ≡ Some result }
        ensures updates { Updates self.old self.new key None }
        ensures len { slab_len self.new + 1 ≡ slab_len self.old }
        ensures capacity { self.new.capacity ≡ self.old.capacity }
    {
        self.kept.remove(key)
    }

    /// Forgets all records. The room stays.
    pub(crate) fn clear(&mut self)
        ensures empty { self.new.slots ≡ [] }
        ensures capacity { self.new.capacity ≡ self.old.capacity }
    {
        self.kept.clear();
    }

    /// Whether it is known without a look at the records that none is due at `now`.
    #[inline(always)]
    pub(crate) fn is_quiet(&self, now: u64) -> bool
        ensures { IsTrue result → (key : ℕ) (x : Kept) → get self.now key ≡ Some x
            → is_hop_due now x ≡ false }
    {
        now < self.times.least()
    }

    /// The bound of the first deadline, `NEVER` where no side of a connection is watched. It looks
    /// at the records whose first deadline moved away or went since the last call, and at one more.
    pub(crate) fn first_bound(&mut self) -> u64
        ensures kept { self.new ≡ self.old }
        ensures first { IsFirstBound deadline_of (get self.old) result }
    {
        settled(&self.kept, &mut self.times)
    }
}

// The bound of what stands under a key.
fn bound_at(kept: &Slab<Held>, key: usize) -> u64
    ensures { result ≡ bound_under deadline_of (get kept.now) key }
{
    match kept.get(key) {
        Some(held) => bound_of(held.deadline()),
        None => bound_of(None),
    }
}

// The least bound, once it is that of what stands under its key.
fn settled(kept: &Slab<Held>, times: &mut Deadlines) -> u64
    requires { IsBounded kept.now times.old }
    ensures bounded { IsBounded kept.now times.new }
    ensures first { IsFirstBound deadline_of (get kept.now) result }
{
    'settle: loop {
        let key = times.first();
        let bound = bound_at(kept, key);
        if times.bound(key) == bound {
            return bound;
        }
        times.set(key, bound);
    }
}
