//! An index by triad.
ghost use Rattle.std.specs.Prelude.{◌≡◌, ◌<◌, ◌≤◌, None, Some, length, IfOk, IsSome};
ghost use Rattle.std.specs.Option.{option_copied};
ghost use Rattle.std.specs.FinMap as map;
ghost use Rattle.cip_base.specs.Triads.{triad_cmp};
ghost use Rattle.cip_hops.specs.Hops.{is_after};
ghost use Rattle.cip_base.specs.Rising.{IsRising, IsPlaceOf, Divides};
ghost use Rattle.cip_base.specs.Index.{noted, forgot, emptied};

use cip_base::{Row, Triad};
use std::alloc::{AllocError, Global};
use std::cmp::Ordering;
use std::marker::Model;

/// Under each triad the key of its record. The room is reserved.
#[derive(Drop)]
pub(crate) struct TriadIndex {
    // In rising triad.
    pairs: Row<(Triad, usize)>,
}

impl Model for TriadIndex {
    ghost use Rattle.std.specs.Coded.{codes, coded_ℕ};
    ghost use Rattle.std.specs.FinMap as map;
    ghost use Rattle.cip_base.specs.Triads.{triad_cmp, coded_triad};
    ghost use Rattle.cip_base.specs.Index.{Index};

    ghost Value = { Index triad_cmp };

    ghost coded = { Prim.hlevel (codes, map.code {R = triad_cmp} coded_triad coded_ℕ) };

    ghost use Rattle.cip_hops.specs.TriadPairs.{IsTriads, triads};

    ghost view = { triads };

    ghost invariant = { IsTriads };
}

impl TriadIndex {
    pub(crate) fn with_room(alloc: Global, room: usize) -> Result<TriadIndex, AllocError>
        ensures { IfOk result (λ m. m ≡ record { room = room; keys = map.empty }) }
    {
        Ok(TriadIndex {
            pairs: Row::with_room(alloc, room)?,
        })
    }

    pub(crate) fn len(&self) -> usize
        ensures { result ≡ map.len self.now.keys }
    {
        self.pairs.as_slice().len()
    }

    /// The triads with their keys, in rising triad.
    pub(crate) fn pairs(&self) -> &[(Triad, usize)]
        ensures all { result.now ≡ map.entries self.now.keys }
        ensures rising { IsRising triad_cmp result.now }
    {
        self.pairs.as_slice()
    }

    pub(crate) fn find(&self, triad: &Triad) -> Option<usize>
        ensures { result ≡ map.get self.now.keys triad.now }
    {
        let pairs = self.pairs.as_slice();
        match place_of(pairs, triad) {
            Ok(at) => Some(pairs[at].1),
            Err(_) => None,
        }
    }

    /// Notes a key under a triad that has none.
    pub(crate) fn note(&mut self, triad: Triad, key: usize)
        requires free { map.get self.old.keys triad ≡ None }
        requires room { map.len self.old.keys < self.old.room }
        ensures { self.new ≡ noted self.old (Some triad) key }
    {
        let Err(at) = place_of(self.pairs.as_slice(), &triad) else {
            unreachable!()
        };
        self.pairs.insert(at, (triad, key));
    }

    /// Forgets a triad.
    pub(crate) fn forget(&mut self, triad: &Triad)
        requires { IsSome (map.get self.old.keys triad.now) }
        ensures { self.new ≡ forgot self.old (Some triad.now) }
    {
        let Ok(at) = place_of(self.pairs.as_slice(), triad) else {
            unreachable!()
        };
        self.pairs.remove(at);
    }

    /// Forgets all triads. The room stays reserved.
    pub(crate) fn clear(&mut self)
        ensures { self.new ≡ emptied self.old }
    {
        self.pairs.clear();
    }
}

// Where the triad stands, or where it would: serial numbers mostly rise, so the last is tried
// before a binary search.
fn place_of(pairs: &[(Triad, usize)], triad: &Triad) -> Result<usize, usize>
    requires { IsRising triad_cmp pairs.now }
    ensures { IsPlaceOf triad_cmp pairs.now triad.now result }
{
    let Some((last, _)) = pairs.last() else {
        return Err(0);
    };
    match last.cmp(triad) {
        Ordering::Less => Err(pairs.len()),
        Ordering::Equal => Ok(pairs.len() - 1),
        Ordering::Greater => pairs.binary_search_by_key(triad, |&(triad, _)| triad),
    }
}

/// Where the triads above begin, by binary search.
pub(crate) fn place_after(pairs: &[(Triad, usize)], after: Option<&Triad>) -> usize
    requires { IsRising triad_cmp pairs.now }
    ensures bound { result ≤ length pairs.now }
    ensures parts { Divides (λ p. is_after (option_copied after.entry) p.0) pairs.now result }
{
    match after {
        None => 0,
        Some(last) => pairs.partition_point(|p| last.cmp(&p.0).is_ge()),
    }
}

/// The same, from a place near which they may begin: where the triad before it is the one that was
/// asked for, no search is needed.
pub(crate) fn place_near(pairs: &[(Triad, usize)], after: Option<&Triad>, near: usize) -> usize
    requires { IsRising triad_cmp pairs.now }
    ensures bound { result ≤ length pairs.now }
    ensures parts { Divides (λ p. is_after (option_copied after.entry) p.0) pairs.now result }
{
    if let Some(last) = after {
        if 0 < near && near <= pairs.len() {
            if let Ordering::Equal = last.cmp(&pairs[near - 1].0) {
                return near;
            }
        }
    }
    place_after(pairs, after)
}
