//! An index by number, of records that stand in a table of their own.
ghost use Rattle.std.specs.Prelude.{◌≡◌, ◌<◌, None, IfOk, IfSome, IsSome};
ghost use Rattle.std.specs.Ordering.{nat_cmp};
ghost use Rattle.std.specs.FinMap as map;
ghost use Rattle.cip_base.specs.Rising.{IsRising, IsPlaceOf};
ghost use Rattle.cip_base.specs.Index.{noted, forgot, emptied};

use crate::row::Row;
use std::alloc::{AllocError, Global};
use std::marker::Model;

/// Under each number the key of a record, in rising number. The room is reserved.
#[derive(Drop)]
pub struct NumberIndex {
    // In rising number.
    pairs: Row<(u32, usize)>,
}

impl Model for NumberIndex {
    ghost use Rattle.std.specs.Coded.{codes, coded_ℕ};
    ghost use Rattle.std.specs.FinMap as map;
    ghost use Rattle.std.specs.Ordering.{nat_cmp};
    ghost use Rattle.cip_base.specs.Index.{Index};

    ghost Value = { Index nat_cmp };

    ghost coded = { Prim.hlevel (codes, map.code {R = nat_cmp} coded_ℕ coded_ℕ) };

    ghost use Rattle.cip_base.specs.Numbers.{IsNumbers, numbers};

    ghost view = { numbers };

    ghost invariant = { IsNumbers };
}

impl NumberIndex {
    /// An empty index with room for so many numbers.
    pub fn with_room(alloc: Global, room: usize) -> Result<NumberIndex, AllocError>
        ensures { IfOk result (λ m. m ≡ record { room = room; keys = map.empty }) }
    {
        Ok(NumberIndex {
            pairs: Row::with_room(alloc, room)?,
        })
    }

    /// How many numbers it has.
    pub fn len(&self) -> usize
        ensures { result ≡ map.len self.now.keys }
    {
        self.pairs.as_slice().len()
    }

    /// The numbers with their keys, in rising number.
    pub fn pairs(&self) -> &[(u32, usize)]
        ensures all { result.now ≡ map.entries self.now.keys }
        ensures rising { IsRising nat_cmp result.now }
    {
        self.pairs.as_slice()
    }

    /// The key under a number.
    pub fn find(&self, number: u32) -> Option<usize>
        ensures { result ≡ map.get self.now.keys number }
    {
        let pairs = self.pairs.as_slice();
        match place_of(pairs, number) {
            Ok(at) => Some(pairs[at].1),
            Err(_) => None,
        }
    }

    /// Notes a key under a number that has none, if there is a number.
    pub fn note(&mut self, number: Option<u32>, key: usize)
        requires free { IfSome number (λ n. map.get self.old.keys n ≡ None) }
        requires room { map.len self.old.keys < self.old.room }
        ensures { self.new ≡ noted self.old number key }
    {
        if let Some(number) = number {
            let Err(at) = place_of(self.pairs.as_slice(), number) else {
                unreachable!()
            };
            self.pairs.insert(at, (number, key));
        }
    }

    /// Forgets a number, if there is one.
    pub fn forget(&mut self, number: Option<u32>)
        requires { IfSome number (λ n. IsSome (map.get self.old.keys n)) }
        ensures { self.new ≡ forgot self.old number }
    {
        if let Some(number) = number {
            let Ok(at) = place_of(self.pairs.as_slice(), number) else {
                unreachable!()
            };
            self.pairs.remove(at);
        }
    }

    /// Forgets all numbers. The room stays reserved.
    pub fn clear(&mut self)
        ensures { self.new ≡ emptied self.old }
    {
        self.pairs.clear();
    }
}

// Where the number stands, or where it would. Numbers mostly rise, and the oldest mostly goes: so
// the last is tried, and then the first, before a binary search.
fn place_of(pairs: &[(u32, usize)], number: u32) -> Result<usize, usize>
    requires { IsRising nat_cmp pairs.now }
    ensures { IsPlaceOf nat_cmp pairs.now number result }
{
    match (pairs.first(), pairs.last()) {
        (_, Some(&(last, _))) if last < number => Err(pairs.len()),
        (Some(&(first, _)), _) if first == number => Ok(0),
        _ => pairs.binary_search_by_key(&number, |&(number, _)| number),
    }
}
