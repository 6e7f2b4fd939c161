//! The ops that were used.
ghost use Rattle.std.specs.Prelude.{◌≡◌, ◌<◌, OnOk, [], false};
ghost use Rattle.std.specs.Vec.{vec_len, vec_capacity};
ghost use Rattle.cip_routing.specs.State.{is_spent, spent_with};
ghost use Rattle.cip_routing.specs.Resets.{noted};
ghost use Rattle.cip_routing.specs.Rising.{IsRising, IsPlace};

use cip_base::NoMemory;
use std::alloc::Global;

// Where the op stands, or where it would go in. Ops mostly rise, so the last is tried before a
// binary search.
fn place_of(ops: &[u32], op: u32) -> Result<usize, usize>
    requires { IsRising ops.now }
    ensures { IsPlace op ops.now result }
{
    match ops.last() {
        Some(&last) if last < op => Err(ops.len()),
        _ => ops.binary_search(&op),
    }
}

/// Ops, rising, so that one is found by a binary search.
#[derive(Drop)]
pub struct SpentOps {
    pub ops: Vec<u32>,
    ghost rising: { IsRising ops.items },
}

impl SpentOps {
    /// No ops.
    pub fn new(alloc: Global) -> SpentOps
        ensures { result.ops.items ≡ [] }
    {
        SpentOps {
            ops: Vec::new(alloc),
        }
    }

    /// Whether the op was used.
    pub fn contains(&self, op: u32) -> bool
        ensures { result ≡ is_spent op self.now.ops.items }
    {
        place_of(&self.ops, op).is_ok()
    }

    /// Makes room for one op more; NoMemory where an allocation is refused.
    pub fn reserve(&mut self) -> Result<(), NoMemory>
        ensures room { OnOk result (vec_len self.new.ops < vec_capacity self.new.ops) }
        ensures same { self.new.ops.items ≡ self.old.ops.items }
    {
        self.ops.reserve(1)?;
        Ok(())
    }

    /// Keeps an op, if it is not there; NoMemory where an allocation is refused.
    pub fn note(&mut self, op: u32) -> Result<(), NoMemory>
        ensures { OnOk result (self.new.ops.items ≡ noted op self.old.ops.items) }
    {
        if !self.contains(op) {
            self.reserve()?;
            self.spend(op);
        }
        Ok(())
    }

    /// Uses up an op that was not used. The condition is that there is room for it.
    pub fn spend(&mut self, op: u32)
        requires room { vec_len self.old.ops < vec_capacity self.old.ops }
        requires absent { is_spent op self.old.ops.items ≡ false }
        ensures { self.new.ops.items ≡ spent_with op self.old.ops.items }
    {
        let Err(at) = place_of(&self.ops, op) else {
            unreachable!()
        };
        let Ok(()) = self.ops.insert(at, op) else {
            unreachable!()
        };
    }
}
