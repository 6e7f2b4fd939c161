//! The ops that have names, and where the newest of each stands.
ghost use Rattle.std.specs.Prelude.{◌≡◌, ◌≤◌, ◌++◌, ◌∷◌, [], length, IfNone, IfSome, IsFalse};
ghost use Rattle.std.specs.Prelude.{IsTrue, OnErr, OnOk};
ghost use Rattle.cip_ends.specs.Names.{HasNone, IsMeant, IsNewest, IsOf, key_of};

use cip_base::{ModuleId, NoMemory};
use cip_chassis::Name;
use std::alloc::Global;
use std::collections::BTreeMap;
use std::marker::Model;

/// An op that has a name.
#[derive(Drop)]
pub struct Op {
    pub name: Name,
    pub at: ModuleId,
    pub number: u32,
}

/// The ops that have names, the newest last. A name may come again.
#[derive(Drop)]
pub struct Names {
    ops: Vec<Op>,
    // By a number of each name, the place of the newest op that has such a name.
    places: BTreeMap<u64, usize>,
}

impl Model for Names {
    ghost use Rattle.std.specs.Prelude.{List};
    ghost use Rattle.cip_ends.specs.declared.names.Op.{Op as Named};
    ghost use Rattle.cip_ends.specs.Names.{IsIndex};

    ghost Value = { List Named };

    ghost view = { λ n. n.ops.items };

    ghost invariant = { λ n. IsIndex n.places n.ops.items };
}

// A number of a name.
fn key_of(name: &Name) -> u64
    ensures { result ≡ key_of name.now }
{
    let bytes = name.as_slice();
    let mut key = 0u64;
    for i in 0..bytes.len() {
        key = key.wrapping_mul(257).wrapping_add(u64::from(bytes[i]));
    }
    key
}

fn is_of(at: Option<ModuleId>, m: ModuleId) -> bool
    ensures yes { IsTrue result → IsOf at m }
    ensures no { IsFalse result → IsOf at m → ⊥ }
{
    match at {
        Some(at) => m.0 == at.0,
        None => true,
    }
}

fn is_meant(op: &Op, name: &Name, at: Option<ModuleId>) -> bool
    ensures yes { IsTrue result → IsMeant name.now at op.now }
    ensures no { IsFalse result → IsMeant name.now at op.now → ⊥ }
{
    op.name == *name && is_of(at, op.at)
}

// The newest of the first so many that is meant.
fn older<'a>(ops: &'a [Op], to: usize, name: &Name, at: Option<ModuleId>) -> Option<&'a Op>
    requires within { to ≤ length ops.now }
    requires none { HasNone ops.now name.now at to (length ops.now) }
    ensures some { IfSome result (λ op. IsNewest ops.now name.now at op.now) }
    ensures none { IfNone result (HasNone ops.now name.now at 0 (length ops.now)) }
{
    let mut left = to;
    while left > 0 {
        left -= 1;
        if is_meant(&ops[left], name, at) {
            return Some(&ops[left]);
        }
    }
    None
}

impl Names {
    /// No op at all.
    pub fn new(alloc: Global) -> Names
        ensures { result ≡ [] }
    {
        Names {
            ops: Vec::new(alloc),
            places: BTreeMap::new(alloc),
        }
    }

    /// The ops that have names, the oldest first.
    pub fn as_slice(&self) -> &[Op]
        ensures { result.now ≡ self.now }
    {
        self.ops.as_slice()
    }

    /// One more op; NoMemory where an allocation is refused, and then nothing is changed.
    pub fn push(&mut self, op: Op) -> Result<(), NoMemory>
        ensures ok { OnOk result (self.new ≡ self.old ++ op ∷ []) }
        ensures err { OnErr result (self.new ≡ self.old) }
    {
        let place = self.ops.len();
        self.ops.reserve(1)?;
        self.places.insert(key_of(&op.name), place)?;
        self.ops.push_reserved(op);
        Ok(())
    }

    /// The newest op of this name, of a module where one is given. It looks where the newest name
    /// of the same number stands, and at those before it where that is another name or module.
    pub fn newest(&self, name: &Name, at: Option<ModuleId>) -> Option<&Op>
        ensures some { IfSome result (λ op. IsNewest self.now name.now at op.now) }
        ensures none { IfNone result (HasNone self.now name.now at 0 (length self.now)) }
    {
        let place = *self.places.get(&key_of(name))?;
        older(self.ops.as_slice(), place + 1, name, at)
    }
}
