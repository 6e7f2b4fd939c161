//! Which part of a run a chart shows.
ghost use Rattle.std.specs.Prelude.{◌≡◌, ◌-◌, ◌^◌, [], length, IfOk};
ghost use Rattle.cip_chart.specs.Cuts.{has_entry, is_named, has_module};

use cip_base::{ModuleId, NoMemory};
use std::alloc::Global;

// Whether a module is one of these.
fn is_named(modules: &[ModuleId], id: ModuleId) -> bool
    ensures { result ≡ is_named modules.now id.0 }
{
    match modules.split_first() {
        Some((first, rest)) => first.0 == id.0 || is_named(rest, id),
        None => false,
    }
}

/// The entries from one to another, of these modules, or of all where none is named.
#[derive(Drop)]
pub struct Cut {
    pub from: usize,
    pub to: usize,
    pub modules: Vec<ModuleId>,
}

impl Cut {
    /// The whole run.
    pub fn whole(alloc: Global) -> Cut
        ensures entries { (result.from ≡ 0) × (result.to ≡ 2 ^ 64 - 1) }
        ensures modules { result.modules.items ≡ [] }
    {
        Cut {
            from: 0,
            to: usize::MAX,
            modules: Vec::new(alloc),
        }
    }

    /// Whether an entry is shown.
    pub fn has_entry(&self, entry: usize) -> bool
        ensures { result ≡ has_entry self.now entry }
    {
        self.from <= entry && entry <= self.to
    }

    /// Whether a module is shown.
    pub fn has_module(&self, id: ModuleId) -> bool
        ensures { result ≡ has_module self.now id }
    {
        self.modules.is_empty() || is_named(self.modules.as_slice(), id)
    }

    /// The column of each of so many modules; None of those that are not shown.
    pub fn columns(&self, alloc: Global, count: usize) -> Result<Vec<Option<usize>>, NoMemory>
        ensures { IfOk result (λ columns. length columns.items ≡ count) }
    {
        let mut columns = Vec::new(alloc);
        let mut next: usize = 0;
        'places: for place in 0..count {
            if self.has_module(ModuleId(place)) {
                columns.push(Some(next))?;
                next = next.saturating_add(1);
            } else {
                columns.push(None)?;
            }
        }
        Ok(columns)
    }
}
