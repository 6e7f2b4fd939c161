//! Tables that look as at the beginning.
ghost use Rattle.std.specs.Prelude.{◌≡◌, ◌<◌, ◌↔◌, IfOk, IsTrue};
ghost use Rattle.cip_routing.specs.State.{initial_state};
ghost use Rattle.cip_routing.specs.Views.{ShowsState, HasFirstCounts, HoldsNothing, assemblies_of};

use crate::show::assembly_rows;
use crate::tables::{AssemblyRow, Tables};
use cip_base::NoMemory;
use cip_config::{ModuleConfig, ModuleSettings};
use cip_target::Target;
use std::alloc::Global;

// The assemblies of a config, as they are shown at the beginning.
fn first_assemblies(alloc: Global, config: &ModuleConfig) -> Result<Vec<AssemblyRow>, NoMemory>
    ensures { IfOk result (λ rows. rows.items ≡ assemblies_of (initial_state config.now)) }
{
    let settings = config.settings();
    let identity = settings.identity.copy(alloc)?;
    let target = Target::new(alloc, identity, settings.assemblies.as_slice())?;
    assembly_rows(alloc, &target)
}

fn are_first_counts(tables: &Tables, settings: &ModuleSettings) -> bool
    requires { (0 < settings.now.first_id) × (0 < settings.now.first_number) }
    ensures { IsTrue result ↔ HasFirstCounts settings.now tables.entry.now }
{
    tables.now == settings.clock
        && tables.last_id == settings.first_id - 1
        && tables.last_number == settings.first_number - 1
}

fn hold_nothing(tables: &Tables) -> bool
    ensures { IsTrue result ↔ HoldsNothing tables.entry.now }
{
    tables.pendings.as_slice().is_empty()
        && tables.hops.as_slice().is_empty()
        && tables.ops.as_slice().is_empty()
}

fn is_same_row(left: &AssemblyRow, right: &AssemblyRow) -> bool
    ensures { IsTrue result ↔ (left.now ≡ right.now) }
{
    left == right
}

fn are_same_rows(left: &[AssemblyRow], right: &[AssemblyRow]) -> bool
    ensures { IsTrue result ↔ (left.now ≡ right.now) }
{
    if left.len() != right.len() {
        return false;
    }
    for i in 0..left.len() {
        if !is_same_row(&left[i], &right[i]) {
            return false;
        }
    }
    true
}

fn look_first(tables: &Tables, config: &ModuleConfig, assemblies: &[AssemblyRow]) -> bool
    requires { assemblies.now ≡ assemblies_of (initial_state config.now) }
    ensures { IsTrue result ↔ ShowsState (initial_state config.now) tables.entry.now }
{
    if !are_first_counts(tables, config.settings()) {
        return false;
    }
    if !hold_nothing(tables) {
        return false;
    }
    are_same_rows(tables.assemblies.as_slice(), assemblies)
}

impl Tables {
    /// Whether the tables are those of the first state of a config; NoMemory where an allocation is
    /// refused.
    pub fn are_initial(&self, alloc: Global, config: &ModuleConfig) -> Result<bool, NoMemory>
        ensures { IfOk result
            (λ first. IsTrue first ↔ ShowsState (initial_state config.now) self.entry.now) }
    {
        let assemblies = first_assemblies(alloc, config)?;
        Ok(look_first(self, config, assemblies.as_slice()))
    }
}
