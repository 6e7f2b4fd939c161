//! The names of the modules of a topology.
ghost use Rattle.std.specs.Prelude.{◌≡◌, IfOk};
ghost use Rattle.cip_transcript.specs.Show.{names_of};

use cip_base::{Bytes, NoMemory};
use cip_chassis::Topology;
use cip_routing::ModuleConfig;
use std::alloc::Global;

fn name_of(alloc: Global, config: &ModuleConfig) -> Result<Bytes, NoMemory>
    ensures { IfOk result (λ name. name ≡ config.now.name) }
{
    Ok(Bytes::of(Vec::from_slice(alloc, config.settings().name.as_slice())?))
}

/// A copy of the names of the modules, in the order of the topology. NoMemory where an allocation
/// is refused.
pub fn names_of(alloc: Global, topology: &Topology) -> Result<Vec<Bytes>, NoMemory>
    ensures { IfOk result (λ names. names.items ≡ names_of topology.now) }
{
    let mut names = Vec::new(alloc);
    for config in topology.configs() {
        names.push(name_of(alloc, config)?)?;
    }
    Ok(names)
}
