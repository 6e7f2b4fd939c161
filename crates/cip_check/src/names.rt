//! The names of modules.

use cip_base::NoMemory;
use cip_topology::Topology;
use std::alloc::Global;

/// The names of the modules of a topology, in its order, with commas between them. NoMemory where
/// an allocation is refused.
pub fn module_names(alloc: Global, topology: &Topology) -> Result<String, NoMemory> {
    let mut names = String::new(alloc);
    for config in topology.configs() {
        if !names.is_empty() {
            names.push_str(", ")?;
        }
        let name = std::str::from_utf8(config.settings().name.as_slice());
        names.push_str(name.unwrap_or(""))?;
    }
    Ok(names)
}
