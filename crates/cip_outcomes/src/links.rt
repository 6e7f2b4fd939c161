//! Links: what stands there, and which frames wait there.

use cip_base::{ModuleId, NoMemory, PortNumber};
use cip_chassis::Topology;
use cip_config::ModuleConfig;
use cip_world::{Flying, FrameName, World, frame_at};
use std::alloc::{AllocError, Global};

/// A link, by its place, or what a module sends there.
#[derive(Clone, Copy, PartialEq, Eq)]
pub struct Side {
    pub link: usize,
    pub module_: Option<ModuleId>,
}

/// The link of a module's port, by its place.
pub(crate) fn link_of(topology: &Topology, at: ModuleId, port: PortNumber) -> Option<usize> {
    let config = topology.configs().get(at.0)?;
    for own in config.settings().ports.as_slice() {
        if own.number == port {
            return Some(own.link);
        }
    }
    None
}

/// Whether the module has a port on the link.
pub fn stands_on(config: &ModuleConfig, link: usize) -> bool {
    config
        .settings()
        .ports
        .as_slice()
        .iter()
        .any(|port| port.link == link)
}

/// The place of the link of this name.
pub fn link_named(topology: &Topology, name: &str) -> Option<usize> {
    topology
        .links()
        .iter()
        .position(|link| link.name.as_slice() == name.as_bytes())
}

/// The name of a link.
pub(crate) fn link_word(topology: &Topology, link: usize) -> &str {
    match topology.links().get(link) {
        Some(link) => std::str::from_utf8(link.name.as_slice()).unwrap_or(""),
        None => "",
    }
}

/// Names, with commas between them.
pub fn listed(alloc: Global, names: &[&str]) -> Result<String, AllocError> {
    let mut text = String::new(alloc);
    for name in names {
        if !text.is_empty() {
            text.push_str(", ")?;
        }
        text.push_str(name)?;
    }
    Ok(text)
}

/// The names of the links.
pub fn link_names(alloc: Global, topology: &Topology) -> Result<Vec<&str>, AllocError> {
    let mut names = Vec::new(alloc);
    for link in topology.links() {
        names.push(std::str::from_utf8(link.name.as_slice()).unwrap_or(""))?;
    }
    Ok(names)
}

/// The names of the modules.
pub fn module_names(alloc: Global, topology: &Topology) -> Result<Vec<&str>, AllocError> {
    let mut names = Vec::new(alloc);
    for config in topology.configs() {
        names.push(std::str::from_utf8(config.settings().name.as_slice()).unwrap_or(""))?;
    }
    Ok(names)
}

// Whether a frame goes over the link, and to the module where one is given.
fn goes_by(topology: &Topology, flying: Flying<'_>, link: usize, to: Option<ModuleId>) -> bool {
    if link_of(topology, flying.at, flying.port) != Some(link) {
        return false;
    }
    match to {
        Some(to) => topology.node_at(flying.at, flying.port, flying.to) == Some(to),
        None => true,
    }
}

/// The frames that wait on a link, to the module where one is given, in rising name; NoMemory where
/// an allocation is refused.
pub fn frames_on(
    alloc: Global,
    world: &World,
    link: usize,
    to: Option<ModuleId>,
) -> Result<Vec<FrameName>, NoMemory> {
    let mut found = Vec::new(alloc);
    let waiting = world.waiting()?;
    for name in waiting.iter() {
        if let Some(flying) = frame_at(world.journal(), *name) {
            if goes_by(world.topology(), flying, link, to) {
                found.push(*name)?;
            }
        }
    }
    Ok(found)
}
