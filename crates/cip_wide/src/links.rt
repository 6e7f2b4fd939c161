//! The links and the modules that the words of a line name.

use crate::fault::{LineError, WordFault, wrong_count, wrong_word};
use cip_base::ModuleId;
use cip_chassis::Topology;
use cip_outcomes::{
    Side, frames_on, link_named, link_names, listed, module_names, nearest, stands_on,
};
use cip_world::{FrameName, World};
use std::alloc::{AllocError, Global};

// Why a word names no module.
fn no_module(alloc: Global, topology: &Topology, name: &str) -> Result<WordFault, AllocError> {
    let names = module_names(alloc, topology)?;
    let near = nearest(alloc, name, names.as_slice())?;
    Ok(WordFault::NoModule(listed(alloc, names.as_slice())?, near))
}

// Why a word names no link.
fn no_link(alloc: Global, topology: &Topology, name: &str) -> Result<WordFault, AllocError> {
    let names = link_names(alloc, topology)?;
    let near = nearest(alloc, name, names.as_slice())?;
    Ok(WordFault::NoLink(listed(alloc, names.as_slice())?, near))
}

/// The module that a word of a line names.
pub(crate) fn module_at(
    alloc: Global,
    topology: &Topology,
    word: &str,
    name: &str,
) -> Result<ModuleId, LineError> {
    match topology.by_name(name.as_bytes()) {
        Some(at) => Ok(at),
        None => Err(wrong_word(alloc, word, "M", name, no_module(alloc, topology, name)?)),
    }
}

// The link that a word of a line names.
fn link_at(alloc: Global, topology: &Topology, word: &str, name: &str) -> Result<usize, LineError> {
    match link_named(topology, name) {
        Some(link) => Ok(link),
        None => Err(wrong_word(alloc, word, "LINK", name, no_link(alloc, topology, name)?)),
    }
}

// The side of a link that a word names: a module that stands there.
fn side_at(
    alloc: Global,
    topology: &Topology,
    word: &str,
    link: usize,
    name: &str,
) -> Result<ModuleId, LineError> {
    let at = module_at(alloc, topology, word, name)?;
    match topology.configs().get(at.0) {
        Some(config) if stands_on(config, link) => Ok(at),
        _ => Err(wrong_word(alloc, word, "M", name, WordFault::NotThere)),
    }
}

/// The side that a line names: `WORD LINK`, or `WORD LINK M`.
pub(crate) fn side_of(
    alloc: Global,
    topology: &Topology,
    word: &'static str,
    args: &[&str],
) -> Result<Side, LineError> {
    match args {
        [link] => Ok(Side {
            link: link_at(alloc, topology, word, link)?,
            module_: None,
        }),
        [link, side] => {
            let link = link_at(alloc, topology, word, link)?;
            let module_ = Some(side_at(alloc, topology, word, link, side)?);
            Ok(Side { link, module_ })
        }
        _ => Err(wrong_count(alloc, word, args.len(), "1 or 2, LINK [M]")),
    }
}

/// The frames that wait where a line says: `WORD LINK`, or `WORD LINK M`.
pub(crate) fn frames_at(
    alloc: Global,
    world: &World,
    word: &'static str,
    args: &[&str],
) -> Result<Vec<FrameName>, LineError> {
    let side = side_of(alloc, world.topology(), word, args)?;
    Ok(frames_on(alloc, world, side.link, side.module_)?)
}
