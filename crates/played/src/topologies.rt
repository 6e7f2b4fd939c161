//! Topology files: what loading each gives, and what a topology says.
use crate::fault::Fault;
use cip_base::ModuleId;
use cip_module::ModuleSettings;
use cip_topology::{Link, Topology, load};
use line_words::Then;
use std::env::Args;
use std::fs;

// A line with what loading a file gives: `loaded`, or the text of the fault.
fn tell(rt: &HostRuntime, path: &str) -> Result<(), Fault> {
    let text = fs::read_to_string(rt, path)?;
    match load(rt.alloc(), text.as_str()) {
        Ok(_) => println!(rt; "loaded")?,
        Err(fault) => println!(rt; "{fault}")?,
    }
    Ok(())
}

/// Writes a line for each of these files.
pub fn play(rt: &HostRuntime, paths: &mut Args) -> Result<(), Fault> {
    for path in paths {
        tell(rt, path.as_str())?;
    }
    Ok(())
}

fn text(bytes: &[u8]) -> &str {
    std::str::from_utf8(bytes).unwrap_or("no text")
}

fn tell_link(rt: &HostRuntime, link: &Link) -> Result<(), Fault> {
    println!(rt; "link {} {:?}", text(link.name.as_slice()), link.legal)?;
    Ok(())
}

// A module: the place that its name leads to, its kind, first id, first number and clock, the room
// of its tables, and how many ports it has.
fn tell_module(
    rt: &HostRuntime,
    topology: &Topology,
    settings: &ModuleSettings,
) -> Result<(), Fault> {
    let name = settings.name.as_slice();
    let place = topology.by_name(name).ok_or(Fault::Line)?.0;
    let told = topology.name_of(ModuleId(place)).ok_or(Fault::Line)?;
    let first = Then(
        Then("id", settings.first_id),
        Then("number", settings.first_number),
    );
    let rooms = Then("rooms", Then(settings.pending_room, settings.hop_room));
    let ports = Then("ports", settings.ports.as_slice().len());
    let more = Then(
        first,
        Then(Then("clock", settings.clock), Then(rooms, ports)),
    );
    print!(rt; "module {place} {} {:?}", text(told), settings.kind)?;
    println!(rt; " {more}")?;
    Ok(())
}

/// Tells what the topology of a file says: its links and its modules.
pub fn tell_chassis(rt: &HostRuntime, words: &mut Args) -> Result<(), Fault> {
    let path = words.next().ok_or(Fault::Usage)?;
    let text = fs::read_to_string(rt, path.as_str())?;
    let topology = load(rt.alloc(), text.as_str()).ok().ok_or(Fault::Usage)?;
    for link in topology.links() {
        tell_link(rt, link)?;
    }
    for config in topology.configs() {
        tell_module(rt, &topology, config.settings())?;
    }
    Ok(())
}
