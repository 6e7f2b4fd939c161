//! The frames that wait, and where they come in.
ghost use Rattle.std.specs.Prelude.{◌≡◌, ◌<◌, ◌∷◌, ◌++◌, [], IfOk, IfSome, IfNone, OnOk, List};
ghost use Rattle.std.specs.Prelude.{Some, true, drop, length, map, option_map, reverse};
ghost use Rattle.cip_chassis.specs.Nodes.{across};
ghost use Rattle.cip_world.specs.Coming.{flight, way_in};
ghost use Rattle.cip_world.specs.Journals.{flight_of, frame_at};
ghost use Rattle.cip_event.specs.declared.frame.FrameName.{FrameName as Name};
ghost use Rattle.cip_threads.specs.Flows.{Comes, goes_to, sends_of, sent_if, way_of};
ghost use Rattle.cip_threads.specs.Queues.{queue_at};

use crate::queues::first_in;
use cip_base::{Address, ModuleId, NoMemory, PortNumber};
use cip_chassis::Topology;
use cip_routing::{Event, Output};
use cip_world::{Coming, Entry, Flying, FrameName, frame_at};
use std::alloc::Global;
use std::collections::VecDeque;

/// A frame for a module, with the event that it is there.
#[derive(Drop)]
pub(crate) struct Found {
    pub(crate) name: FrameName,
    pub(crate) port: PortNumber,
    pub(crate) from: Address,
    pub(crate) event: Event,
}

// Where a frame comes in.
fn comes_in<'a>(topology: &'a Topology, flying: Flying<'a>) -> Option<Coming<'a>>
    ensures way { option_map way_in result ≡ across topology.now (flight flying.entry).way }
    ensures body { IfSome result (λ c. c.body.now ≡ flying.entry.body.now) }
{
    match topology.across(flying.at, flying.port, flying.to) {
        Some(there) => Some(Coming {
            at: there.at,
            port: there.port,
            from: there.from,
            body: flying.body,
        }),
        None => None,
    }
}

// Where the frame of a name comes in.
fn coming<'a>(topology: &'a Topology, entries: &'a [Entry], name: FrameName) -> Option<Coming<'a>>
    ensures way { option_map way_in result
        ≡ way_of topology.now (frame_at (reverse entries.now) name) }
    ensures body { IfSome result (λ c. IfSome (frame_at (reverse entries.now) name)
        (λ x. x.body ≡ c.body.now)) }
{
    match frame_at(entries, name) {
        Some(flying) => comes_in(topology, flying),
        None => None,
    }
}

// The frame of a name that comes to a module.
fn arrival(
    alloc: Global,
    topology: &Topology,
    entries: &[Entry],
    name: FrameName,
    m: usize,
) -> Result<Found, NoMemory>
    requires { goes_to topology.now (reverse entries.now) m name ≡ true }
    ensures { IfOk result (λ r. (r.name ≡ name)
        × Comes topology.now (reverse entries.now) name m r.port r.from r.event) }
{
    let Some(coming) = coming(topology, entries, name) else {
        unreachable!()
    };
    let body = coming.body.copy(alloc)?;
    let port = coming.port;
    Ok(Found {
        name,
        port,
        from: coming.from.copy(),
        event: Event::Frame {
            port,
            from: coming.from.copy(),
            body,
        },
    })
}

/// The first frame in a module's queue; each of them comes to the module.
pub(crate) fn frame_for(
    alloc: Global,
    topology: &Topology,
    entries: &[Entry],
    queues: &[VecDeque<FrameName>],
    m: usize,
) -> Result<Option<Found>, NoMemory>
    requires within { m < length queues.now }
    requires goes { (name : Name) (rest : List Name)
        → queue_at (map (λ q. q.items) queues.now) m ≡ name ∷ rest
        → goes_to topology.now (reverse entries.now) m name ≡ true }
    ensures some { IfOk result (λ found. IfSome found (λ r.
        (queue_at (map (λ q. q.items) queues.now) m
        ≡ r.name ∷ drop 1 (queue_at (map (λ q. q.items) queues.now) m))
        × Comes topology.now (reverse entries.now) r.name m r.port r.from r.event)) }
    ensures none { IfOk result (λ found. IfNone found
        (queue_at (map (λ q. q.items) queues.now) m ≡ [])) }
{
    match first_in(queues, m) {
        Some(name) => {
            let found = arrival(alloc, topology, entries, *name, m)?;
            Ok(Some(found))
        }
        None => Ok(None),
    }
}

// The module that an output of a module comes to, where it is a frame that arrives.
fn goal(topology: &Topology, at: ModuleId, output: &Output) -> Option<ModuleId>
    ensures { option_map (λ id. id.0) result
        ≡ option_map (λ w. w.at) (way_of topology.now (flight_of at.0 (Some output.now))) }
{
    match output {
        Output::Send { port, to, .. } => match topology.across(at, *port, to) {
            Some(there) => Some(there.at),
            None => None,
        },
        _ => None,
    }
}

// The frame of this name, if the output is one that arrives, at the end of a list.
#[tactic(auto, using(crate::proofs::Sending::sent_some, crate::proofs::Sending::sent_none))]
fn push_send(
    sends: &mut Vec<(ModuleId, FrameName)>,
    topology: &Topology,
    at: ModuleId,
    output: &Output,
    name: FrameName,
) -> Result<(), NoMemory>
    ensures { OnOk result (sends.new.items ≡ sends.old.items
        ++ sent_if (way_of topology.now (flight_of at.0 (Some output.now))) name []) }
{
    if let Some(to) = goal(topology, at, output) {
        sends.push((to, name))?;
        return Ok(());
    }
    Ok(())
}

/// The frames that arrive somewhere among the outputs of an entry, each with the module that it
/// comes to.
pub(crate) fn sends_of(
    alloc: Global,
    topology: &Topology,
    entry: usize,
    at: ModuleId,
    outputs: &[Output],
) -> Result<Vec<(ModuleId, FrameName)>, NoMemory>
    ensures { IfOk result (λ v. v.items ≡ sends_of topology.now at.0 entry 0 outputs.now) }
{
    let mut sends = Vec::new(alloc);
    for output in 0..outputs.len() {
        let name = FrameName { entry, output };
        push_send(&mut sends, topology, at, &outputs[output], name)?;
    }
    Ok(sends)
}
