//! Where the request of a command went.
ghost use Rattle.std.specs.Prelude.{◌≡◌, reverse, IfOk};
ghost use Rattle.std.specs.List.{list_any};
ghost use Rattle.cip_chassis.specs.Plan.{Plan, IsTopology};
ghost use Rattle.cip_world.specs.RepliesTell.{RepliesTell};
ghost use Rattle.cip_world.specs.Runs.{IsRun};
ghost use Rattle.cip_world.specs.TrailTells.{TrailTells};
ghost use Rattle.cip_world.specs.Trails.{is_refusal, opens_or_sends, asks_for, is_command};
ghost use Rattle.cip_world.specs.Trails.{is_request_sent, request_from, request_by, arrived_in};
ghost use Rattle.cip_world.specs.Trails.{trail_of};
ghost use Rattle.cip_chain.specs.Seeking.{is_next, is_nothing, seeks};

use cip_base::{ModuleId, NoMemory};
use cip_routing::{Body, Command, Output};
use cip_world::{Entry, FrameName, Input};
use std::alloc::Global;

// What a trail goes on by.
#[derive(Clone, Copy)]
enum Sought {
    // The command.
    Command,
    // The arrival of this frame.
    Arrival(FrameName),
    // The trail is at its end.
    Nothing,
}

fn is_refusal(output: &Output) -> bool
    ensures { result ≡ is_refusal output.now }
{
    match output {
        Output::Refused(_) => true,
        _ => false,
    }
}

pub(crate) fn is_refused(outputs: &[Output]) -> bool
    ensures { result ≡ list_any is_refusal outputs.now }
{
    outputs.iter().any(|output| is_refusal(output))
}

fn opens_or_sends(command: &Command, op: u32) -> bool
    ensures { result ≡ opens_or_sends op command.now }
{
    match command {
        Command::Open { op: own, .. } => *own == op,
        Command::LargeOpen { op: own, .. } => *own == op,
        Command::Send { op: own, .. } => *own == op,
        _ => false,
    }
}

fn asks_for(input: &Input, op: u32) -> bool
    ensures { result ≡ asks_for op input.now }
{
    match input {
        Input::Command(command) => opens_or_sends(command, op),
        _ => false,
    }
}

// Whether an entry is an Open or a Send of this op at this module that is not refused.
fn is_command(entry: &Entry, at: ModuleId, op: u32) -> bool
    ensures { result ≡ is_command at.0 op entry.now }
{
    match entry {
        Entry::Step {
            at: module,
            input,
            outputs,
        } => module.0 == at.0 && asks_for(input, op) && !is_refused(outputs.as_slice()),
        Entry::Lost { .. } => false,
    }
}

fn is_request(output: &Output) -> bool
    ensures { result ≡ is_request_sent output.now }
{
    match output {
        Output::Send {
            body: Body::Request { .. },
            ..
        } => true,
        _ => false,
    }
}

// The place of the first request among outputs.
pub(crate) fn first_request(outputs: &[Output]) -> Option<usize>
    ensures { result ≡ request_from 0 outputs.now }
{
    for i in 0..outputs.len() {
        if is_request(&outputs[i]) {
            return Some(i);
        }
    }
    None
}

// The request that entry k sent.
fn request_by(entry: &Entry, k: usize) -> Option<FrameName>
    ensures { result ≡ request_by k entry.now }
{
    match entry {
        Entry::Step { outputs, .. } => match first_request(outputs.as_slice()) {
            Some(output) => Some(FrameName { entry: k, output }),
            None => None,
        },
        Entry::Lost { .. } => None,
    }
}

// Whether a frame arrived in an entry.
fn brings(entry: &Entry, name: FrameName) -> bool
    ensures { result ≡ arrived_in name entry.now }
{
    match entry {
        Entry::Step {
            input: Input::Frame { name: brought, .. },
            ..
        } => name == *brought,
        _ => false,
    }
}

fn is_next(entry: &Entry, at: ModuleId, op: u32, sought: Sought) -> bool
    ensures { result ≡ is_next at.0 op sought entry.now }
{
    match sought {
        Sought::Command => is_command(entry, at, op),
        Sought::Arrival(name) => brings(entry, name),
        Sought::Nothing => false,
    }
}

// Whether a trail is at its end.
fn is_nothing(sought: Sought) -> bool
    ensures { result ≡ is_nothing sought }
{
    match sought {
        Sought::Nothing => true,
        _ => false,
    }
}

// What stands behind entry k.
fn behind(entry: &Entry, k: usize) -> Sought
    ensures { result ≡ seeks (request_by k entry.now) }
{
    match request_by(entry, k) {
        Some(name) => Sought::Arrival(name),
        None => Sought::Nothing,
    }
}

// Entry by entry, up to where nothing more can come.
pub(crate) fn walk(
    alloc: Global,
    journal: &[Entry],
    at: ModuleId,
    op: u32,
) -> Result<Vec<usize>, NoMemory>
    ensures { IfOk result (λ ks. ks.items ≡ trail_of (reverse journal.now) at.0 op) }
{
    let mut trail = Vec::new(alloc);
    let mut sought = Sought::Command;
    for k in 0..journal.len() {
        let entry = &journal[k];
        if is_next(entry, at, op, sought) {
            trail.push(k)?;
            sought = behind(entry, k);
            if is_nothing(sought) {
                return Ok(trail);
            }
        }
    }
    Ok(trail)
}

/// The numbers of the entries to which the request of a command went, in a journal that stands
/// oldest entry first and is numbered from 0: the entry of the Open or the Send of this op at this
/// module that was not refused, then that in which the request arrived that it sent, then that in
/// which the one arrived that was sent there, and so on. It is empty without such a command.
/// NoMemory where an allocation is refused.
///
/// In a run of a topology the words of the path fall strictly along the trail of an Open. Its Done
/// tells the words received at the one entry of the trail where it failed, or the trail ends where
/// the path ends and the open was accepted there. The Done of a Send is a failure on the way, whose
/// service byte is D2, or the answer of the target at the last entry of the trail.
pub fn trail(
    alloc: Global,
    journal: &[Entry],
    at: ModuleId,
    op: u32,
) -> Result<Vec<usize>, NoMemory>
    ensures trail { IfOk result (λ ks. ks.items ≡ trail_of (reverse journal.now) at.0 op) }
    ensures tells { (t : Plan) → IsTopology t → IsRun t (reverse journal.now)
        → IfOk result (λ ks. TrailTells t (reverse journal.now) at.0 op ks.items) }
    ensures replies { (t : Plan) → IsTopology t → IsRun t (reverse journal.now)
        → RepliesTell t (reverse journal.now) }
{
    walk(alloc, journal, at, op)
}
