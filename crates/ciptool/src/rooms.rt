//! Rooms of modules that are too small for a script.
ghost use Rattle.std.specs.Prelude.{◌≡◌};
ghost use Rattle.ciptool.specs.Rooms.{Follows};
ghost use Rattle.cip_script.specs.Steps.{steps};
ghost use Rattle.cip_transcript.specs.Show.{names_of};

use cip_base::{Bytes, ModuleId, NoMemory, Status};
use cip_check::Report;
use cip_config::ModuleConfig;
use cip_ends::{PlayFault, play_step};
use cip_message::read_reply;
use cip_pending::Kind;
use cip_routing::{Body, Module, Output, Tables};
use cip_script::{Mode, Numbered, ScriptFault, Step, StepsFault, read_steps};
use cip_topology::{Key, Topology};
use cip_transcript::names_of;
use cip_world::{Entry, FrameName, Input, Shown, World, WorldFault, frame_at};
use std::alloc::{AllocError, AllocFailed, Global};
use std::collections::VecDeque;
use std::fmt;

/// Why rooms can't be looked at: the first line of the script, from 1, that is faulty or stops the
/// run; or an allocation was refused.
#[derive(Clone, Copy)]
pub enum RoomsFault {
    Script(usize, ScriptFault),
    NoMemory,
}

impl From<AllocError> for RoomsFault {
    fn from(_refused: AllocError) -> RoomsFault {
        RoomsFault::NoMemory
    }
}

impl<T: Drop> From<AllocFailed<T>> for RoomsFault {
    fn from(_refused: AllocFailed<T>) -> RoomsFault {
        RoomsFault::NoMemory
    }
}

impl From<NoMemory> for RoomsFault {
    fn from(_refused: NoMemory) -> RoomsFault {
        RoomsFault::NoMemory
    }
}

// What a module had none left of.
#[derive(Clone, Copy, PartialEq, Eq)]
enum Want {
    Pendings,
    Numbers,
    Hops,
    Ids,
}

// A module that refused a request.
#[derive(Clone, Copy)]
struct Refusal<'a> {
    line: usize,
    config: &'a ModuleConfig,
    want: Want,
}

fn show_room<W: fmt::Write>(f: &mut fmt::Formatter<W>, key: Key, room: usize) -> fmt::Result {
    write!(f, "its `{key}` of {room} is full")?;
    if room < 256 {
        f.write_str("; allowed: up to 256")
    } else {
        f.write_str(", and no more is allowed")
    }
}

impl fmt::Display for Refusal<'_> {
    fn fmt<W: fmt::Write>(&self, f: &mut fmt::Formatter<W>) -> fmt::Result {
        let settings = self.config.settings();
        let name = std::str::from_utf8(settings.name.as_slice()).unwrap_or("");
        write!(f, "{}: {name} refuses a request: ", self.line)?;
        match self.want {
            Want::Pendings => show_room(f, Key::PendingRoom, settings.pending_room),
            Want::Hops => show_room(f, Key::HopRoom, settings.hop_room),
            Want::Numbers => f.write_str("no number is left behind its `first_number`"),
            Want::Ids => f.write_str("no id is left behind its `first_id`"),
        }
    }
}

// The additional status of a reply that tells of a want of room.
fn want_in(reply: &Bytes) -> Option<u16> {
    match read_reply(reply.as_slice()) {
        Ok(view) => match view.status() {
            Status {
                general: 0x01,
                extra: Some(extra),
            } if extra == 0x0301 || extra == 0x0113 => Some(extra),
            _ => None,
        },
        Err(_) => None,
    }
}

// The same of an output.
fn want_of(output: &Output) -> Option<u16> {
    match output {
        Output::Done { reply, .. } => want_in(reply),
        Output::Send {
            body: Body::Reply { bytes, .. },
            ..
        } => want_in(bytes),
        _ => None,
    }
}

fn want_among(outputs: &[Output]) -> Option<u16> {
    for output in outputs {
        if let Some(status) = want_of(output) {
            return Some(status);
        }
    }
    None
}

// Whether a frame is a request.
fn is_request(journal: &[Entry], name: FrameName) -> bool {
    match frame_at(journal, name) {
        Some(flying) => match flying.body {
            Body::Request { .. } => true,
            _ => false,
        },
        None => false,
    }
}

// The module that refused a request in the newest entry for want of room, and the status. A reply
// that is handed on is none of its own.
fn newest_want(journal: &[Entry]) -> Option<(ModuleId, u16)> {
    let Some(Entry::Step { at, input, outputs }) = journal.last() else {
        return None;
    };
    let is_own = match input {
        Input::Command(_) => true,
        Input::Frame { name, .. } => is_request(journal, *name),
        Input::Tick(_) => false,
    };
    if !is_own {
        return None;
    }
    match want_among(outputs.as_slice()) {
        Some(status) => Some((*at, status)),
        None => None,
    }
}

// How many connections are open or opening.
fn hop_count(tables: &Tables) -> usize {
    let mut count = tables.hops.as_slice().len();
    for row in tables.pendings.as_slice() {
        match row.entry.kind {
            Kind::Opening(_) | Kind::OpeningLarge(_) => count = count.saturating_add(1),
            _ => {}
        }
    }
    count
}

// Which room is full, by the status and the tables.
fn want_by(config: &ModuleConfig, tables: &Tables, status: u16) -> Want {
    let settings = config.settings();
    if status == 0x0113 {
        if hop_count(tables) >= settings.hop_room {
            return Want::Hops;
        }
        return Want::Ids;
    }
    if tables.pendings.as_slice().len() >= settings.pending_room {
        return Want::Pendings;
    }
    Want::Numbers
}

// The same of a module of a world.
fn want_at(
    world: &World,
    at: ModuleId,
    config: &ModuleConfig,
    status: u16,
) -> Result<Want, RoomsFault>
    requires stand { ⟦<World as Shown>⟧.stands world.now }
{
    match world.tables(at) {
        Ok(tables) => Ok(want_by(config, &tables, status)),
        Err(_) => Err(RoomsFault::NoMemory),
    }
}

// What was found, each want of a module once.
#[derive(Drop)]
struct Watch {
    report: Report,
    told: Vec<(ModuleId, Want)>,
}

fn is_told(told: &[(ModuleId, Want)], at: ModuleId, want: Want) -> bool {
    told.iter().any(|one| one.0 == at && one.1 == want)
}

// Tells of the newest entry, where a module refused a request in it.
fn look(alloc: Global, world: &World, line: usize, watch: &mut Watch) -> Result<(), RoomsFault>
    requires stand { ⟦<World as Shown>⟧.stands world.now }
{
    let Some((at, status)) = newest_want(world.journal()) else {
        return Ok(());
    };
    let Some(config) = world.topology().configs().get(at.0) else {
        return Ok(());
    };
    let want = want_at(world, at, config, status)?;
    if is_told(watch.told.as_slice(), at, want) {
        return Ok(());
    }
    watch.told.push((at, want))?;
    watch.report.fault(alloc, &Refusal { line, config, want })?;
    Ok(())
}

// `run N`, entry by entry.
fn run(
    alloc: Global,
    world: &mut World,
    limit: usize,
    line: usize,
    watch: &mut Watch,
) -> Result<(), RoomsFault>
    requires stand { ⟦<World as Shown>⟧.stands world.old }
    ensures stand { ⟦<World as Shown>⟧.stands world.new }
{
    'frames: for _ in 0..limit {
        match world.deliver_least() {
            Ok(true) => look(alloc, world, line, watch)?,
            Ok(false) => return Ok(()),
            Err(_) => return Err(RoomsFault::NoMemory),
        }
    }
    Ok(())
}

fn play(
    alloc: Global,
    world: &mut World,
    step: Step,
    line: usize,
    watch: &mut Watch,
) -> Result<(), RoomsFault>
    requires stand { ⟦<World as Shown>⟧.stands world.old }
    ensures stand { ⟦<World as Shown>⟧.stands world.new }
{
    if let Step::Run { limit } = step {
        return run(alloc, world, limit, line, watch);
    }
    let before = world.journal().len();
    match play_step(world, step) {
        Ok(()) => {}
        Err(PlayFault::Stopped(fault)) => return Err(RoomsFault::Script(line, fault)),
        Err(PlayFault::NoMemory) => return Err(RoomsFault::NoMemory),
    }
    if world.journal().len() == before {
        return Ok(());
    }
    look(alloc, world, line, watch)
}

// Plays each step.
fn play_all(
    alloc: Global,
    world: &mut World,
    steps: Vec<Numbered>,
    watch: &mut Watch,
) -> Result<(), RoomsFault>
    requires stand { ⟦<World as Shown>⟧.stands world.old }
    ensures stand { ⟦<World as Shown>⟧.stands world.new }
{
    let mut left = VecDeque::from(steps);
    'steps: while let Some(numbered) = left.pop_front() {
        play(alloc, world, numbered.step, numbered.line, watch)?;
    }
    Ok(())
}

// The same over a world, and what was found.
fn watched(alloc: Global, world: &mut World, steps: Vec<Numbered>) -> Result<Report, RoomsFault>
    requires stand { ⟦<World as Shown>⟧.stands world.old }
{
    let mut watch = Watch {
        report: Report::new(alloc),
        told: Vec::new(alloc),
    };
    play_all(alloc, world, steps, &mut watch)?;
    Ok(watch.report)
}

// The same over the modules of a topology.
fn watched_over(
    alloc: Global,
    topology: Topology,
    modules: Vec<Box<dyn Module + Send>>,
    steps: Vec<Numbered>,
) -> Result<Report, RoomsFault> {
    match World::new(alloc, topology, modules) {
        Ok(world) => {
            let mut world = world;
            watched(alloc, &mut world, steps)
        }
        // Of new modules memory alone can be wanting.
        Err(_) => Err(RoomsFault::NoMemory),
    }
}

/// Plays a script over the modules of a topology, in its order and each as at its beginning, and
/// tells of each module that refused a request since a room of it was full, or its numbers or ids
/// were spent: where first, and which key of the file says so. Script is the first line that is
/// faulty, before any is played, or the one that stops the run; NoMemory where an allocation is
/// refused.
pub fn small_rooms(
    alloc: Global,
    topology: Topology,
    modules: Vec<Box<dyn Module + Send>>,
    script: &[u8],
) -> Result<Report, RoomsFault>
    ensures { Follows (steps Mode.InTurn (names_of topology) script.now) result }
{
    match names_of(alloc, &topology) {
        Ok(names) => match read_steps(alloc, Mode::InTurn, names.as_slice(), script) {
            Ok(steps) => watched_over(alloc, topology, modules, steps),
            Err(StepsFault::Script(line, fault)) => Err(RoomsFault::Script(line, fault)),
            Err(StepsFault::NoMemory) => Err(RoomsFault::NoMemory),
        },
        Err(NoMemory) => Err(RoomsFault::NoMemory),
    }
}
