//! Steps played over a world, of which nothing is printed.
ghost use Rattle.std.specs.Prelude.{◌≡◌};
ghost use Rattle.cip_ends.specs.Silent.{Plays};

use cip_base::{ModuleId, Ms};
use cip_event::{Command, FrameName};
use cip_script::{ScriptFault, Step};
use cip_world::{End, Shown, World, WorldFault};

/// Why a step was not played to its end.
#[derive(Clone, Copy)]
pub enum PlayFault {
    /// NoFrame: the frame that is named does not wait. ClockFull: the clock of a module is full, or
    /// there is no such module.
    Stopped(ScriptFault),
    /// An allocation was refused.
    NoMemory,
}

fn feed(world: &mut World, at: ModuleId, command: Command) -> Result<(), PlayFault>
    requires stand { ⟦<World as Shown>⟧.stands world.old }
    ensures stand { ⟦<World as Shown>⟧.stands world.new }
    ensures plan { world.new.ledger.plan ≡ world.old.ledger.plan }
    ensures plays { Plays world.old.ledger.plan world.old.ledger.journal
        world.new.ledger.journal (Step.Feed at command) result }
{
    match world.feed(at, command) {
        Ok(_) => Ok(()),
        // A module that the topology doesn't have cannot come of a step that was read.
        Err(WorldFault::NoModule) => Err(PlayFault::Stopped(ScriptFault::ClockFull)),
        Err(WorldFault::Step(_)) => Err(PlayFault::Stopped(ScriptFault::ClockFull)),
        Err(_) => Err(PlayFault::NoMemory),
    }
}

fn tick(world: &mut World, at: ModuleId, by: Ms) -> Result<(), PlayFault>
    requires stand { ⟦<World as Shown>⟧.stands world.old }
    ensures stand { ⟦<World as Shown>⟧.stands world.new }
    ensures plan { world.new.ledger.plan ≡ world.old.ledger.plan }
    ensures plays { Plays world.old.ledger.plan world.old.ledger.journal
        world.new.ledger.journal (Step.Tick at by) result }
{
    match world.tick(at, by) {
        Ok(_) => Ok(()),
        Err(WorldFault::NoModule) => Err(PlayFault::Stopped(ScriptFault::ClockFull)),
        Err(WorldFault::Step(_)) => Err(PlayFault::Stopped(ScriptFault::ClockFull)),
        Err(_) => Err(PlayFault::NoMemory),
    }
}

fn deliver(world: &mut World, frame: FrameName) -> Result<(), PlayFault>
    requires stand { ⟦<World as Shown>⟧.stands world.old }
    ensures stand { ⟦<World as Shown>⟧.stands world.new }
    ensures plan { world.new.ledger.plan ≡ world.old.ledger.plan }
    ensures plays { Plays world.old.ledger.plan world.old.ledger.journal
        world.new.ledger.journal (Step.Deliver frame) result }
{
    match world.deliver(frame) {
        Ok(_) => Ok(()),
        Err(WorldFault::NoFrame) => Err(PlayFault::Stopped(ScriptFault::NoFrame)),
        Err(_) => Err(PlayFault::NoMemory),
    }
}

fn lose(world: &mut World, frame: FrameName) -> Result<(), PlayFault>
    requires stand { ⟦<World as Shown>⟧.stands world.old }
    ensures stand { ⟦<World as Shown>⟧.stands world.new }
    ensures plan { world.new.ledger.plan ≡ world.old.ledger.plan }
    ensures plays { Plays world.old.ledger.plan world.old.ledger.journal
        world.new.ledger.journal (Step.Lose frame) result }
{
    match world.lose(frame) {
        Ok(_) => Ok(()),
        Err(WorldFault::NoFrame) => Err(PlayFault::Stopped(ScriptFault::NoFrame)),
        Err(_) => Err(PlayFault::NoMemory),
    }
}

fn run(world: &mut World, limit: usize) -> Result<(), PlayFault>
    requires stand { ⟦<World as Shown>⟧.stands world.old }
    ensures stand { ⟦<World as Shown>⟧.stands world.new }
    ensures plan { world.new.ledger.plan ≡ world.old.ledger.plan }
    ensures plays { Plays world.old.ledger.plan world.old.ledger.journal
        world.new.ledger.journal (Step.Run limit) result }
{
    match world.run(limit) {
        Ok(End::Quiet) => Ok(()),
        Ok(End::Limit) => Ok(()),
        Err(_) => Err(PlayFault::NoMemory),
    }
}

/// One step of a script over a world: the entries that it adds, by the calls of the world. What
/// only shows something does nothing. Stopped with NoFrame where the frame that is named does not
/// wait, with ClockFull where a clock is full or there is no such module; NoMemory where an
/// allocation is refused. The world is as it was then, but for the frames of a `run` that arrived
/// before.
pub fn play_step(world: &mut World, step: Step) -> Result<(), PlayFault>
    requires stand { ⟦<World as Shown>⟧.stands world.old }
    ensures stand { ⟦<World as Shown>⟧.stands world.new }
    ensures plan { world.new.ledger.plan ≡ world.old.ledger.plan }
    ensures plays { Plays world.old.ledger.plan world.old.ledger.journal
        world.new.ledger.journal step result }
{
    match step {
        Step::Feed { module_, command } => feed(world, module_, command),
        Step::Tick { module_, by } => tick(world, module_, by),
        Step::Deliver { frame } => deliver(world, frame),
        Step::Lose { frame } => lose(world, frame),
        Step::Run { limit } => run(world, limit),
        Step::Tables { .. } => Ok(()),
        Step::Trail { .. } => Ok(()),
        Step::Chain { .. } => Ok(()),
    }
}
