//! Calls of a world, and what it answers them.
use crate::answers::Answer;
use crate::fault::Fault;
use cip_base::{Bytes, ModuleId, NoMemory};
use cip_chain::{TrailIndex, chain, root, trail};
use cip_script::{Mode, Step, read_steps};
use cip_world::{Entry, Shown, World};
use std::alloc::Global;

/// A call of a world.
#[derive(Drop)]
pub enum Call {
    Step(Step),
    DeliverLeast,
    IsQuiet,
    Waiting,
    /// The whole journal, which takes no memory.
    Journal,
    /// Where each frame came in, likewise.
    Came,
    /// The entry from which an entry comes.
    Root(usize),
    /// Whether trails by an index are those that a walk finds.
    Trails,
}

/// The step that a line of a script is.
pub fn step_of(alloc: Global, mode: Mode, names: &[Bytes], line: &str) -> Result<Step, Fault> {
    let mut steps = read_steps(alloc, mode, names, line.as_bytes())?;
    match steps.pop() {
        Some(numbered) => Ok(numbered.step),
        None => Err(Fault::Line),
    }
}

/// The call that a line asks for.
pub fn call_of(alloc: Global, names: &[Bytes], line: &str) -> Result<Call, Fault> {
    match line {
        "least" => Ok(Call::DeliverLeast),
        "quiet" => Ok(Call::IsQuiet),
        "waiting" => Ok(Call::Waiting),
        "journal" => Ok(Call::Journal),
        "came" => Ok(Call::Came),
        "trails" => Ok(Call::Trails),
        line => match line.strip_prefix("root ") {
            Some(entry) => Ok(Call::Root(entry.parse::<usize>().ok().ok_or(Fault::Line)?)),
            None => Ok(Call::Step(step_of(alloc, Mode::InTurn, names, line)?)),
        },
    }
}

impl Call {
    /// Whether it delivers frames, several of them perhaps.
    pub fn is_run(&self) -> bool {
        match self {
            Call::Step(Step::Run { .. }) => true,
            _ => false,
        }
    }

    /// What is left to do of it once so many frames arrived.
    pub fn less(self, arrived: usize) -> Call {
        match self {
            Call::Step(Step::Run { limit }) => Call::Step(Step::Run {
                limit: limit.saturating_sub(arrived),
            }),
            call => call,
        }
    }
}

// Whether the index finds the trails that a walk finds, of every op at every module, three times.
fn are_alike(alloc: Global, journal: &[Entry]) -> Result<bool, NoMemory> {
    let mut index = TrailIndex::new(alloc);
    for _turn in 0..3 {
        for at in 0..4 {
            for op in 0..6 {
                let walked = trail(alloc, journal, ModuleId(at), op)?;
                let found = index.trail(journal, ModuleId(at), op)?;
                if found.as_slice() != walked.as_slice() {
                    return Ok(false);
                }
            }
        }
    }
    Ok(true)
}

fn ask_step(alloc: Global, world: &mut World, step: Step) -> Answer
    requires stand { ⟦<World as Shown>⟧.stands world.old }
    ensures stand { ⟦<World as Shown>⟧.stands world.new }
{
    match step {
        Step::Feed { module_, command } => Answer::Entry(world.feed(module_, command)),
        Step::Tick { module_, by } => Answer::Entry(world.tick(module_, by)),
        Step::Deliver { frame } => Answer::Entry(world.deliver(frame)),
        Step::Lose { frame } => Answer::Entry(world.lose(frame)),
        Step::Run { limit } => Answer::Ended(world.run(limit)),
        Step::Tables { module_ } => Answer::Tables(module_, world.tables(module_)),
        Step::Trail { module_, op } => { Answer::Trail(trail(alloc, world.journal(), module_, op)) }
        Step::Chain { module_, op } => Answer::Chain(chain(alloc, world, module_, op)),
    }
}

/// Makes a call of a world.
pub fn ask(alloc: Global, world: &mut World, call: Call) -> Answer
    requires stand { ⟦<World as Shown>⟧.stands world.old }
    ensures stand { ⟦<World as Shown>⟧.stands world.new }
{
    match call {
        Call::Step(step) => ask_step(alloc, world, step),
        Call::DeliverLeast => Answer::Delivered(world.deliver_least()),
        Call::IsQuiet => Answer::Quiet(world.is_quiet()),
        Call::Waiting => Answer::Frames(world.waiting()),
        Call::Journal => Answer::Journal,
        Call::Came => Answer::Came,
        Call::Root(entry) => Answer::Root(root(world.journal(), entry)),
        Call::Trails => Answer::Alike(are_alike(alloc, world.journal())),
    }
}
