//! The worker of one module.
ghost use Rattle.std.specs.Prelude.{◌≡◌, ◌↔◌, IfOk, IfNone, OnOk, IsTrue, Some, reverse};
ghost use Rattle.cip_routing.specs.State.{initial_state};
ghost use Rattle.cip_threads.specs.Messages.{Leads};

use crate::book::{Book, Taken};
use crate::gate::Gate;
use crate::message::Message;
use crate::state::CommitFault;
use crate::views::TakenTurn;
use cip_base::{ModuleId, NoMemory};
use cip_routing::{Event, Module, Output, StepFault};
use cip_world::{Outputs, is_fresh};
use crossbeam_channel::Sender;
use std::alloc::Global;
use std::sync::Wait;

/// How a worker ended.
#[derive(Clone, Copy, PartialEq, Eq)]
pub(crate) enum Ended {
    /// It was told to stop, and sent its message.
    Done,
    NoMemory,
    NoThread,
    /// Its module answered that the clock is full.
    ClockFull(ModuleId),
    /// The book and this worker differ.
    Split(ModuleId),
}

fn copy_outputs(alloc: Global, outputs: &[Output]) -> Result<Vec<Output>, NoMemory> {
    let mut copies = Vec::new(alloc);
    for output in outputs {
        let copy = output.copy(alloc)?;
        copies.push(copy)?;
    }
    Ok(copies)
}

// One step of the module, kept in the history. Its outputs come back as a copy.
fn turn(
    alloc: Global,
    boxed: &mut Box<dyn Module + Send>,
    history: &mut Vec<TakenTurn>,
    event: Event,
) -> Result<Vec<Output>, StepFault>
    requires { Leads (config_of boxed.old) (reverse history.old.items) (state_of boxed.old) }
    ensures config { config_of boxed.new ≡ config_of boxed.old }
    ensures ok { OnOk result
        (Leads (config_of boxed.new) (reverse history.new.items) (state_of boxed.new)) }
{
    let Ok(kept) = event.copy(alloc) else {
        return Err(StepFault::NoMemory(event));
    };
    if history.reserve(1).is_err() {
        return Err(StepFault::NoMemory(event));
    }
    let outputs = boxed.step(event)?;
    let Ok(copies) = copy_outputs(alloc, outputs.as_slice()) else {
        return Err(StepFault::NoMemory(kept));
    };
    history.push_reserved(TakenTurn {
        event: kept,
        outputs: Outputs::of(outputs),
    });
    Ok(copies)
}

// Takes an event, steps outside the lock and commits; or how the worker ends.
fn round<R: Wait, G: Gate>(
    rt: &R,
    alloc: Global,
    book: &Book,
    gate: &G,
    m: ModuleId,
    commits: usize,
    boxed: &mut Box<dyn Module + Send>,
    history: &mut Vec<TakenTurn>,
) -> Option<Ended>
    requires { Leads (config_of boxed.old) (reverse history.old.items) (state_of boxed.old) }
    ensures config { config_of boxed.new ≡ config_of boxed.old }
    ensures goes_on { IfNone result
        (Leads (config_of boxed.new) (reverse history.new.items) (state_of boxed.new)) }
    ensures done { result ≡ Some Ended.Done
        → Leads (config_of boxed.new) (reverse history.new.items) (state_of boxed.new) }
{
    let event = match book.take(rt, m) {
        Ok(Taken::Work(event)) => event,
        Ok(Taken::Stop) => return Some(Ended::Done),
        Ok(Taken::Held) => return Some(Ended::Split(m)),
        Err(_) => return Some(Ended::NoMemory),
    };
    let outputs = match turn(alloc, boxed, history, event) {
        Ok(outputs) => outputs,
        Err(StepFault::NoMemory(_)) => return Some(Ended::NoMemory),
        Err(StepFault::ClockFull(_)) => return Some(Ended::ClockFull(m)),
    };
    gate.before_commit(m, commits);
    match book.commit(rt, m, outputs) {
        Ok(()) => None,
        Err(CommitFault::NoMemory) => Some(Ended::NoMemory),
        Err(CommitFault::NothingInHand) => Some(Ended::Split(m)),
    }
}

// Takes, steps and commits until the book says stop.
fn work<R: Wait, G: Gate>(
    rt: &R,
    alloc: Global,
    book: &Book,
    gate: &G,
    m: ModuleId,
    boxed: &mut Box<dyn Module + Send>,
    history: &mut Vec<TakenTurn>,
) -> Ended
    requires { Leads (config_of boxed.old) (reverse history.old.items) (state_of boxed.old) }
    ensures config { config_of boxed.new ≡ config_of boxed.old }
    ensures done { result ≡ Ended.Done
        → Leads (config_of boxed.new) (reverse history.new.items) (state_of boxed.new) }
{
    let mut commits = 0usize;
    for _ in rt.forever() {
        if let Some(ended) = round(rt, alloc, book, gate, m, commits, boxed, history) {
            return ended;
        }
        commits = commits.wrapping_add(1);
    }
    unreachable!()
}

// The message of a module that took all its turns.
fn run_worker<R: Wait, G: Gate>(
    rt: &R,
    alloc: Global,
    book: &Book,
    gate: &G,
    m: ModuleId,
    boxed: Box<dyn Module + Send>,
) -> Result<Message, Ended> {
    let mut boxed = boxed;
    match is_fresh(alloc, &boxed) {
        Ok(true) => {}
        Ok(false) => return Err(Ended::Split(m)),
        Err(NoMemory) => return Err(Ended::NoMemory),
    }
    let Ok(config) = boxed.config().copy(alloc) else {
        return Err(Ended::NoMemory);
    };
    let mut history = Vec::new(alloc);
    let ended = work(rt, alloc, book, gate, m, &mut boxed, &mut history);
    if ended != Ended::Done {
        return Err(ended);
    }
    let Ok(tables) = boxed.tables() else {
        return Err(Ended::NoMemory);
    };
    Ok(Message::new(m, config, history, tables))
}

/// Where workers serve. What they share stands behind a trait, so that a thread's closure holds one
/// name of a type that threads may share, and not all that the book is made of.
pub(crate) trait Post {
    /// The whole life of a worker: who fails stops the others.
    fn serve<R: Wait>(
        &self,
        rt: &R,
        alloc: Global,
        m: ModuleId,
        boxed: Box<dyn Module + Send>,
    ) -> Ended;

    /// Ends all of them.
    fn stop<R: Wait>(&self, rt: &R);
}

/// What workers share: the book, the gate, and where their messages go.
#[derive(Drop)]
pub(crate) struct Shared<'a, G> {
    pub(crate) book: &'a Book,
    pub(crate) gate: &'a G,
    pub(crate) to: &'a Sender<Message>,
}

impl<G: Gate> Post for Shared<'_, G> {
    fn serve<R: Wait>(
        &self,
        rt: &R,
        alloc: Global,
        m: ModuleId,
        boxed: Box<dyn Module + Send>,
    ) -> Ended {
        match run_worker(rt, alloc, self.book, self.gate, m, boxed) {
            Ok(message) => {
                if self.to.send(rt, message).is_err() {
                    self.book.stop(rt);
                    return Ended::NoMemory;
                }
                Ended::Done
            }
            Err(ended) => {
                self.book.stop(rt);
                ended
            }
        }
    }

    fn stop<R: Wait>(&self, rt: &R) {
        self.book.stop(rt);
    }
}
