//! The one lock.
use crate::state::{BookState, CommitFault, Handed};
use cip_base::{ModuleId, NoMemory};
use cip_routing::{Event, Output};
use std::sync::{Condvar, Mutex, Wait};

/// What a call of `take` gives a module's worker.
#[derive(Drop)]
pub enum Taken {
    /// An event to step by.
    Work(Event),
    /// Nothing more comes.
    Stop,
    /// What the module took before is not committed yet.
    Held,
}

/// A book that workers share, under one lock. What its state keeps holds each time the lock is
/// taken.
///
/// A worker sleeps on its module's signal where the book is not stopped, has turns left and nothing
/// for the module, and is not quiet. Each change that ends one of these wakes it: `stop` wakes all,
/// and so does who takes the last turn and who commits what leaves the book quiet; a commit wakes
/// the modules to which its frames go. The signals come once the lock is free, and a worker looks
/// at the book and falls asleep in one hold of the lock: so none comes too early to be heard.
#[derive(Drop)]
pub struct Book {
    state: Mutex<BookState>,
    signals: Vec<Condvar>,
}

impl Book {
    /// The book of this state. It takes no memory: the state has the signals already.
    pub fn new(state: BookState) -> Book {
        let mut state = state;
        let signals = state.take_signals();
        Book {
            state: Mutex::new(state),
            signals,
        }
    }

    /// An event for the worker of a module. It waits where nothing waits for the module, turns are
    /// left, and something may come. NoMemory where an allocation is refused: nothing is taken
    /// then.
    pub fn take<R: Wait>(&self, rt: &R, m: ModuleId) -> Result<Taken, NoMemory> {
        let Some(signal) = self.signals.get(m.0) else {
            return Ok(Taken::Stop);
        };
        let mut guard = self.state.lock(rt);
        for _ in rt.forever() {
            match guard.hand(m)? {
                Handed::Work(event) => {
                    let is_last = guard.is_spent();
                    drop(guard);
                    if is_last {
                        self.wake_all();
                    }
                    return Ok(Taken::Work(event));
                }
                Handed::Stop => return Ok(Taken::Stop),
                Handed::Held => return Ok(Taken::Held),
                Handed::NotYet => {
                    guard = signal.wait(rt, guard);
                }
            }
        }
        unreachable!()
    }

    /// Commits what a module took, with what its step gave out. NoMemory, and NothingInHand also
    /// where the topology has no such module; nothing is changed then.
    pub fn commit<R: Wait>(
        &self,
        rt: &R,
        m: ModuleId,
        outputs: Vec<Output>,
    ) -> Result<(), CommitFault> {
        let mut guard = self.state.lock(rt);
        let sends = guard.enter_sends(m, outputs)?;
        let is_quiet = guard.is_quiet();
        drop(guard);
        if is_quiet {
            self.wake_all();
            return Ok(());
        }
        for (to, _) in &sends {
            self.wake(*to);
        }
        Ok(())
    }

    /// Ends the handing out: every `take` answers Stop from then on.
    pub fn stop<R: Wait>(&self, rt: &R) {
        self.state.lock(rt).stop();
        self.wake_all();
    }

    fn wake(&self, m: ModuleId) {
        if let Some(signal) = self.signals.get(m.0) {
            signal.notify_all();
        }
    }

    fn wake_all(&self) {
        for signal in &self.signals {
            signal.notify_all();
        }
    }

    /// The state, where no worker has the book any more.
    pub(crate) fn into_state(self) -> BookState {
        self.state.into_inner()
    }
}
