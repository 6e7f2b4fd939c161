//! Modules on threads.
ghost use Rattle.std.specs.Prelude.{◌≡◌, ◌≤◌, ◌<◌, ◌+◌, ◌^◌, ◌∷◌, [], All, IfErr, IfOk, IfNone};
ghost use Rattle.std.specs.Prelude.{IfSome, IsTrue, None, OnOk, get_or, length, map, reverse, set};
ghost use Rattle.std.specs.Prelude.{vec_len};
ghost use Rattle.cip_world.specs.Fresh.{AreFresh};
ghost use Rattle.cip_world.specs.Journals.{Journal};
ghost use Rattle.cip_threads.specs.Feeds.{feeds_of, ticks_of};
ghost use Rattle.cip_threads.specs.Meetings.{AreMet};
ghost use Rattle.cip_threads.specs.Reports.{Agrees, AgreeTo, IsReport, IsRunFault, IsWorkerFault};
ghost use Rattle.cip_threads.specs.Reports.{Passes};

use crate::book::Book;
use crate::feed::Feed;
use crate::gate::Gate;
use crate::lists::Items;
use crate::message::{Followed, Message, meet};
use crate::report::{CompareFault, Report, RunFault, Waiting};
use crate::state::{BookState, Finished, copy_feeds};
use crate::worker::{Ended, Post, Shared};
use cip_base::{ModuleId, NoMemory};
use cip_chassis::Topology;
use cip_clock::{ClockFull, LAST};
use cip_routing::{Module, ModuleConfig, Tables};
use cip_world::{Entry, NewFault, check_fresh};
use crossbeam_channel::{Receiver, unbounded};
use std::alloc::Global;
use std::sync::Wait;
use std::thread;
use std::thread::Threads;

// Starts a worker for each module, and waits for all of them. The first of them that failed says
// how it ended.
fn run_workers<R: Threads + Wait + Sync, P: Post + Sync>(
    rt: &R,
    alloc: Global,
    post: &P,
    modules: Vec<Box<dyn Module + Send>>,
) -> Ended {
    thread::scope(thread::scope_env(), rt, |scope| -> Ended {
        let mut ended = Ended::Done;
        let mut handles = Vec::new(alloc);
        for (m, boxed) in modules.into_iter().enumerate() {
            match scope.spawn(move || post.serve(rt, alloc, ModuleId(m), boxed)) {
                Ok(handle) => {
                    if handles.push(handle).is_err() {
                        post.stop(rt);
                        ended = Ended::NoMemory;
                    }
                }
                Err(_) => {
                    post.stop(rt);
                    ended = Ended::NoThread;
                }
            }
        }
        for handle in handles {
            let one = handle.join(rt);
            if one != Ended::Done && ended == Ended::Done {
                ended = one;
            }
        }
        ended
    })
}

fn place(slots: &mut Vec<Option<Followed>>, message: Message)
    requires { AreMet [] slots.old.items }
    ensures count { vec_len slots.new ≡ vec_len slots.old }
    ensures met { AreMet [] slots.new.items }
{
    let m = message.m();
    if m.0 < slots.len() {
        slots[m.0] = Some(Followed::new(message));
    }
}

// The messages that came, each at its module's place.
fn gather<R: Wait>(
    rt: &R,
    alloc: Global,
    from: &Receiver<Message>,
    count: usize,
) -> Result<Vec<Option<Followed>>, NoMemory>
    ensures count { IfOk result (λ v. vec_len v ≡ count) }
    ensures met { IfOk result (λ v. AreMet [] v.items) }
{
    let mut slots = Vec::new(alloc);
    for _i in 0..count {
        slots.push(None)?;
    }
    for _i in 0..count {
        if let Ok(message) = from.try_recv(rt) {
            place(&mut slots, message);
        }
    }
    Ok(slots)
}

// Each message beside the journal: what differs from it is dropped.
fn follow(slots: &mut Vec<Option<Followed>>, journal: &[Entry])
    requires { AreMet [] slots.old.items }
    ensures count { vec_len slots.new ≡ vec_len slots.old }
    ensures met { AreMet (reverse journal.now) slots.new.items }
{
    for i in 0..journal.len() {
        meet(slots, journal, i);
    }
}

fn take_message(slots: &mut Vec<Option<Followed>>, m: usize) -> Option<Followed>
    requires { m < vec_len slots.old }
    ensures value { result ≡ get_or slots.old.items m None }
    ensures after { slots.new.items ≡ set slots.old.items m None }
{
    slots[m].take()
}

// The tables of a module, where its message came and goes with a journal to its end.
fn agreed(slots: &mut Vec<Option<Followed>>, config: &ModuleConfig, m: usize) -> Option<Tables>
    requires { m < vec_len slots.old }
    ensures count { vec_len slots.new ≡ vec_len slots.old }
    ensures met { (j : Journal) → AreMet j slots.old.items → AreMet j slots.new.items }
    ensures agrees { (j : Journal) → AreMet j slots.old.items
        → IfSome result (Agrees config.now j m) }
{
    match take_message(slots, m) {
        Some(followed) => followed.tables(config),
        None => None,
    }
}

// The tables of all modules, where each message agrees with the journal.
fn compare(
    alloc: Global,
    messages: Vec<Option<Followed>>,
    topology: &Topology,
    journal: &[Entry],
) -> Result<Vec<Tables>, CompareFault>
    requires count { vec_len messages ≡ length topology.now.modules }
    requires met { AreMet [] messages.items }
    ensures { IfOk result (λ v. AgreeTo topology.now (reverse journal.now) v.items
        (length topology.now.modules)) }
{
    let mut messages = messages;
    follow(&mut messages, journal);
    let mut tables = Vec::new(alloc);
    let configs = topology.configs();
    for m in 0..configs.len() {
        let Some(one) = agreed(&mut messages, &configs[m], m) else {
            return Err(CompareFault::Differs(ModuleId(m)));
        };
        let Ok(()) = tables.push(one) else {
            return Err(CompareFault::NoMemory);
        };
    }
    Ok(tables)
}

fn report_of(finished: Finished, tables: Vec<Tables>) -> Report
    ensures journal { result.journal ≡ finished.journal.items }
    ensures tables { result.tables ≡ tables.items }
    ensures feeds { result.waiting.feeds ≡ finished.feeds.items }
    ensures frames { result.waiting.frames ≡ finished.frames.items }
    ensures end { result.end ≡ finished.end }
{
    Report {
        journal: Items::of(finished.journal),
        tables: Items::of(tables),
        waiting: Waiting {
            feeds: Items::of(finished.feeds),
            frames: Items::of(finished.frames),
        },
        end: finished.end,
    }
}

// The time with one more feed of a module.
fn time_with(now: u64, given: &(ModuleId, Feed), m: usize) -> u64
    requires { now < 2 ^ 63 }
    ensures { result ≡ now + ticks_of (feeds_of m (given.now ∷ [])) }
{
    let id = given.0;
    if id.0 != m {
        return now;
    }
    match &given.1 {
        Feed::Command(_) => now,
        Feed::Tick(by) => now + 1000 * u64::from(by.get()),
    }
}

// The time of a module after all its ticks, unless that passes the last time.
fn time_after(config: &ModuleConfig, feeds: &[(ModuleId, Feed)], m: usize) -> Option<u64>
    ensures { IfNone result (2 ^ 63 ≤ config.now.clock + ticks_of (feeds_of m feeds.now)) }
{
    let mut now = config.settings().clock;
    for i in 0..feeds.len() {
        if now > LAST {
            return None;
        }
        now = time_with(now, &feeds[i], m);
    }
    if now > LAST {
        return None;
    }
    Some(now)
}

// Whether the first clock of some module and all its ticks together pass the last time.
fn some_passes(topology: &Topology, feeds: &[(ModuleId, Feed)]) -> bool
    ensures { IsTrue result → Passes topology.now feeds.now }
{
    let configs = topology.configs();
    for m in 0..configs.len() {
        if time_after(&configs[m], feeds, m).is_none() {
            return true;
        }
    }
    false
}

// What a run answers where the workers have not all done their part.
fn fault_of(ended: Ended, topology: &Topology, feeds: &[(ModuleId, Feed)]) -> Option<RunFault>
    ensures { IfSome result (IsWorkerFault topology.now feeds.now) }
{
    match ended {
        Ended::Done => None,
        Ended::NoMemory => Some(RunFault::NoMemory),
        Ended::NoThread => Some(RunFault::NoThread),
        Ended::ClockFull(m) => {
            if some_passes(topology, feeds) {
                return Some(RunFault::Step(ClockFull));
            }
            Some(RunFault::Split(m))
        }
        Ended::Split(m) => Some(RunFault::Split(m)),
    }
}

// The report of what the book and the messages have, where they are of one run.
fn report(
    alloc: Global,
    state: BookState,
    messages: Vec<Option<Followed>>,
    topology: &Topology,
    feeds: &[(ModuleId, Feed)],
    turns: usize,
) -> Result<Report, RunFault>
    requires count { vec_len messages ≡ length topology.now.modules }
    requires met { AreMet [] messages.items }
    ensures ok { IfOk result (λ r. IsReport topology.now feeds.now turns
        (reverse r.journal) r.tables r.waiting.feeds r.waiting.frames r.end) }
    ensures fault { IfErr result (IsWorkerFault topology.now feeds.now) }
{
    let finished = match state.finish(topology, feeds, turns) {
        Ok(finished) => finished,
        Err(CompareFault::NoMemory) => return Err(RunFault::NoMemory),
        Err(CompareFault::Differs(m)) => return Err(RunFault::Split(m)),
    };
    let tables = match compare(alloc, messages, topology, finished.journal.as_slice()) {
        Ok(tables) => tables,
        Err(CompareFault::NoMemory) => return Err(RunFault::NoMemory),
        Err(CompareFault::Differs(m)) => return Err(RunFault::Split(m)),
    };
    Ok(report_of(finished, tables))
}

// The book of a run that begins.
fn book_of(
    alloc: Global,
    topology: &Topology,
    feeds: &[(ModuleId, Feed)],
    turns: usize,
) -> Result<Book, NoMemory>
    requires { All (λ fed. fed.0.0 < length topology.now.modules) feeds.now }
{
    let own = topology.copy(alloc)?;
    let given = copy_feeds(alloc, feeds)?;
    Ok(Book::new(BookState::new(alloc, own, given, turns)?))
}

// What a run answers once its workers have ended.
fn ended_with<R: Wait>(
    rt: &R,
    alloc: Global,
    book: Book,
    from: &Receiver<Message>,
    topology: &Topology,
    feeds: &[(ModuleId, Feed)],
    turns: usize,
) -> Result<Report, RunFault>
    ensures ok { IfOk result (λ r. IsReport topology.now feeds.now turns
        (reverse r.journal) r.tables r.waiting.feeds r.waiting.frames r.end) }
    ensures fault { IfErr result (IsWorkerFault topology.now feeds.now) }
{
    let Ok(messages) = gather(rt, alloc, from, topology.configs().len()) else {
        return Err(RunFault::NoMemory);
    };
    report(alloc, book.into_state(), messages, topology, feeds, turns)
}

// Runs modules that are fresh.
fn run_fresh<R: Threads + Wait + Sync, G: Gate + Sync>(
    rt: &R,
    alloc: Global,
    topology: &Topology,
    modules: Vec<Box<dyn Module + Send>>,
    feeds: &[(ModuleId, Feed)],
    turns: usize,
    gate: &G,
) -> Result<Report, RunFault>
    requires { All (λ fed. fed.0.0 < length topology.now.modules) feeds.now }
    ensures ok { IfOk result (λ r. IsReport topology.now feeds.now turns
        (reverse r.journal) r.tables r.waiting.feeds r.waiting.frames r.end) }
    ensures fault { IfErr result (IsWorkerFault topology.now feeds.now) }
{
    let Ok(book) = book_of(alloc, topology, feeds, turns) else {
        return Err(RunFault::NoMemory);
    };
    let Ok((to, from)) = unbounded(alloc) else {
        return Err(RunFault::NoMemory);
    };
    let shared = Shared {
        book: &book,
        gate,
        to: &to,
    };
    let ended = run_workers(rt, alloc, &shared, modules);
    match fault_of(ended, topology, feeds) {
        Some(fault) => Err(fault),
        None => ended_with(rt, alloc, book, &from, topology, feeds, turns),
    }
}

/// Runs each module on a thread of its own, until nothing waits or so many turns are taken; a turn
/// is a feed or a frame that a module takes. The feeds of each module come in their order; in which
/// order frames come is left to the threads, and none is lost. The journal of an answer is a run,
/// and no step is under the lock: the gate is called after each, before its entry is made.
///
/// New where the modules are not those of the topology, as at the beginning: Count, then Config,
/// then NotFresh, of the least module where it holds. Step where a module's clock would pass its
/// last time, 9,223,372,036,854,775,807 microseconds. NoThread where a thread could not be started,
/// and NoMemory. Split where a module's worker and the journal differ. The modules are gone.
pub fn run_threads<R: Threads + Wait + Sync, G: Gate + Sync>(
    rt: &R,
    alloc: Global,
    topology: Topology,
    modules: Vec<Box<dyn Module + Send>>,
    feeds: Vec<(ModuleId, Feed)>,
    turns: usize,
    gate: &G,
) -> Result<Report, RunFault>
    requires { All (λ fed. fed.0.0 < length topology.modules) feeds.items }
    ensures ok { IfOk result (λ r. IsReport topology feeds.items turns
        (reverse r.journal) r.tables r.waiting.feeds r.waiting.frames r.end) }
    ensures fresh { OnOk result (AreFresh topology (map (λ b. config_of b) modules.items)
        (map (λ b. state_of b) modules.items)) }
    ensures fault { IfErr result (IsRunFault topology (map (λ b. config_of b) modules.items)
        (map (λ b. state_of b) modules.items) feeds.items) }
{
    match check_fresh(alloc, &topology, modules.as_slice()) {
        Ok(()) => {}
        Err(NewFault::Count) => return Err(RunFault::New(NewFault::Count)),
        Err(NewFault::Config(m)) => return Err(RunFault::New(NewFault::Config(m))),
        Err(NewFault::NotFresh(m)) => return Err(RunFault::New(NewFault::NotFresh(m))),
        Err(NewFault::NoMemory) => return Err(RunFault::NoMemory),
    }
    run_fresh(rt, alloc, &topology, modules, feeds.as_slice(), turns, gate)
}
