//! Modules on threads, guarded so that memory can be refused to that run alone.
use crate::answers::put_end;
use crate::calls::step_of;
use crate::fault::Fault;
use crate::held::{FirstCommits, HeldModule, Hold, held_modules};
use crate::made::{Chosen, boxes};
use crate::noted::{put_frames, put_journal};
use crate::out::{Guard, Out};
use crate::plants::Plant;
use cip_base::{Bytes, ModuleId};
use cip_chain::{root, trail};
use cip_indexed::NewModule;
use cip_module::{Module, Tables};
use cip_script::{Mode, Step};
use cip_threads::{Feed, OpenGate, Report, RunFault, feeds_fit, run_threads};
use cip_transcript::{name_in, put, put_tables, put_trail};
use cip_world::Entry;
use std::alloc::Global;
use std::sync::{Arc, Wait};
use std::thread::Threads;

/// The feeds that a line gives.
pub fn feed_of(alloc: Global, names: &[Bytes], line: &str) -> Result<(ModuleId, Feed), Fault> {
    match step_of(alloc, Mode::OnThreads, names, line)? {
        Step::Feed { module_, command } => Ok((module_, Feed::Command(command))),
        Step::Tick { module_, by } => Ok((module_, Feed::Tick(by))),
        Step::Deliver { .. } => Err(Fault::Line),
        Step::Lose { .. } => Err(Fault::Line),
        Step::Run { .. } => Err(Fault::Line),
        Step::Tables { .. } => Err(Fault::Line),
        Step::Trail { .. } => Err(Fault::Line),
        Step::Chain { .. } => Err(Fault::Line),
    }
}

fn copied(alloc: Global, feeds: &[(ModuleId, Feed)]) -> Result<Vec<(ModuleId, Feed)>, Fault> {
    let mut copies = Vec::new(alloc);
    for (at, feed) in feeds {
        copies.push((*at, feed.copy(alloc)?))?;
    }
    Ok(copies)
}

/// A run: of which modules, by how many turns, and what they are given.
#[derive(Drop)]
pub struct LiveRun {
    pub chosen: Chosen,
    pub turns: usize,
    pub feeds: Vec<(ModuleId, Feed)>,
}

// The run, with what stands about it.
fn ran<T: Threads + Wait + Sync>(
    out: &mut Out,
    workers: &T,
    plant: Plant,
    asked: &LiveRun,
    guard: Guard,
) -> Result<Result<Report, RunFault>, Fault> {
    let alloc = out.alloc();
    let topology = plant.topology(alloc)?;
    let feeds = copied(alloc, asked.feeds.as_slice())?;
    if !feeds_fit(&topology, feeds.as_slice()) {
        return Err(Fault::Line);
    }
    let made = asked.chosen.modules(alloc, &topology)?;
    let modules = boxes!(NewModule, alloc, made);
    // (what the marks say is looked at when no box is left to be given up)
    let begun = out.begin(guard);
    let turns = asked.turns;
    let report = run_threads(workers, alloc, topology, modules, feeds, turns, &OpenGate);
    begun?;
    out.end(guard)?;
    Ok(report)
}

// Where the request of the first module's op 1 went, and what the last entry there came from.
fn put_way(alloc: Global, text: &mut Vec<u8>, journal: &[Entry]) -> Result<(), Fault> {
    let way = trail(alloc, journal, ModuleId(0), 1)?;
    put_trail(text, way.as_slice())?;
    if let Some(last) = way.last() {
        let first = root(journal, *last);
        let told = format!(in alloc; "root {first:?}\n")?;
        put(text, told.as_bytes())?;
    }
    Ok(())
}

fn put_all(text: &mut Vec<u8>, names: &[Bytes], tables: &[Tables]) -> Result<(), Fault> {
    for (m, one) in tables.iter().enumerate() {
        put_tables(text, name_in(names, m), one)?;
    }
    Ok(())
}

fn told(alloc: Global, names: &[Bytes], report: &Report) -> Result<Vec<u8>, Fault> {
    let mut text = Vec::new(alloc);
    put_end(&mut text, report.end)?;
    let left = report.waiting.feeds.as_slice().len();
    let left = format!(in alloc; "feeds {left}\n")?;
    put(&mut text, left.as_bytes())?;
    put_frames(alloc, &mut text, report.waiting.frames.as_slice())?;
    put_journal(&mut text, names, report.journal.as_slice())?;
    put_all(&mut text, names, report.tables.as_slice())?;
    put_way(alloc, &mut text, report.journal.as_slice())?;
    Ok(text)
}

/// Runs modules on threads between the marks. Where memory is refused, or no thread is made, the
/// lines tell so, and all is made `anew` for the same run without marks.
pub fn run_live<T: Threads + Wait + Sync>(
    out: &mut Out,
    workers: &T,
    plant: Plant,
    names: &[Bytes],
    asked: &LiveRun,
) -> Result<(), Fault> {
    let alloc = out.alloc();
    let mut report = ran(out, workers, plant, asked, Guard::Marks)?;
    let refused = report.as_ref().err().copied();
    if let Some(fault) = refused {
        if fault == RunFault::NoMemory || fault == RunFault::NoThread {
            let told = format!(in alloc; "{fault}\nanew\n")?;
            out.put(told.as_str())?;
            report = ran(out, workers, plant, asked, Guard::Nothing)?;
        }
    }
    tell(out, names, report)
}

// What came of a run.
fn tell(out: &mut Out, names: &[Bytes], report: Result<Report, RunFault>) -> Result<(), Fault> {
    let alloc = out.alloc();
    match report {
        Ok(report) => out.put_bytes(told(alloc, names, &report)?.as_slice()),
        Err(fault) => {
            let told = format!(in alloc; "{fault}\n")?;
            out.put(told.as_str())
        }
    }
}

/// A run of all modules, each of which waits before each step until so many steps were begun, and
/// before it enters its first step until so many modules came to that.
#[derive(Drop)]
pub struct HeldRun {
    pub steps: u64,
    pub commits: u64,
    pub turns: usize,
    pub feeds: Vec<(ModuleId, Feed)>,
}

/// Runs modules on threads that wait for one another, and tells how many steps and how many first
/// entries found all come.
pub fn run_held<T: Threads + Wait + Sync>(
    out: &mut Out,
    workers: &T,
    plant: Plant,
    names: &[Bytes],
    asked: HeldRun,
) -> Result<(), Fault> {
    let alloc = out.alloc();
    let topology = plant.topology(alloc)?;
    if !feeds_fit(&topology, asked.feeds.as_slice()) {
        return Err(Fault::Line);
    }
    let hold = Arc::new(alloc, Hold::new(asked.steps))?;
    let gate = FirstCommits {
        hold: Hold::new(asked.commits),
    };
    let made = held_modules(alloc, topology.configs(), &hold)?;
    let modules = boxes!(HeldModule, alloc, made);
    let HeldRun { turns, feeds, .. } = asked;
    let report = run_threads(workers, alloc, topology, modules, feeds, turns, &gate);
    let passed = (hold.passed(), gate.hold.passed());
    let passed = format!(in alloc; "steps {} entries {}\n", passed.0, passed.1)?;
    out.put(passed.as_str())?;
    tell(out, names, report)
}
