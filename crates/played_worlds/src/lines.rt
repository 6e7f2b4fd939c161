//! Lines that make calls of a world.
//!
//! - Each line of a console's script is a call of the world: a command to a module, `tick`,
//! `deliver`, `lose`, `run`, `tables`, `trail` and `chain`. So are `least`, `quiet`, `waiting`,
//! `journal`, `came`, `root ENTRY` and `trails`. X is the name of a module that is not there. What
//! is answered is an entry's number, a text, or why there is none.
//! - `new PLACES` makes a world of the modules at these places of the chassis, a digit for each,
//! and `check PLACES` looks at them. Behind both may stand which of them took a millisecond.
//! - `feed LINE` keeps a command or a tick, and `threads TURNS PLACES` runs new modules on threads
//! with what was kept. `held STEPS COMMITS TURNS` runs all modules so, each of which waits before
//! each step until so many steps were begun, and before it enters its first one until so many
//! modules came to that. It tells how many steps and entries found all of them come.
//!
//! Each call but `held` is guarded (`guarded.rt`, `made.rt`, `live.rt`). What comes of a line is
//! lines, and then an empty one.
use crate::fault::Fault;
use crate::guarded::guarded;
use crate::held::{HeldModule, Hold, held_modules};
use crate::live::{HeldRun, LiveRun, feed_of, run_held, run_live};
use crate::made::{Chosen, Trial, boxes, tried};
use crate::out::Out;
use crate::plants::Plant;
use cip_base::{Bytes, ModuleId};
use cip_indexed::{NewModule, new_modules};
use cip_module::Module;
use cip_threads::Feed;
use cip_transcript::names_of;
use cip_world::{Shown, World};
use std::alloc::Global;
use std::io::{BufRead, BufReader, Read};
use std::mem;
use std::sync::{Arc, Wait};
use std::thread::Threads;

// The names of the modules, and one of a module that is not there.
fn names(alloc: Global, plant: Plant) -> Result<Vec<Bytes>, Fault> {
    let mut names = names_of(alloc, &plant.topology(alloc)?)?;
    names.push(Bytes::of(Vec::from_slice(alloc, b"X")?))?;
    Ok(names)
}

/// What lines that ask nothing of the world speak of.
#[derive(Drop)]
struct Beside {
    plant: Plant,
    names: Vec<Bytes>,
    feeds: Vec<(ModuleId, Feed)>,
}

impl Beside {
    fn new(alloc: Global, plant: Plant) -> Result<Beside, Fault> {
        Ok(Beside {
            plant,
            names: names(alloc, plant)?,
            feeds: Vec::new(alloc),
        })
    }

    // `TURNS PLACES`
    fn on_threads<T: Threads + Wait + Sync>(
        &mut self,
        out: &mut Out,
        workers: &T,
        words: &str,
    ) -> Result<(), Fault> {
        let alloc = out.alloc();
        let (turns, places) = words.split_once(' ').ok_or(Fault::Line)?;
        let kept = LiveRun {
            chosen: Chosen::of(alloc, places)?,
            turns: turns.parse::<usize>().ok().ok_or(Fault::Line)?,
            feeds: mem::replace(&mut self.feeds, Vec::new(alloc)),
        };
        run_live(out, workers, self.plant, self.names.as_slice(), &kept)
    }

    // `STEPS COMMITS TURNS`
    fn held<T: Threads + Wait + Sync>(
        &mut self,
        out: &mut Out,
        workers: &T,
        words: &str,
    ) -> Result<(), Fault> {
        let (steps, rest) = words.split_once(' ').ok_or(Fault::Line)?;
        let (commits, turns) = rest.split_once(' ').ok_or(Fault::Line)?;
        let asked = HeldRun {
            steps: steps.parse::<u64>().ok().ok_or(Fault::Line)?,
            commits: commits.parse::<u64>().ok().ok_or(Fault::Line)?,
            turns: turns.parse::<usize>().ok().ok_or(Fault::Line)?,
            feeds: mem::replace(&mut self.feeds, Vec::new(out.alloc())),
        };
        run_held(out, workers, self.plant, self.names.as_slice(), asked)
    }

    // What comes of a line, or that it asks something of the world.
    fn obey<T: Threads + Wait + Sync>(
        &mut self,
        out: &mut Out,
        workers: &T,
        line: &str,
    ) -> Result<bool, Fault> {
        let alloc = out.alloc();
        if let Some(words) = line.strip_prefix("new ") {
            tried(out, self.plant, Trial::New, &Chosen::of(alloc, words)?)?;
        } else if let Some(words) = line.strip_prefix("check ") {
            tried(out, self.plant, Trial::Check, &Chosen::of(alloc, words)?)?;
        } else if let Some(line) = line.strip_prefix("feed ") {
            self.feeds
                .push(feed_of(alloc, self.names.as_slice(), line)?)?;
        } else if let Some(words) = line.strip_prefix("threads ") {
            self.on_threads(out, workers, words)?;
        } else if let Some(words) = line.strip_prefix("held ") {
            self.held(out, workers, words)?;
        } else {
            return Ok(false);
        }
        Ok(true)
    }
}

// What comes of a line, but for the empty one.
fn answer<T: Threads + Wait + Sync>(
    out: &mut Out,
    workers: &T,
    beside: &mut Beside,
    world: &mut World,
    twin: &mut World,
    line: &str,
) -> Result<(), Fault>
    requires stand { ⟦<World as Shown>⟧.stands world.old }
    requires twin_stand { ⟦<World as Shown>⟧.stands twin.old }
    ensures stand { ⟦<World as Shown>⟧.stands world.new }
    ensures twin_stand { ⟦<World as Shown>⟧.stands twin.new }
{
    if beside.obey(out, workers, line)? {
        return Ok(());
    }
    guarded(out, beside.names.as_slice(), world, twin, line)
}

// All that comes of a line.
fn obey<T: Threads + Wait + Sync>(
    out: &mut Out,
    workers: &T,
    beside: &mut Beside,
    world: &mut World,
    twin: &mut World,
    line: &str,
) -> Result<(), Fault>
    requires stand { ⟦<World as Shown>⟧.stands world.old }
    requires twin_stand { ⟦<World as Shown>⟧.stands twin.old }
    ensures stand { ⟦<World as Shown>⟧.stands world.new }
    ensures twin_stand { ⟦<World as Shown>⟧.stands twin.new }
{
    answer(out, workers, beside, world, twin, line)?;
    out.put("\n")?;
    out.flush()
}

// Plays the lines over two worlds.
fn play_over<T: Threads + Wait + Sync, R: Read + Drop>(
    rt: &HostRuntime,
    workers: &T,
    plant: Plant,
    world: &mut World,
    twin: &mut World,
    input: R,
) -> Result<(), Fault>
    requires stand { ⟦<World as Shown>⟧.stands world.old }
    requires twin_stand { ⟦<World as Shown>⟧.stands twin.old }
{
    let alloc = rt.alloc();
    let mut out = Out::new(rt);
    let mut beside = Beside::new(alloc, plant)?;
    for line in BufReader::new(alloc, input)?.lines(alloc) {
        let line = line?;
        obey(&mut out, workers, &mut beside, world, twin, line.as_str())?;
    }
    Ok(())
}

// Plays the lines over a world of these boxes and one of the twins.
fn play_boxes<T: Threads + Wait + Sync, R: Read + Drop>(
    rt: &HostRuntime,
    workers: &T,
    plant: Plant,
    modules: Vec<Box<dyn Module + Send>>,
    twins: Vec<Box<dyn Module + Send>>,
    input: R,
) -> Result<(), Fault> {
    let alloc = rt.alloc();
    let Ok(mut here) = World::new(alloc, plant.topology(alloc)?, modules) else {
        return Err(Fault::Chassis);
    };
    let Ok(mut twin) = World::new(alloc, plant.topology(alloc)?, twins) else {
        return Err(Fault::Chassis);
    };
    play_over(rt, workers, plant, &mut here, &mut twin, input)
}

/// Plays the lines of this input over a chassis.
pub fn play<T: Threads + Wait + Sync, R: Read + Drop>(
    rt: &HostRuntime,
    workers: &T,
    plant: Plant,
    input: R,
) -> Result<(), Fault> {
    let alloc = rt.alloc();
    let topology = plant.topology(alloc)?;
    let modules = boxes!(NewModule, alloc, new_modules(alloc, topology.configs())?);
    let twins = boxes!(NewModule, alloc, new_modules(alloc, topology.configs())?);
    play_boxes(rt, workers, plant, modules, twins, input)
}

/// Plays the lines of this input over the chassis, whose boxes count their steps, and then tells
/// how many steps they took.
pub fn play_counted<T: Threads + Wait + Sync, R: Read + Drop>(
    rt: &HostRuntime,
    workers: &T,
    input: R,
) -> Result<(), Fault> {
    let alloc = rt.alloc();
    let plant = Plant::Plain;
    let topology = plant.topology(alloc)?;
    let hold = Arc::new(alloc, Hold::new(0))?;
    let made = held_modules(alloc, topology.configs(), &hold)?;
    let modules = boxes!(HeldModule, alloc, made);
    let twins = boxes!(NewModule, alloc, new_modules(alloc, topology.configs())?);
    play_boxes(rt, workers, plant, modules, twins, input)?;
    println!(rt; "steps {}", hold.passed())?;
    Ok(())
}
