//! The book of a run on threads by itself, call by call.
//!
//! The book of the chassis has one feed: the scanner asks the second bridge for its identity. Each
//! line is a call, and what it gives a line:
//!
//! - `hand M` hands a module its work. The module takes its step at once, and what it puts out
//! waits for `enter M`.
//! - `enter M` enters what was put out last, `enter M -` nothing.
//! - `stop` ends the handing out.
//!
//! M is the place of a module, which need not be there.
use crate::fault::Fault;
use crate::live::feed_of;
use crate::made::boxes;
use crate::plants::Plant;
use cip_base::ModuleId;
use cip_indexed::{NewModule, new_modules};
use cip_module::{Event, Module, Output};
use cip_threads::{BookState, CommitFault, Handed, feeds_fit};
use cip_transcript::names_of;
use std::alloc::Global;
use std::io::{BufRead, BufReader, Read};
use std::mem;

const FEED: &str = "send S 1 7 250 02050103 010220012401";

fn module_at(word: &str) -> Result<ModuleId, Fault> {
    Ok(ModuleId(word.parse::<usize>().ok().ok_or(Fault::Line)?))
}

// What a module puts out for an event.
fn outputs_of(
    modules: &mut [Box<dyn Module + Send>],
    at: ModuleId,
    event: Event,
) -> Result<Vec<Output>, Fault> {
    let stepped = modules.get_mut(at.0).ok_or(Fault::Line)?.step(event);
    stepped.ok().ok_or(Fault::NoMemory)
}

// What a line gives.
fn told(
    alloc: Global,
    state: &mut BookState,
    modules: &mut [Box<dyn Module + Send>],
    put_out: &mut Vec<Output>,
    line: &str,
) -> Result<&'static str, Fault> {
    if line == "stop" {
        state.stop();
        return Ok("stopped");
    }
    if let Some(words) = line.strip_prefix("enter ") {
        let (word, outputs) = match words.strip_suffix(" -") {
            Some(word) => (word, Vec::new(alloc)),
            None => (words, mem::replace(put_out, Vec::new(alloc))),
        };
        return match state.enter(module_at(word)?, outputs) {
            Ok(()) => Ok("entered"),
            Err(CommitFault::NothingInHand) => Ok("nothing in hand"),
            Err(CommitFault::NoMemory) => Err(Fault::NoMemory),
        };
    }
    let at = module_at(line.strip_prefix("hand ").ok_or(Fault::Line)?)?;
    match state.hand(at)? {
        Handed::Work(event) => {
            *put_out = outputs_of(modules, at, event)?;
            Ok("work")
        }
        Handed::Stop => Ok("stop"),
        Handed::Held => Ok("held"),
        Handed::NotYet => Ok("not yet"),
    }
}

// The book of the chassis and of its one feed.
fn book_of(alloc: Global, turns: usize) -> Result<BookState, Fault> {
    let topology = Plant::Plain.topology(alloc)?;
    let names = names_of(alloc, &topology)?;
    let mut feeds = Vec::new(alloc);
    feeds.push(feed_of(alloc, names.as_slice(), FEED)?)?;
    if !feeds_fit(&topology, feeds.as_slice()) {
        return Err(Fault::Line);
    }
    Ok(BookState::new(alloc, topology, feeds, turns)?)
}

// Plays the lines over a book, whose modules take their steps.
fn play_over<R: Read + Drop>(
    rt: &HostRuntime,
    state: &mut BookState,
    modules: &mut [Box<dyn Module + Send>],
    input: R,
) -> Result<(), Fault> {
    let alloc = rt.alloc();
    let mut put_out = Vec::new(alloc);
    for line in BufReader::new(alloc, input)?.lines(alloc) {
        let line = line?;
        let given = told(alloc, state, modules, &mut put_out, line.as_str())?;
        println!(rt; "{given}")?;
    }
    Ok(())
}

/// Plays the lines of this input over a book of so many turns.
pub fn play<R: Read + Drop>(rt: &HostRuntime, turns: &str, input: R) -> Result<(), Fault> {
    let alloc = rt.alloc();
    let turns = turns.parse::<usize>().ok().ok_or(Fault::Usage)?;
    let mut state = book_of(alloc, turns)?;
    let topology = Plant::Plain.topology(alloc)?;
    let mut modules = boxes!(NewModule, alloc, new_modules(alloc, topology.configs())?);
    play_over(rt, &mut state, modules.as_mut_slice(), input)
}
