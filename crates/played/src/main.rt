//! Plays the events that its standard input has on the modules of a chassis, and writes what comes
//! of each; and loads topology files.
//!
//! `played plain`, `played indexed` or `played mixed` says of which kind scanner and bridges
//! are; where they are mixed, one bridge is indexed. The events are those of `lines.rt`. Behind it
//! may stand topology files, which are loaded then. `played topologies FILE ..` loads these alone,
//! `played chassis FILE` tells what one says (`topologies.rt`).
//!
//! `played times STEP TIMES` takes steps of a plain bridge many times over, to be timed
//! from outside. The steps are `send`, `open`, `datum`, `send-full`, `open-full` and `datum-full`;
//! `played times STEP TIMES indexed` takes them of an indexed one, `played times` each step of both
//! 1,000 times.
#![tactic(auto)]

mod asked;
mod chassis;
mod fault;
mod guarded;
mod harness;
mod lines;
mod little_room;
mod opened;
mod out;
mod times;
mod told;
mod topologies;

use chassis::Kinds;
use fault::Fault;
use std::env;
use std::env::Args;
use std::process::ExitCode;

// Of which kind scanner and bridges are.
fn kinds_of(word: &str) -> Option<Kinds> {
    match word {
        "plain" => Some(Kinds::Plain),
        "indexed" => Some(Kinds::Indexed),
        "mixed" => Some(Kinds::OneIndexed),
        _ => None,
    }
}

fn play(rt: &HostRuntime, word: &str, words: &mut Args) -> Result<(), Fault> {
    if word == "times" {
        return times::run(rt, words);
    }
    if word == "chassis" {
        return topologies::tell_chassis(rt, words);
    }
    if word != "topologies" {
        lines::play(rt, kinds_of(word).ok_or(Fault::Usage)?)?;
    }
    topologies::play(rt, words)
}

fn run(rt: &HostRuntime) -> Result<(), Fault> {
    let mut words = env::args(rt)?;
    let _program = words.next();
    let word = words.next().ok_or(Fault::Usage)?;
    play(rt, word.as_str(), &mut words)
}

fn main(rt: HostRuntime) -> ExitCode {
    match run(&rt) {
        Ok(()) => ExitCode::SUCCESS,
        Err(fault) => {
            let _ = eprintln!(rt; "played: {fault}");
            ExitCode::FAILURE
        }
    }
}
