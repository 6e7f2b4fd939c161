//! The jobs that a user of the programs waits for, each played over input of its own making, and a
//! digest of all that comes out.
//!
//! `benchmark JOB SEED` plays the job's scripts of this seed; `all` is each job in turn. A word
//! `small` behind it plays one short script of each kind. A line for each job tells how many
//! scripts were played, how many bytes came out, and their digest: every byte of every transcript
//! and view, and how each run ended.
#![tactic(auto)]

mod chassis;
mod cyclic;
mod fault;
mod job;
mod kept;
mod line;
mod made;
mod plant;
mod play;
mod random;
mod requests;
mod tables;
mod talk;
mod tally;
mod text;
mod ticks;
mod trails;

use fault::Fault;
use job::{Asked, JOBS, Job, job_of, play_job};
use std::env;
use std::process::ExitCode;

// Plays a job, and writes its line.
fn tell(rt: &HostRuntime, job: Job, asked: Asked) -> Result<(), Fault> {
    let tally = play_job(rt.alloc(), job, asked)?;
    let name = job.name();
    let seed = asked.seed;
    let (scripts, bytes, digest) = (tally.scripts, tally.bytes, tally.digest);
    println!(rt; "{name} {seed}: {scripts} scripts, {bytes} bytes, digest {digest:016X}")?;
    Ok(())
}

fn tell_all(rt: &HostRuntime, asked: Asked) -> Result<(), Fault> {
    for job in JOBS {
        tell(rt, job, asked)?;
    }
    Ok(())
}

// The seed, and whether the scripts are short.
fn asked_of(seed: &str, word: Option<&str>) -> Result<Asked, Fault> {
    let Ok(seed) = seed.parse::<u32>() else {
        return Err(Fault::Usage);
    };
    match word {
        None => Ok(Asked {
            seed: seed as u64,
            is_small: false,
        }),
        Some("small") => Ok(Asked {
            seed: seed as u64,
            is_small: true,
        }),
        Some(_) => Err(Fault::Usage),
    }
}

fn run(rt: &HostRuntime) -> Result<(), Fault> {
    let mut words = env::args(rt)?;
    let _program = words.next();
    let name = words.next().ok_or(Fault::Usage)?;
    let seed = words.next().ok_or(Fault::Usage)?;
    let word = words.next();
    let asked = asked_of(seed.as_str(), word.as_ref().map(|word| word.as_str()))?;
    match job_of(name.as_str()) {
        Some(job) => tell(rt, job, asked),
        None if name.as_str() == "all" => tell_all(rt, asked),
        None => Err(Fault::Usage),
    }
}

fn main(rt: HostRuntime) -> ExitCode {
    match run(&rt) {
        Ok(()) => ExitCode::SUCCESS,
        Err(fault) => {
            let _ = eprintln!(rt; "benchmark: {fault}");
            ExitCode::FAILURE
        }
    }
}
