//! The jobs, and how much each plays.

use crate::fault::Fault;
use crate::kept::Kept;
use crate::made::Made;
use crate::play::{loaded, play, show_all};
use crate::random::Random;
use crate::tally::Tally;
use crate::{cyclic, line, requests, ticks, trails};
use std::alloc::Global;

// The room for a transcript, and for what is shown of one, in bytes.
const ROOM: usize = 1_048_576;

/// A job that a user of the programs waits for.
#[derive(Clone, Copy, Debug, PartialEq, Eq)]
pub enum Job {
    Ticks,
    Cyclic,
    Requests,
    Trails,
    Views,
    Line,
}

/// All jobs.
pub const JOBS: [Job; 6] = [
    Job::Ticks,
    Job::Cyclic,
    Job::Requests,
    Job::Trails,
    Job::Views,
    Job::Line,
];

/// The job of a name, if there is one.
pub fn job_of(name: &str) -> Option<Job> {
    match name {
        "ticks" => Some(Job::Ticks),
        "cyclic" => Some(Job::Cyclic),
        "requests" => Some(Job::Requests),
        "trails" => Some(Job::Trails),
        "views" => Some(Job::Views),
        "line" => Some(Job::Line),
        _ => None,
    }
}

/// What is asked for: the seed of the scripts, and whether there are few short ones of them.
#[derive(Clone, Copy, Debug)]
pub struct Asked {
    pub seed: u64,
    pub is_small: bool,
}

impl Job {
    /// Its name.
    pub fn name(self) -> &'static str {
        match self {
            Job::Ticks => "ticks",
            Job::Cyclic => "cyclic",
            Job::Requests => "requests",
            Job::Trails => "trails",
            Job::Views => "views",
            Job::Line => "line",
        }
    }

    // How many scripts it plays; the small ones are one of each kind.
    fn scripts(self, is_small: bool) -> u64 {
        match self {
            _ if is_small && self == Job::Views => 4,
            _ if is_small => 1,
            Job::Ticks => 6,
            Job::Cyclic => 28,
            Job::Requests => 32,
            Job::Trails => 12,
            Job::Views => 6,
            Job::Line => 32,
        }
    }

    // Makes its script of this number.
    fn make(self, random: &mut Random, made: &mut Made, number: u64, is_small: bool) {
        let is_indexed = number % 2 == 1;
        match self {
            Job::Ticks => ticks::make(random, made, is_indexed, is_small),
            Job::Cyclic => cyclic::make(random, made, is_indexed, if is_small { 3 } else { 92 }),
            Job::Requests => {
                let length = if is_small { 8_000 } else { 1_030_000 };
                requests::make(random, made, is_indexed, length);
            }
            Job::Trails => {
                let sends = if is_small { 100 } else { 5_000 };
                trails::make(random, made, is_indexed, sends);
            }
            Job::Views => make_mixed(random, made, number, is_small),
            Job::Line => line::make(random, made, if is_small { 2 } else { 200 }),
        }
    }
}

// Makes a script of mixed traffic, whose transcript is to be shown.
fn make_mixed(random: &mut Random, made: &mut Made, number: u64, is_small: bool) {
    match number % 4 {
        0 => requests::make(random, made, true, if is_small { 4_000 } else { 220_000 }),
        1 => cyclic::make(random, made, false, if is_small { 1 } else { 20 }),
        2 => line::make(random, made, if is_small { 1 } else { 30 }),
        _ => requests::make(random, made, false, if is_small { 4_000 } else { 220_000 }),
    }
}

// What is made and kept again and again.
#[derive(Drop)]
struct Rooms {
    made: Made,
    kept: Kept,
    shown: Kept,
}

impl Rooms {
    fn new(alloc: Global) -> Result<Rooms, Fault> {
        Ok(Rooms {
            made: Made::new(alloc)?,
            kept: Kept::new(alloc, ROOM)?,
            shown: Kept::new(alloc, ROOM)?,
        })
    }
}

// Plays a script that is made, and counts its transcript.
fn play_made(alloc: Global, rooms: &mut Rooms, tally: &mut Tally) -> Result<(), Fault> {
    let script = rooms.made.script.as_slice()?;
    let topology = loaded(alloc, rooms.made.topology.as_slice()?)?;
    rooms.kept.clear();
    let ended = play(alloc, topology, script, &mut rooms.kept)?;
    tally.result(rooms.kept.as_slice());
    tally.end(ended);
    Ok(())
}

// Shows the transcript that is kept, and counts what is shown.
fn show_kept(
    alloc: Global,
    rooms: &mut Rooms,
    is_page: bool,
    tally: &mut Tally,
) -> Result<(), Fault> {
    let topology = loaded(alloc, rooms.made.topology.as_slice()?)?;
    let transcript = rooms.kept.as_slice();
    show_all(
        alloc,
        &topology,
        transcript,
        is_page,
        &mut rooms.shown,
        tally,
    )
}

/// Plays a job, and says what its results come to. Script where a script is not played to its end.
pub fn play_job(alloc: Global, job: Job, asked: Asked) -> Result<Tally, Fault> {
    let mut rooms = Rooms::new(alloc)?;
    let mut tally = Tally::new();
    for number in 0..job.scripts(asked.is_small) {
        let mut random = Random::of(asked.seed, job as u64, number);
        rooms.made.clear();
        job.make(&mut random, &mut rooms.made, number, asked.is_small);
        play_made(alloc, &mut rooms, &mut tally)?;
        if job == Job::Views {
            show_kept(alloc, &mut rooms, number == 0, &mut tally)?;
        }
    }
    if tally.faults > 0 {
        return Err(Fault::Script);
    }
    Ok(tally)
}
