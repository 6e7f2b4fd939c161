//! Makes the calls that its standard input has of a world of the chassis, and writes what each
//! answers; or runs a script by the console.
//!
//! `played_worlds plain` and `played_worlds indexed` say of which kind scanner and bridges are;
//! `played_worlds late` has the scanner's clock at its end, `played_worlds two` a second scanner;
//! `played_worlds ports` is one module with two ports on one link. `played_worlds counted` tells
//! how many steps the modules of a plain chassis took.
//! The calls are those of `lines.rt`; `played_worlds book TURNS` has those of the book (`book.rt`).
//! `played_worlds turn` runs a script in turn, `played_worlds live` with each module on a thread of
//! its own, `read` and `live-read` as it is read (`console.rt`); behind these words may stand which
//! new modules are handed in (`made.rt`). `played_worlds progress` shows what a screen
//! tells of a long run (`progress.rt`).
//!
//! What stands behind a word is in the same argument. Further arguments are pairs: what else to do,
//! and the file that has its input.
#![tactic(auto)]

mod answers;
mod book;
mod calls;
mod console;
mod fault;
mod guarded;
mod held;
mod kept;
mod lines;
mod live;
mod made;
mod noted;
mod out;
mod plants;
mod progress;

use fault::Fault;
use plants::Plant;
use std::env;
use std::env::Args;
use std::fs::File;
use std::io::Read;
use std::process::ExitCode;
use std::sync::Wait;
use std::thread::Threads;

// The modules of the chassis, in its order.
const ALL: &str = "0123";

// Does what a word asks for with this input, and what stands behind it.
fn play<T: Threads + Wait + Sync, R: Read + Drop>(
    rt: &HostRuntime,
    workers: &T,
    asked: &str,
    input: R,
) -> Result<(), Fault> {
    let (word, places) = asked.split_once(' ').unwrap_or((asked, ALL));
    match word {
        "turn" => console::in_turn(rt, places, input),
        "read" => console::as_read(rt, places, input),
        "live" => console::on_threads(rt, workers, places, input),
        "live-read" => console::on_threads_as_read(rt, workers, places, input),
        "book" => book::play(rt, places, input),
        "counted" => lines::play_counted(rt, workers, input),
        "progress" => progress::play(rt, input),
        name => lines::play(rt, workers, Plant::of(name).ok_or(Fault::Usage)?, input),
    }
}

// Does what the pairs of words ask for.
fn play_files<T: Threads + Wait + Sync>(
    rt: &HostRuntime,
    workers: &T,
    words: &mut Args,
) -> Result<(), Fault> {
    for _ in 0..u64::MAX {
        let Some(word) = words.next() else {
            break;
        };
        let path = words.next().ok_or(Fault::Usage)?;
        let input = File::open(rt, path.as_str())?;
        play(rt, workers, word.as_str(), input)?;
    }
    Ok(())
}

fn run<T: Threads + Wait + Sync>(rt: &HostRuntime, workers: &T) -> Result<(), Fault> {
    let mut words = env::args(rt)?;
    let _program = words.next();
    let word = words.next().ok_or(Fault::Usage)?;
    play(rt, workers, word.as_str(), rt.reader())?;
    play_files(rt, workers, &mut words)
}

fn main(rt: HostRuntime) -> ExitCode {
    match run(&rt, &rt) {
        Ok(()) => ExitCode::SUCCESS,
        Err(fault) => {
            let _ = eprintln!(rt; "played_worlds: {fault}");
            ExitCode::FAILURE
        }
    }
}
