//! What a screen beside a transcript shows of a long run, and when.
//!
//! Each line is a run: `beside` where the transcript goes to the same screen, else `alone`; how
//! many pieces it writes, behind each of which it is asked whether to tell how far it is; and the
//! times that are read, in milliseconds. It gives a line for each that the screen shows, and then
//! an empty one.
use crate::fault::Fault;
use cip_console::{Line, Out, Screen, Sink, Watched};
use std::alloc::Global;
use std::io::{BufRead, BufReader, Read};

// The frames that wait, each time.
const WAITING: usize = 7;

/// A screen with the times that it is asked for, and the lines that it shows.
#[derive(Drop)]
struct Board<'a> {
    times: &'a [u64],
    has_transcript: bool,
    lines: &'a mut Vec<Line>,
}

impl Screen for Board<'_> {
    fn elapsed(&mut self) -> u64 {
        let Some((now, times)) = self.times.split_first() else {
            return 0;
        };
        self.times = times;
        *now
    }

    fn has_transcript(&self) -> bool {
        self.has_transcript
    }

    fn show(&mut self, line: Line) {
        let _ = self.lines.push(line);
    }
}

// A run of so many pieces, beside such a screen.
fn run(alloc: Global, board: Board<'_>, pieces: u64) -> Result<(), Fault> {
    let inner = Out {
        inner: Vec::new(alloc),
    };
    let mut writer = Watched::of(inner, board);
    for done in 1..=pieces {
        writer.write(b"text")?;
        if writer.is_due() {
            writer.tell(done as usize, WAITING);
        }
    }
    writer.clear();
    Ok(())
}

fn numbers(alloc: Global, words: &str) -> Result<Vec<u64>, Fault> {
    let mut numbers = Vec::new(alloc);
    for word in words.split(' ') {
        numbers.push(word.parse::<u64>().ok().ok_or(Fault::Line)?)?;
    }
    Ok(numbers)
}

// The lines that the screen shows of a run.
fn shown(alloc: Global, words: &str) -> Result<Vec<Line>, Fault> {
    let (place, rest) = words.split_once(' ').ok_or(Fault::Line)?;
    let numbers = numbers(alloc, rest)?;
    let (pieces, times) = numbers.as_slice().split_first().ok_or(Fault::Line)?;
    let mut lines = Vec::new(alloc);
    let board = Board {
        times,
        has_transcript: place == "beside",
        lines: &mut lines,
    };
    run(alloc, board, *pieces)?;
    Ok(lines)
}

/// Plays the runs of this input.
pub fn play<R: Read + Drop>(rt: &HostRuntime, input: R) -> Result<(), Fault> {
    let alloc = rt.alloc();
    for line in BufReader::new(alloc, input)?.lines(alloc) {
        let line = line?;
        for shown in shown(alloc, line.as_str())?.as_slice() {
            println!(rt; "{shown:?}")?;
        }
        println!(rt; "")?;
    }
    Ok(())
}
