//! The lines of entries.
ghost use Rattle.std.specs.Prelude.{◌≡◌, ◌<◌, ◌≤◌, length, map};
ghost use Rattle.cip_read.specs.Fields.{Gives, nth, texts, of_words};
ghost use Rattle.cip_read.specs.Heads.{command_of, given_of, step_of, lost_of, head_of};
ghost use Rattle.cip_read.specs.Lines.{Reads};

use crate::fault::{Expected, LineFault};
use crate::fields::{frame_at, module_at, ms_at, nth, u32_at, usize_at};
use crate::line::{CommandWord, Given, Line};
use cip_chassis::Topology;

// The word of a command, at place 2.
fn command_of(word: &str) -> Result<CommandWord, LineFault>
    ensures { Gives result (command_of word.now) }
{
    if word == "send" {
        Ok(CommandWord::Send)
    } else if word == "open" {
        Ok(CommandWord::Open)
    } else if word == "large" {
        Ok(CommandWord::Large)
    } else if word == "close" {
        Ok(CommandWord::Close)
    } else if word == "enter" {
        Ok(CommandWord::Enter)
    } else if word == "set" {
        Ok(CommandWord::Set)
    } else if word == "produce" {
        Ok(CommandWord::Produce)
    } else {
        let allowed = "send, open, large, close, enter, set, produce, tick or frame";
        Err(LineFault::Word(2, Expected::Words(allowed)))
    }
}

// What the module was given, by the words at places 2 and 3.
fn given_at(words: &[&str]) -> Result<Given, LineFault>
    requires { 4 ≤ length words.now }
    ensures { Gives result (given_of (nth (texts words.now) 2) (nth (texts words.now) 3)) }
{
    let word = nth(words, 2);
    if word == "frame" {
        let frame = frame_at(words, 3)?;
        return Ok(Given::Frame(frame));
    }
    if word == "tick" {
        return match ms_at(words, 3) {
            Ok(ms) => Ok(Given::Tick(ms.get())),
            Err(fault) => Err(fault),
        };
    }
    let command = command_of(word)?;
    let number = u32_at(words, 3)?;
    Ok(Given::Command(command, number))
}

// `ENTRY M WORD NUMBER`
fn step_line(topology: &Topology, words: &[&str]) -> Result<Line, LineFault>
    ensures { Reads result (of_words 4 (texts words.now) (step_of topology.now (texts words.now))) }
{
    if words.len() != 4 {
        let usage = "ENTRY M send|open|large|close|enter|set|produce|tick|frame NUMBER";
        return Err(LineFault::Word(words.len(), Expected::Usage(usage)));
    }
    let entry = usize_at(words, 0)?;
    let at = module_at(topology, words, 1)?;
    let given = given_at(words)?;
    Ok(Line::Step { entry, at, given })
}

// `ENTRY lost E.K`
fn lost_line(words: &[&str]) -> Result<Line, LineFault>
    requires { length words.now ≡ 3 }
    ensures { Reads result (lost_of (texts words.now)) }
{
    let entry = usize_at(words, 0)?;
    if nth(words, 1) != "lost" {
        return Err(LineFault::Word(1, Expected::Words("lost, or a module and two words")));
    }
    let frame = frame_at(words, 2)?;
    Ok(Line::Lost { entry, frame })
}

/// The line of an entry.
pub(crate) fn head_at(topology: &Topology, words: &[&str]) -> Result<Line, LineFault>
    ensures { Reads result (head_of topology.now (texts words.now)) }
{
    if words.len() == 3 {
        return lost_line(words);
    }
    step_line(topology, words)
}
