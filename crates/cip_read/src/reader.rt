//! Reading a transcript, line by line.
ghost use Rattle.std.specs.Prelude.{◌≡◌, ◌+◌, ◌-◌, ◌<◌, ◌^◌, min, length, map, true, IfOk};
ghost use Rattle.std.specs.Prelude.{IfSome, None, Some};
ghost use Rattle.std.specs.Str.{IsAscii};
ghost use Rattle.cip_read.specs.Fields.{nth, texts};
ghost use Rattle.cip_read.specs.Lines.{numbered_of, is_indented, is_head, words_line};
ghost use Rattle.cip_read.specs.Lines.{line_of, Reads, IsShown};
ghost use Rattle.cip_read.specs.Orders.{IsNext, behind, entry_after, output_after};

use crate::fault::{Expected, LineFault, ReadFault};
use crate::fields::{nth, usize_at};
use crate::heads::head_at;
use crate::line::Line;
use crate::notes::{note_at, row_at};
use crate::outputs::output_at;
use cip_base::Excerpt;
use cip_chassis::Topology;
use cip_words::{ascii, ascii_words, number, words};
use std::alloc::Global;

// `  K` and the words of an output.
fn numbered_line(alloc: Global, words: &[&str]) -> Result<Line, LineFault>
    requires { 3 < length words.now }
    ensures { Reads result (numbered_of (texts words.now)) }
{
    let index = usize_at(words, 2)?;
    let output = output_at(alloc, words)?;
    Ok(Line::Output { index, output })
}

fn is_indented(words: &[&str]) -> bool
    ensures { result ≡ is_indented (texts words.now) }
{
    3 < words.len() && nth(words, 0).is_empty() && nth(words, 1).is_empty()
}

fn is_head(words: &[&str]) -> bool
    ensures { result ≡ is_head (texts words.now) }
{
    0 < words.len() && number(nth(words, 0)).is_some()
}

// What the words of a line show.
fn words_line(alloc: Global, topology: &Topology, words: &[&str]) -> Result<Line, LineFault>
    ensures { Reads result (words_line topology.now (texts words.now)) }
{
    if is_indented(words) {
        if number(nth(words, 2)).is_some() {
            return numbered_line(alloc, words);
        }
        return match row_at(alloc, topology, words) {
            Ok(note) => Ok(Line::Note(note)),
            Err(fault) => Err(fault),
        };
    }
    if is_head(words) {
        return head_at(topology, words);
    }
    match note_at(alloc, topology, words) {
        Ok(note) => Ok(Line::Note(note)),
        Err(fault) => Err(fault),
    }
}

/// What a line shows, without its end, over the modules of a topology. Word is its first faulty
/// word; NotText where a byte is not ASCII; NoMemory where an allocation is refused.
#[tactic(auto, unfolding(crate::specs::Lines::line_of))]
pub fn read_line(alloc: Global, topology: &Topology, line: &[u8]) -> Result<Line, LineFault>
    ensures { IsAscii line.now → Reads result (line_of topology.now line.now) }
{
    let Some(text) = ascii(line) else {
        return Err(LineFault::NotText);
    };
    let words = ascii_words(alloc, text)?;
    words_line(alloc, topology, words.as_slice())
}

/// Reads the lines of a transcript, one after the other: each entry has the number behind that of
/// the one before, and each output likewise within its entry. What is read may begin with any
/// entry, or within one.
#[derive(Drop)]
pub struct Reader<'a> {
    topology: &'a Topology,
    // how many lines were read
    lines: usize,
    // the numbers that come next, where they are known
    next_entry: Option<usize>,
    next_output: Option<usize>,
}

// The first byte that is not ASCII.
fn byte_fault(line: usize, text: &[u8]) -> ReadFault {
    for (i, byte) in text.iter().enumerate() {
        if !byte.is_ascii() {
            return ReadFault::NotText {
                line,
                place: i + 1,
                byte: *byte,
            };
        }
    }
    ReadFault::NoMemory
}

// A faulty word of a line; two empty words stand before those of an indented line.
fn word_fault(line: usize, words: &[&str], k: usize, expected: Expected) -> ReadFault {
    let shift = if is_indented(words) { 2 } else { 0 };
    let word = k.saturating_sub(shift).saturating_add(1);
    match words.get(k) {
        Some(found) => ReadFault::Word {
            line,
            word,
            found: Excerpt::of(found.as_bytes()),
            expected,
        },
        None => ReadFault::Missing {
            line,
            word,
            expected,
        },
    }
}

// What is told of a faulty line.
fn told(alloc: Global, line: usize, text: &[u8], fault: LineFault) -> ReadFault {
    match fault {
        LineFault::NoMemory => ReadFault::NoMemory,
        LineFault::NotText => byte_fault(line, text),
        LineFault::Word(k, expected) => match ascii(text) {
            Some(ascii) => match words(alloc, ascii) {
                Ok(words) => word_fault(line, words.as_slice(), k, expected),
                Err(_) => ReadFault::NoMemory,
            },
            None => byte_fault(line, text),
        },
    }
}

impl<'a> Reader<'a> {
    /// A reader of transcripts of a topology.
    pub fn new(topology: &'a Topology) -> Reader<'a>
        ensures over { result.topology.now ≡ topology.now }
        ensures lines { result.lines ≡ 0 }
        ensures unknown { (result.next_entry ≡ None) × (result.next_output ≡ None) }
    {
        Reader {
            topology,
            lines: 0,
            next_entry: None,
            next_output: None,
        }
    }

    /// How many lines were read.
    pub fn lines(&self) -> usize
        ensures { result ≡ self.now.lines }
    {
        self.lines
    }

    // The number of an entry is the one that comes next, where that is known.
    fn take_entry(&mut self, entry: usize) -> Result<(), LineFault>
        ensures over { self.new.topology ≡ self.old.topology }
        ensures lines { self.new.lines ≡ self.old.lines }
        ensures next { IfOk result (λ _. IfSome self.old.next_entry (λ next. entry ≡ next)) }
        ensures after { IfOk result
            (λ _. (self.new.next_entry ≡ behind entry) × (self.new.next_output ≡ Some 0)) }
    {
        match self.next_entry {
            Some(next) if next != entry => Err(LineFault::Word(0, Expected::Entry(next))),
            _ => {
                self.next_entry = Some(entry.saturating_add(1));
                self.next_output = Some(0);
                Ok(())
            }
        }
    }

    // The number of an output likewise.
    fn take_output(&mut self, index: usize) -> Result<(), LineFault>
        ensures over { self.new.topology ≡ self.old.topology }
        ensures lines { self.new.lines ≡ self.old.lines }
        ensures next { IfOk result (λ _. IfSome self.old.next_output (λ next. index ≡ next)) }
        ensures after { IfOk result (λ _. (self.new.next_entry ≡ self.old.next_entry)
            × (self.new.next_output ≡ behind index)) }
    {
        match self.next_output {
            Some(next) if next != index => Err(LineFault::Word(2, Expected::Output(next))),
            _ => {
                self.next_output = Some(index.saturating_add(1));
                Ok(())
            }
        }
    }

    fn take(&mut self, line: &Line) -> Result<(), LineFault>
        ensures over { self.new.topology ≡ self.old.topology }
        ensures lines { self.new.lines ≡ self.old.lines }
        ensures next { IfOk result
            (λ _. IsNext self.old.next_entry self.old.next_output line.now) }
        ensures after { IfOk result
            (λ _. (self.new.next_entry ≡ entry_after self.old.next_entry line.now)
            × (self.new.next_output ≡ output_after self.old.next_output line.now)) }
    {
        match line {
            Line::Step { entry, .. } => self.take_entry(*entry),
            Line::Lost { entry, .. } => self.take_entry(*entry),
            Line::Output { index, .. } => self.take_output(*index),
            Line::Note(_) => Ok(()),
        }
    }

    fn read_next(&mut self, alloc: Global, text: &[u8]) -> Result<Line, LineFault>
        ensures shown { IsAscii text.now
            → IfOk result (λ line. IsShown line (line_of self.old.topology.now text.now)) }
        ensures over { self.new.topology ≡ self.old.topology }
        ensures lines { self.new.lines ≡ self.old.lines }
        ensures next { IfOk result (IsNext self.old.next_entry self.old.next_output) }
        ensures after { IfOk result
            (λ line. (self.new.next_entry ≡ entry_after self.old.next_entry line)
            × (self.new.next_output ≡ output_after self.old.next_output line)) }
    {
        let line = read_line(alloc, self.topology, text)?;
        self.take(&line)?;
        Ok(line)
    }

    /// The next line, without its end: what it shows, or what is wrong with it.
    pub fn read(&mut self, alloc: Global, text: &[u8]) -> Result<Line, ReadFault>
        ensures shown { IsAscii text.now
            → IfOk result (λ line. IsShown line (line_of self.old.topology.now text.now)) }
        ensures over { self.new.topology ≡ self.old.topology }
        ensures lines { self.new.lines ≡ min (self.old.lines + 1) (2 ^ 64 - 1) }
        ensures next { IfOk result (IsNext self.old.next_entry self.old.next_output) }
        ensures after { IfOk result
            (λ line. (self.new.next_entry ≡ entry_after self.old.next_entry line)
            × (self.new.next_output ≡ output_after self.old.next_output line)) }
    {
        self.lines = self.lines.saturating_add(1);
        match self.read_next(alloc, text) {
            Ok(line) => Ok(line),
            Err(fault) => Err(told(alloc, self.lines, text, fault)),
        }
    }
}
