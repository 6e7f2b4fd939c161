//! What a line of a transcript shows.
use cip_base::ModuleId;
use cip_event::{FrameName, Output};

/// The word by which an entry's line names a command.
#[derive(Clone, Copy)]
pub enum CommandWord {
    Send,
    Open,
    Large,
    Close,
    Enter,
    Set,
    Produce,
}

/// What a module was given, as far as its line tells.
#[derive(Clone, Copy)]
pub enum Given {
    /// A command, with its op; the op of the open of an `enter`; the instance of a `set` or a
    /// `produce`.
    Command(CommandWord, u32),
    /// So many milliseconds went by, at least one.
    Tick(u16),
    /// The frame of this name.
    Frame(FrameName),
}

/// What else a line may be.
#[derive(Clone, Copy)]
pub enum Note {
    /// No frame waits any more.
    Quiet,
    /// A run came to its limit.
    Limit,
    /// Where a request went.
    Trail,
    /// The modules of a connection, or that there is none, or that it is broken.
    Chain,
    /// The tables of a module.
    Tables,
    /// A row of the tables.
    Row,
}

/// What a line shows.
#[derive(Drop)]
pub enum Line {
    /// The line of an entry: a module took a step.
    Step {
        entry: usize,
        at: ModuleId,
        given: Given,
    },
    /// The line of an entry: a frame was lost.
    Lost {
        entry: usize,
        frame: FrameName,
    },
    /// An output of the entry above.
    Output {
        index: usize,
        output: Output,
    },
    /// No part of an entry.
    Note(Note),
}
