//! What a call is answered.
use crate::fault::Fault;
use crate::noted::{put_frames, put_journal, put_places};
use cip_base::{Bytes, ModuleId, NoMemory};
use cip_chain::{ChainFault, ChainView};
use cip_module::Tables;
use cip_transcript::{name_in, put, put_tables, put_trail};
use cip_world::{End, FrameName, World, WorldFault};
use std::alloc::Global;

/// What a call is answered.
#[derive(Drop)]
pub enum Answer {
    /// The number of the new entry.
    Entry(Result<usize, WorldFault>),
    /// Whether a frame arrived.
    Delivered(Result<bool, WorldFault>),
    Ended(Result<End, WorldFault>),
    /// Whether no frame waits.
    Quiet(Result<bool, NoMemory>),
    Frames(Result<Vec<FrameName>, NoMemory>),
    Tables(ModuleId, Result<Tables, WorldFault>),
    Trail(Result<Vec<usize>, NoMemory>),
    Chain(Result<ChainView, ChainFault>),
    Journal,
    /// Where each frame came in.
    Came,
    /// The entry from which another comes.
    Root(Option<usize>),
    /// Whether two forms of an answer are the same.
    Alike(Result<bool, NoMemory>),
}

impl Answer {
    /// Whether memory was refused.
    pub fn is_no_memory(&self) -> bool {
        match self {
            Answer::Entry(Err(WorldFault::NoMemory)) => true,
            Answer::Delivered(Err(WorldFault::NoMemory)) => true,
            Answer::Ended(Err(WorldFault::NoMemory)) => true,
            Answer::Quiet(Err(NoMemory)) => true,
            Answer::Frames(Err(NoMemory)) => true,
            Answer::Tables(_, Err(WorldFault::NoMemory)) => true,
            Answer::Trail(Err(NoMemory)) => true,
            Answer::Alike(Err(NoMemory)) => true,
            Answer::Chain(Err(ChainFault::NoMemory)) => true,
            _ => false,
        }
    }
}

/// How a run ended, or stands.
pub fn put_end(text: &mut Vec<u8>, end: End) -> Result<(), Fault> {
    match end {
        End::Quiet => Ok(put(text, b"quiet\n")?),
        End::Limit => Ok(put(text, b"limit\n")?),
    }
}

// The modules of a chain, and the instances at its end.
fn put_chain(
    alloc: Global,
    text: &mut Vec<u8>,
    names: &[Bytes],
    view: &ChainView,
) -> Result<(), Fault> {
    put(text, b"chain")?;
    for at in view.modules.as_slice() {
        put(text, b" ")?;
        put(text, name_in(names, at.0))?;
    }
    let end = format!(in alloc; " end {} {}\n", view.end.consume, view.end.produce)?;
    Ok(put(text, end.as_bytes())?)
}

// Why there is no other answer of a world.
fn put_fault(alloc: Global, text: &mut Vec<u8>, fault: WorldFault) -> Result<(), Fault> {
    let told = format!(in alloc; "{fault}\n")?;
    Ok(put(text, told.as_bytes())?)
}

/// Puts an answer of this world behind a text.
pub fn put_answer(
    alloc: Global,
    text: &mut Vec<u8>,
    names: &[Bytes],
    world: &World,
    answer: &Answer,
) -> Result<(), Fault> {
    match answer {
        Answer::Entry(Ok(entry)) => {
            let told = format!(in alloc; "entry {entry}\n")?;
            Ok(put(text, told.as_bytes())?)
        }
        Answer::Delivered(Ok(true)) => Ok(put(text, b"arrived\n")?),
        Answer::Delivered(Ok(false)) => Ok(put(text, b"none\n")?),
        Answer::Ended(Ok(end)) => put_end(text, *end),
        Answer::Quiet(Ok(true)) => put_end(text, End::Quiet),
        Answer::Quiet(Ok(false)) => put_end(text, End::Limit),
        Answer::Frames(Ok(frames)) => put_frames(alloc, text, frames.as_slice()),
        Answer::Tables(at, Ok(tables)) => Ok(put_tables(text, name_in(names, at.0), tables)?),
        Answer::Trail(Ok(entries)) => Ok(put_trail(text, entries.as_slice())?),
        Answer::Chain(Ok(view)) => put_chain(alloc, text, names, view),
        Answer::Chain(Err(fault)) => {
            let told = format!(in alloc; "{fault}\n")?;
            Ok(put(text, told.as_bytes())?)
        }
        Answer::Journal => put_journal(text, names, world.journal()),
        Answer::Came => put_places(alloc, text, names, world.journal()),
        Answer::Root(entry) => {
            let told = format!(in alloc; "root {entry:?}\n")?;
            Ok(put(text, told.as_bytes())?)
        }
        Answer::Alike(Ok(true)) => Ok(put(text, b"alike\n")?),
        Answer::Alike(Ok(false)) => Ok(put(text, b"otherwise\n")?),
        Answer::Entry(Err(fault)) => put_fault(alloc, text, *fault),
        Answer::Delivered(Err(fault)) => put_fault(alloc, text, *fault),
        Answer::Ended(Err(fault)) => put_fault(alloc, text, *fault),
        Answer::Tables(_, Err(fault)) => put_fault(alloc, text, *fault),
        Answer::Quiet(Err(NoMemory)) => put_fault(alloc, text, WorldFault::NoMemory),
        Answer::Frames(Err(NoMemory)) => put_fault(alloc, text, WorldFault::NoMemory),
        Answer::Trail(Err(NoMemory)) => put_fault(alloc, text, WorldFault::NoMemory),
        Answer::Alike(Err(NoMemory)) => put_fault(alloc, text, WorldFault::NoMemory),
    }
}
