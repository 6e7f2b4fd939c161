//! What a world shows of itself, as text.
use crate::fault::Fault;
use cip_base::{Bytes, ModuleId};
use cip_transcript::{name_in, put, put_entry, put_tables};
use cip_world::{Entry, FrameName, Input, Shown, World};
use std::alloc::Global;

/// A journal, oldest entry first.
pub fn put_journal(text: &mut Vec<u8>, names: &[Bytes], journal: &[Entry]) -> Result<(), Fault> {
    for (k, entry) in journal.iter().enumerate() {
        put_entry(text, names, k, entry)?;
    }
    Ok(())
}

// The place at which the frame of an entry came in, where it is one: the module, its port and the
// address that it came from.
fn put_place(
    alloc: Global,
    text: &mut Vec<u8>,
    names: &[Bytes],
    k: usize,
    entry: &Entry,
) -> Result<(), Fault> {
    if let Entry::Step {
        at,
        input: Input::Frame { port, from, .. },
        ..
    } = entry
    {
        let told = format!(in alloc; "came {k} ")?;
        put(text, told.as_bytes())?;
        put(text, name_in(names, at.0))?;
        let told = format!(in alloc; " {} {:?}\n", port.get(), from.as_slice())?;
        put(text, told.as_bytes())?;
    }
    Ok(())
}

/// Where each frame came in.
pub fn put_places(
    alloc: Global,
    text: &mut Vec<u8>,
    names: &[Bytes],
    journal: &[Entry],
) -> Result<(), Fault> {
    for (k, entry) in journal.iter().enumerate() {
        put_place(alloc, text, names, k, entry)?;
    }
    Ok(())
}

/// Names of frames, in one line.
pub fn put_frames(alloc: Global, text: &mut Vec<u8>, frames: &[FrameName]) -> Result<(), Fault> {
    put(text, b"waiting")?;
    for FrameName { entry, output } in frames {
        let name = format!(in alloc; " {entry}.{output}")?;
        put(text, name.as_bytes())?;
    }
    Ok(put(text, b"\n")?)
}

// The tables of every module.
fn put_all_tables(text: &mut Vec<u8>, names: &[Bytes], world: &World) -> Result<(), Fault>
    requires stand { ⟦<World as Shown>⟧.stands world.now }
{
    for m in 0..world.topology().configs().len() {
        let tables = world.tables(ModuleId(m))?;
        put_tables(text, name_in(names, m), &tables)?;
    }
    Ok(())
}

/// The journal of a world, the frames that wait, and the tables of its modules.
pub fn noted(alloc: Global, names: &[Bytes], world: &World) -> Result<Vec<u8>, Fault>
    requires stand { ⟦<World as Shown>⟧.stands world.now }
{
    let mut text = Vec::new(alloc);
    put_journal(&mut text, names, world.journal())?;
    put_frames(alloc, &mut text, world.waiting()?.as_slice())?;
    put_all_tables(&mut text, names, world)?;
    Ok(text)
}
