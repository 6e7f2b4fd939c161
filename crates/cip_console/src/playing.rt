//! The steps of a script, each kind played over a world.
ghost use Rattle.std.specs.Prelude.{◌≡◌, ◌≢◌, ◌++◌, [], reverse, OnOk, OnErr};
ghost use Rattle.cip_world.specs.declared.journal.Input.TheVariants as inputs;
ghost use Rattle.cip_world.specs.Runs.{IsRun};
ghost use Rattle.cip_world.specs.Waiting.{waiting};
ghost use Rattle.cip_chain.specs.Index.{IsIndexOf};
ghost use Rattle.cip_console.specs.Known.{AppendsFront};
ghost use Rattle.cip_console.specs.Playing.{Prints, Plays};
ghost use Rattle.cip_transcript.specs.Show.{names_of};
ghost use Rattle.cip_console.specs.Transcript.{brought, deliveries, end_text, given, lost, newest};
ghost use Rattle.cip_console.specs.Transcript.{ran, tabled, trailed, chained};

use crate::source::{Sink, WriteFault, write_text};
use cip_base::{Bytes, ModuleId, Ms, NoMemory};
use cip_chain::TrailIndex;
use cip_routing::Command;
use cip_script::ScriptFault;
use cip_transcript::{name_in, put, put_chain_of, put_entry, put_tables, put_trail};
use cip_world::{Entry, FrameName, Shown, World, WorldFault};
use std::alloc::Global;

/// Why a step of a script was not played to its end.
#[derive(Clone, Copy)]
pub(crate) enum PlayFault {
    /// The run stops there: no such frame waits, or a clock is full.
    Stopped(ScriptFault),
    /// The writer failed or took no byte.
    Write,
    /// An allocation was refused.
    NoMemory,
}

// How much text is gathered before it is written.
pub(crate) const FULL: usize = 32_768;

/// Writes the text that was gathered, once it has at least so many bytes. An error where the writer
/// failed or took no byte.
pub(crate) fn flush<W: Sink>(
    writer: &mut W,
    text: &mut Vec<u8>,
    least: usize,
) -> Result<(), WriteFault>
    ensures ok { OnOk result (Prints (W.contents writer.old) (W.contents writer.new) text.old.items
        text.new.items []) }
    ensures all { OnOk result (least ≡ 0 → text.new.items ≡ []) }
    ensures err { OnErr result (AppendsFront (W.contents writer.old) (W.contents writer.new)
        text.old.items) }
    ensures taken { OnOk result (W.has_refused writer.new → W.has_refused writer.old) }
    ensures refused { OnErr result (W.has_refused writer.new) }
{
    if text.len() >= least {
        write_text(writer, text.as_slice())?;
        text.clear();
    }
    Ok(())
}

// The newest entry of a journal, behind a text.
fn put_newest(names: &[Bytes], journal: &[Entry], text: &mut Vec<u8>) -> Result<(), NoMemory>
    ensures { OnOk result (text.new.items ≡ text.old.items
        ++ newest names.now (reverse journal.now)) }
{
    match journal.last() {
        Some(entry) => put_entry(text, names, journal.len() - 1, entry),
        None => Ok(()),
    }
}

// How far the run is, where that is due.
fn tell<W: Sink>(world: &World, writer: &mut W)
    ensures contents { W.contents writer.new ≡ W.contents writer.old }
    ensures taken { W.has_refused writer.new → W.has_refused writer.old }
{
    if writer.is_due() {
        if let Ok(waiting) = world.waiting() {
            writer.tell(world.journal().len(), waiting.len());
        }
    }
}

/// Tells the writer which frames wait, where a run has stopped.
pub(crate) fn tell_waiting<W: Sink>(world: &World, writer: &mut W)
    ensures contents { W.contents writer.new ≡ W.contents writer.old }
    ensures taken { W.has_refused writer.new → W.has_refused writer.old }
{
    if let Ok(waiting) = world.waiting() {
        writer.tell_waiting(waiting);
    }
}

// Once enough text was gathered it is written, and how far the run is may be told.
#[inline(always)]
fn flush_if_full<W: Sink>(
    world: &World,
    writer: &mut W,
    text: &mut Vec<u8>,
) -> Result<(), WriteFault>
    ensures ok { OnOk result (Prints (W.contents writer.old) (W.contents writer.new) text.old.items
        text.new.items []) }
    ensures err { OnErr result (AppendsFront (W.contents writer.old) (W.contents writer.new)
        text.old.items) }
    ensures taken { OnOk result (W.has_refused writer.new → W.has_refused writer.old) }
    ensures refused { OnErr result (W.has_refused writer.new) }
{
    if text.len() < FULL {
        return Ok(());
    }
    flush(writer, text, FULL)?;
    tell(world, writer);
    Ok(())
}

/// Prints the newest entry of a world: its text goes behind what was gathered, and this is written
/// once there is enough of it. Write where the writer failed or took no byte, NoMemory where an
/// allocation is refused; it never stops.
#[inline(always)]
pub(crate) fn show<W: Sink>(
    world: &World,
    names: &[Bytes],
    writer: &mut W,
    text: &mut Vec<u8>,
) -> Result<(), PlayFault>
    ensures run { IsRun world.now.ledger.plan world.now.ledger.journal }
    ensures ok { OnOk result (Prints (W.contents writer.old) (W.contents writer.new) text.old.items
        text.new.items (newest names.now world.now.ledger.journal)) }
    ensures err { OnErr result (AppendsFront (W.contents writer.old) (W.contents writer.new)
        (text.old.items ++ newest names.now world.now.ledger.journal)) }
    ensures step { (fault : _) → result ≢ Err (PlayFault.Stopped fault) }
    ensures taken { result ≢ Err PlayFault.Write → W.has_refused writer.new
        → W.has_refused writer.old }
    ensures refused { result ≡ Err PlayFault.Write → W.has_refused writer.new }
{
    match put_newest(names, world.journal(), text) {
        Ok(()) => match flush_if_full(world, writer, text) {
            Ok(()) => Ok(()),
            Err(WriteFault) => Err(PlayFault::Write),
        },
        Err(NoMemory) => Err(PlayFault::NoMemory),
    }
}

// Delivers the waiting frame of least name, up to so many times.
fn deliver<W: Sink>(
    world: &mut World,
    names: &[Bytes],
    limit: usize,
    writer: &mut W,
    text: &mut Vec<u8>,
) -> Result<(), PlayFault>
    requires stand { ⟦<World as Shown>⟧.stands world.old }
    requires names { names.now ≡ names_of world.old.ledger.plan }
    ensures stand { ⟦<World as Shown>⟧.stands world.new }
    ensures plan { world.new.ledger.plan ≡ world.old.ledger.plan }
    ensures plays { Plays (deliveries world.old.ledger.plan limit world.old.ledger.journal)
        (W.contents writer.old) (W.contents writer.new) text.old.items text.new.items
        world.new.ledger.journal result }
    ensures taken { result ≢ Err PlayFault.Write → W.has_refused writer.new
        → W.has_refused writer.old }
    ensures refused { result ≡ Err PlayFault.Write → W.has_refused writer.new }
{
    for i in 0..limit {
        match world.deliver_least() {
            Ok(true) => match show(world, names, writer, text) {
                Ok(()) => {}
                Err(fault) => return Err(fault),
            },
            Ok(false) => return Ok(()),
            Err(_) => return Err(PlayFault::NoMemory),
        }
    }
    Ok(())
}

// Whether a frame is left that waits.
fn put_end(world: &mut World, text: &mut Vec<u8>) -> Result<(), NoMemory>
    requires stand { ⟦<World as Shown>⟧.stands world.old }
    ensures stand { ⟦<World as Shown>⟧.stands world.new }
    ensures plan { world.new.ledger.plan ≡ world.old.ledger.plan }
    ensures journal { world.new.ledger.journal ≡ world.old.ledger.journal }
    ensures ok { OnOk result (text.new.items ≡ text.old.items
        ++ end_text (waiting world.old.ledger.plan world.old.ledger.journal)) }
{
    if world.is_quiet()? {
        put(text, b"quiet\n")
    } else {
        put(text, b"limit\n")
    }
}

// Whether a frame is left that waits: it is printed, and what was gathered is written once there is
// enough of it.
fn show_end<W: Sink>(world: &mut World, writer: &mut W, text: &mut Vec<u8>) -> Result<(), PlayFault>
    requires stand { ⟦<World as Shown>⟧.stands world.old }
    ensures stand { ⟦<World as Shown>⟧.stands world.new }
    ensures plan { world.new.ledger.plan ≡ world.old.ledger.plan }
    ensures journal { world.new.ledger.journal ≡ world.old.ledger.journal }
    ensures ok { OnOk result (Prints (W.contents writer.old) (W.contents writer.new) text.old.items
        text.new.items (end_text (waiting world.old.ledger.plan world.old.ledger.journal))) }
    ensures err { OnErr result (AppendsFront (W.contents writer.old) (W.contents writer.new)
        (text.old.items ++ end_text (waiting world.old.ledger.plan world.old.ledger.journal))) }
    ensures step { (fault : _) → result ≢ Err (PlayFault.Stopped fault) }
    ensures taken { result ≢ Err PlayFault.Write → W.has_refused writer.new
        → W.has_refused writer.old }
    ensures refused { result ≡ Err PlayFault.Write → W.has_refused writer.new }
{
    match put_end(world, text) {
        Ok(()) => match flush_if_full(world, writer, text) {
            Ok(()) => Ok(()),
            Err(WriteFault) => Err(PlayFault::Write),
        },
        Err(NoMemory) => Err(PlayFault::NoMemory),
    }
}

/// Gives a command to a module, and prints the entry. Stopped with ClockFull where there is none:
/// the module's clock is full, or there is no such module. Write where the writer failed or took no
/// byte, NoMemory where an allocation is refused.
pub(crate) fn feed<W: Sink>(
    world: &mut World,
    names: &[Bytes],
    at: ModuleId,
    command: Command,
    writer: &mut W,
    text: &mut Vec<u8>,
) -> Result<(), PlayFault>
    requires stand { ⟦<World as Shown>⟧.stands world.old }
    requires names { names.now ≡ names_of world.old.ledger.plan }
    ensures stand { ⟦<World as Shown>⟧.stands world.new }
    ensures plan { world.new.ledger.plan ≡ world.old.ledger.plan }
    ensures plays { Plays (given world.old.ledger.plan world.old.ledger.journal at
        (inputs.Command command))
        (W.contents writer.old) (W.contents writer.new) text.old.items text.new.items
        world.new.ledger.journal result }
    ensures taken { result ≢ Err PlayFault.Write → W.has_refused writer.new
        → W.has_refused writer.old }
    ensures refused { result ≡ Err PlayFault.Write → W.has_refused writer.new }
{
    match world.feed(at, command) {
        Ok(_) => show(world, names, writer, text),
        Err(WorldFault::NoMemory) => Err(PlayFault::NoMemory),
        Err(WorldFault::NoModule) => Err(PlayFault::Stopped(ScriptFault::ClockFull)),
        Err(WorldFault::NoFrame) => Err(PlayFault::Stopped(ScriptFault::ClockFull)),
        Err(WorldFault::Step(_)) => Err(PlayFault::Stopped(ScriptFault::ClockFull)),
    }
}

/// Lets so many milliseconds go by at a module, and prints the entry. Stopped with ClockFull where
/// there is none: the module's clock is full, or there is no such module. Write where the writer
/// failed or took no byte, NoMemory where an allocation is refused.
pub(crate) fn tick<W: Sink>(
    world: &mut World,
    names: &[Bytes],
    at: ModuleId,
    by: Ms,
    writer: &mut W,
    text: &mut Vec<u8>,
) -> Result<(), PlayFault>
    requires stand { ⟦<World as Shown>⟧.stands world.old }
    requires names { names.now ≡ names_of world.old.ledger.plan }
    ensures stand { ⟦<World as Shown>⟧.stands world.new }
    ensures plan { world.new.ledger.plan ≡ world.old.ledger.plan }
    ensures plays { Plays (given world.old.ledger.plan world.old.ledger.journal at (inputs.Tick by))
        (W.contents writer.old) (W.contents writer.new) text.old.items text.new.items
        world.new.ledger.journal result }
    ensures taken { result ≢ Err PlayFault.Write → W.has_refused writer.new
        → W.has_refused writer.old }
    ensures refused { result ≡ Err PlayFault.Write → W.has_refused writer.new }
{
    match world.tick(at, by) {
        Ok(_) => show(world, names, writer, text),
        Err(WorldFault::NoMemory) => Err(PlayFault::NoMemory),
        Err(WorldFault::NoModule) => Err(PlayFault::Stopped(ScriptFault::ClockFull)),
        Err(WorldFault::NoFrame) => Err(PlayFault::Stopped(ScriptFault::ClockFull)),
        Err(WorldFault::Step(_)) => Err(PlayFault::Stopped(ScriptFault::ClockFull)),
    }
}

/// `deliver E.K`: delivers a frame that waits, and prints the entry. Stopped with NoFrame where it
/// does not wait; Write where the writer failed or took no byte, NoMemory where an allocation is
/// refused.
pub(crate) fn deliver_frame<W: Sink>(
    world: &mut World,
    names: &[Bytes],
    frame: FrameName,
    writer: &mut W,
    text: &mut Vec<u8>,
) -> Result<(), PlayFault>
    requires stand { ⟦<World as Shown>⟧.stands world.old }
    requires names { names.now ≡ names_of world.old.ledger.plan }
    ensures stand { ⟦<World as Shown>⟧.stands world.new }
    ensures plan { world.new.ledger.plan ≡ world.old.ledger.plan }
    ensures plays { Plays (brought world.old.ledger.plan world.old.ledger.journal frame)
        (W.contents writer.old) (W.contents writer.new) text.old.items text.new.items
        world.new.ledger.journal result }
    ensures taken { result ≢ Err PlayFault.Write → W.has_refused writer.new
        → W.has_refused writer.old }
    ensures refused { result ≡ Err PlayFault.Write → W.has_refused writer.new }
{
    match world.deliver(frame) {
        Ok(_) => show(world, names, writer, text),
        Err(WorldFault::NoMemory) => Err(PlayFault::NoMemory),
        Err(_) => Err(PlayFault::Stopped(ScriptFault::NoFrame)),
    }
}

/// `lose E.K`: loses a frame that waits, and prints the entry. Stopped with NoFrame where it does
/// not wait; Write where the writer failed or took no byte, NoMemory where an allocation is
/// refused.
pub(crate) fn lose<W: Sink>(
    world: &mut World,
    names: &[Bytes],
    frame: FrameName,
    writer: &mut W,
    text: &mut Vec<u8>,
) -> Result<(), PlayFault>
    requires stand { ⟦<World as Shown>⟧.stands world.old }
    requires names { names.now ≡ names_of world.old.ledger.plan }
    ensures stand { ⟦<World as Shown>⟧.stands world.new }
    ensures plan { world.new.ledger.plan ≡ world.old.ledger.plan }
    ensures plays { Plays (lost world.old.ledger.plan world.old.ledger.journal frame)
        (W.contents writer.old) (W.contents writer.new) text.old.items text.new.items
        world.new.ledger.journal result }
    ensures taken { result ≢ Err PlayFault.Write → W.has_refused writer.new
        → W.has_refused writer.old }
    ensures refused { result ≡ Err PlayFault.Write → W.has_refused writer.new }
{
    match world.lose(frame) {
        Ok(_) => show(world, names, writer, text),
        Err(WorldFault::NoMemory) => Err(PlayFault::NoMemory),
        Err(_) => Err(PlayFault::Stopped(ScriptFault::NoFrame)),
    }
}

/// `run N`: delivers the waiting frame of least name up to so many times, and prints each entry and
/// then whether a frame is left that waits. Write where the writer failed or took no byte, NoMemory
/// where an allocation is refused.
pub(crate) fn run_line<W: Sink>(
    world: &mut World,
    names: &[Bytes],
    limit: usize,
    writer: &mut W,
    text: &mut Vec<u8>,
) -> Result<(), PlayFault>
    requires stand { ⟦<World as Shown>⟧.stands world.old }
    requires names { names.now ≡ names_of world.old.ledger.plan }
    ensures stand { ⟦<World as Shown>⟧.stands world.new }
    ensures plan { world.new.ledger.plan ≡ world.old.ledger.plan }
    ensures plays { Plays (ran world.old.ledger.plan limit world.old.ledger.journal)
        (W.contents writer.old) (W.contents writer.new) text.old.items text.new.items
        world.new.ledger.journal result }
    ensures taken { result ≢ Err PlayFault.Write → W.has_refused writer.new
        → W.has_refused writer.old }
    ensures refused { result ≡ Err PlayFault.Write → W.has_refused writer.new }
{
    match deliver(world, names, limit, writer, text) {
        Ok(()) => match show_end(world, writer, text) {
            Ok(()) => Ok(()),
            Err(fault) => Err(fault),
        },
        Err(fault) => Err(fault),
    }
}

/// `tables M`: prints the tables of a module, and nothing where there is no such module. Write
/// where the writer failed or took no byte, NoMemory where an allocation is refused.
pub(crate) fn show_tables<W: Sink>(
    world: &World,
    names: &[Bytes],
    at: ModuleId,
    writer: &mut W,
    text: &mut Vec<u8>,
) -> Result<(), PlayFault>
    requires stand { ⟦<World as Shown>⟧.stands world.now }
    requires names { names.now ≡ names_of world.now.ledger.plan }
    ensures plays { Plays (tabled world.now.ledger.plan world.now.ledger.journal at)
        (W.contents writer.old) (W.contents writer.new) text.old.items text.new.items
        world.now.ledger.journal result }
    ensures taken { result ≢ Err PlayFault.Write → W.has_refused writer.new
        → W.has_refused writer.old }
    ensures refused { result ≡ Err PlayFault.Write → W.has_refused writer.new }
{
    match world.tables(at) {
        Ok(tables) => match put_tables(text, name_in(names, at.0), &tables) {
            Ok(()) => match flush(writer, text, FULL) {
                Ok(()) => Ok(()),
                Err(WriteFault) => Err(PlayFault::Write),
            },
            Err(NoMemory) => Err(PlayFault::NoMemory),
        },
        Err(WorldFault::NoModule) => Ok(()),
        Err(_) => Err(PlayFault::NoMemory),
    }
}

/// `trail M OP`: prints where the request of a module's op went, by an index of the journal. Write
/// where the writer failed or took no byte, NoMemory where an allocation is refused.
pub(crate) fn show_trail<W: Sink>(
    index: &mut TrailIndex,
    world: &World,
    at: ModuleId,
    op: u32,
    writer: &mut W,
    text: &mut Vec<u8>,
) -> Result<(), PlayFault>
    requires index { IsIndexOf index.old world.now.ledger.journal }
    ensures index { IsIndexOf index.new world.now.ledger.journal }
    ensures plays { Plays (trailed world.now.ledger.journal at op)
        (W.contents writer.old) (W.contents writer.new) text.old.items text.new.items
        world.now.ledger.journal result }
    ensures taken { result ≢ Err PlayFault.Write → W.has_refused writer.new
        → W.has_refused writer.old }
    ensures refused { result ≡ Err PlayFault.Write → W.has_refused writer.new }
{
    match index.trail(world.journal(), at, op) {
        Ok(entries) => match put_trail(text, entries.as_slice()) {
            Ok(()) => match flush(writer, text, FULL) {
                Ok(()) => Ok(()),
                Err(WriteFault) => Err(PlayFault::Write),
            },
            Err(NoMemory) => Err(PlayFault::NoMemory),
        },
        Err(NoMemory) => Err(PlayFault::NoMemory),
    }
}

/// `chain M OP`: prints along which modules the connection of a module's op goes, or why it goes
/// nowhere. Write where the writer failed or took no byte, NoMemory where an allocation is refused.
pub(crate) fn show_chain<W: Sink>(
    alloc: Global,
    world: &World,
    names: &[Bytes],
    at: ModuleId,
    op: u32,
    writer: &mut W,
    text: &mut Vec<u8>,
) -> Result<(), PlayFault>
    requires stand { ⟦<World as Shown>⟧.stands world.now }
    requires names { names.now ≡ names_of world.now.ledger.plan }
    ensures plays { Plays (chained world.now.ledger.plan world.now.ledger.journal at op)
        (W.contents writer.old) (W.contents writer.new) text.old.items text.new.items
        world.now.ledger.journal result }
    ensures taken { result ≢ Err PlayFault.Write → W.has_refused writer.new
        → W.has_refused writer.old }
    ensures refused { result ≡ Err PlayFault.Write → W.has_refused writer.new }
{
    match put_chain_of(alloc, world, names, at, op, text) {
        Ok(()) => match flush(writer, text, FULL) {
            Ok(()) => Ok(()),
            Err(WriteFault) => Err(PlayFault::Write),
        },
        Err(NoMemory) => Err(PlayFault::NoMemory),
    }
}
