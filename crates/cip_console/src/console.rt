//! The run of a script over the modules of a topology.
ghost use Rattle.std.specs.Prelude.{◌≡◌, ◌≢◌, ◌⊎◌, ◌+◌, ◌<◌, ◌≤◌, [], length, map, IfSome};
ghost use Rattle.cip_threads.specs.Reports.{IsTellable};
ghost use Rattle.cip_world.specs.Fresh.{IsNewFault};
ghost use Rattle.cip_console.specs.Outcome.{Wrote, WroteOf};
ghost use Rattle.cip_script.specs.Steps.{steps};
ghost use Rattle.cip_transcript.specs.Show.{names_of};

use crate::fault::ConsoleFault;
use crate::playing::{PlayFault, flush, tell_waiting};
use crate::source::{ReadFault, SCRIPT_LIMIT, Sink, Source, WriteFault, read_script};
use crate::steps::play;
use cip_base::Bytes;
use cip_chain::TrailIndex;
use cip_chassis::Topology;
use cip_routing::Module;
use cip_script::{Mode, Numbered, StepsFault, read_steps};
use cip_transcript::names_of;
use cip_world::{NewFault, Shown, World};
use std::alloc::Global;
use std::collections::VecDeque;

// All steps of a script, from the beginning on.
fn run_steps<W: Sink>(
    alloc: Global,
    world: &mut World,
    names: &[Bytes],
    steps: Vec<Numbered>,
    writer: &mut W,
) -> Result<(), ConsoleFault>
    requires stand { ⟦<World as Shown>⟧.stands world.old }
    requires names { names.now ≡ names_of world.old.ledger.plan }
    requires first { world.old.ledger.journal ≡ [] }
    ensures wrote { Wrote world.old.ledger.plan (W.contents writer.old) (W.contents writer.new)
        (Ok steps.items) result }
    ensures read { result ≢ Err ConsoleFault.Read }
    ensures new { (fault : _) → result ≢ Err (ConsoleFault.New fault) }
    ensures taken { result ≢ Err ConsoleFault.Write → W.has_refused writer.new
        → W.has_refused writer.old }
    ensures refused { result ≡ Err ConsoleFault.Write → W.has_refused writer.new }
{
    let mut left = VecDeque::from(steps);
    let mut text = Vec::new(alloc);
    let mut index = TrailIndex::new(alloc);
    while let Some(numbered) = left.pop_front() {
        let line = numbered.line;
        match play(
            alloc,
            &mut index,
            world,
            names,
            numbered.step,
            writer,
            &mut text,
        ) {
            Ok(()) => {}
            Err(PlayFault::Stopped(fault)) => match flush(writer, &mut text, 0) {
                Ok(()) => {
                    tell_waiting(world, writer);
                    return Err(ConsoleFault::Script(line, fault));
                }
                Err(WriteFault) => return Err(ConsoleFault::Write),
            },
            Err(PlayFault::Write) => return Err(ConsoleFault::Write),
            Err(PlayFault::NoMemory) => return Err(ConsoleFault::NoMemory),
        }
    }
    match flush(writer, &mut text, 0) {
        Ok(()) => Ok(()),
        Err(WriteFault) => Err(ConsoleFault::Write),
    }
}

// Reads the steps of a script, and runs them over the modules.
fn run_steps_of<W: Sink>(
    alloc: Global,
    script: &[u8],
    writer: &mut W,
    topology: Topology,
    modules: Vec<Box<dyn Module + Send>>,
) -> Result<(), ConsoleFault>
    ensures wrote { Wrote topology (W.contents writer.old) (W.contents writer.new)
        (steps Mode.InTurn (names_of topology) script.now) result }
    ensures read { result ≢ Err ConsoleFault.Read }
    ensures new { (f : _) → result ≡ Err (ConsoleFault.New f)
        → IsTellable f × IsNewFault topology (map (λ b. config_of b) modules.items)
        (map (λ b. state_of b) modules.items) f }
    ensures taken { result ≢ Err ConsoleFault.Write → W.has_refused writer.new
        → W.has_refused writer.old }
    ensures refused { result ≡ Err ConsoleFault.Write → W.has_refused writer.new }
{
    let names = names_of(alloc, &topology)?;
    match read_steps(alloc, Mode::InTurn, names.as_slice(), script) {
        Ok(steps) => match World::new(alloc, topology, modules) {
            Ok(mut world) => run_steps(alloc, &mut world, names.as_slice(), steps, writer),
            Err(NewFault::Count) => Err(ConsoleFault::New(NewFault::Count)),
            Err(NewFault::Config(m)) => Err(ConsoleFault::New(NewFault::Config(m))),
            Err(NewFault::NotFresh(m)) => Err(ConsoleFault::New(NewFault::NotFresh(m))),
            Err(NewFault::NoMemory) => Err(ConsoleFault::NoMemory),
        },
        Err(StepsFault::Script(line, fault)) => Err(ConsoleFault::Script(line, fault)),
        Err(StepsFault::NoMemory) => Err(ConsoleFault::NoMemory),
    }
}

// Runs a script that lies in memory.
fn run_in_memory<W: Sink>(
    alloc: Global,
    script: &[u8],
    writer: &mut W,
    topology: Topology,
    modules: Vec<Box<dyn Module + Send>>,
) -> Result<(), ConsoleFault>
    ensures wrote { Wrote topology (W.contents writer.old) (W.contents writer.new)
        (steps Mode.InTurn (names_of topology) script.now) result }
    ensures read { result ≡ Err ConsoleFault.Read → SCRIPT_LIMIT < length script.now }
    ensures new { (f : _) → result ≡ Err (ConsoleFault.New f)
        → IsTellable f × IsNewFault topology (map (λ b. config_of b) modules.items)
        (map (λ b. state_of b) modules.items) f }
    ensures taken { result ≢ Err ConsoleFault.Write → W.has_refused writer.new
        → W.has_refused writer.old }
    ensures refused { result ≡ Err ConsoleFault.Write → W.has_refused writer.new }
{
    if script.len() > SCRIPT_LIMIT {
        return Err(ConsoleFault::Read);
    }
    run_steps_of(alloc, script, writer, topology, modules)
}

/// Reads a whole script, runs it over the modules of a topology, in its order and each as at its
/// beginning, and writes the transcript. The reader is asked at most 1,048,577 times.
pub fn run<R: Source, W: Sink>(
    alloc: Global,
    reader: &mut R,
    writer: &mut W,
    topology: Topology,
    modules: Vec<Box<dyn Module + Send>>,
) -> Result<(), ConsoleFault>
    // What was written of the script that was read, by the answer.
    ensures wrote { WroteOf topology (R.remaining reader.old) (W.contents writer.old)
        (W.contents writer.new) result }
    // New only where the modules are not those of the topology at their beginning.
    ensures new { (f : _) → result ≡ Err (ConsoleFault.New f)
        → IsTellable f × IsNewFault topology (map (λ b. config_of b) modules.items)
        (map (λ b. state_of b) modules.items) f }
    // Read only where the reader failed or has too much.
    ensures read { result ≡ Err ConsoleFault.Read
        → R.has_failed reader.new ⊎ IfSome (R.remaining reader.old)
        (λ bytes. SCRIPT_LIMIT < length bytes) }
    // Write where a write failed or took no byte, and nowhere else, for a writer that tells it.
    ensures taken { result ≢ Err ConsoleFault.Write → W.has_refused writer.new
        → W.has_refused writer.old }
    ensures refused { result ≡ Err ConsoleFault.Write → W.has_refused writer.new }
    ensures asked { R.asks reader.new ≤ R.asks reader.old + 1048577 }
{
    if let Some(script) = reader.in_memory() {
        return run_in_memory(alloc, script, writer, topology, modules);
    }
    match read_script(alloc, reader) {
        Ok(script) => run_steps_of(alloc, script.as_slice(), writer, topology, modules),
        Err(ReadFault::NoMemory) => Err(ConsoleFault::NoMemory),
        Err(ReadFault::Failed) => Err(ConsoleFault::Read),
        Err(ReadFault::TooLong) => Err(ConsoleFault::Read),
    }
}
