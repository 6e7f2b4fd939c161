//! The run of a script by modules on threads of their own.
ghost use Rattle.std.specs.Prelude.{◌≡◌, ◌≢◌, ◌⊎◌, ◌++◌, ◌∷◌, ◌+◌, ◌<◌, ◌≤◌, [], All, length, map};
ghost use Rattle.std.specs.Prelude.{IfOk, IfSome, OnOk, OnErr};
ghost use Rattle.std.specs.Io.KnownBytes.{Appends};
ghost use Rattle.cip_threads.specs.Reports.{IsTellable};
ghost use Rattle.cip_world.specs.Fresh.{IsNewFault};
ghost use Rattle.cip_console.specs.Known.{AppendsFront};
ghost use Rattle.cip_console.specs.Live.{GivesFeeds, HasRun, WroteLive, WroteLiveOf, entries_text};
ghost use Rattle.cip_console.specs.Live.{feed_for, feed_of, feeds_of, given_by, last_text};
ghost use Rattle.cip_console.specs.Live.{live_text};
ghost use Rattle.cip_console.specs.Playing.{Prints};
ghost use Rattle.cip_transcript.specs.Show.{names_of};

use crate::fault::ConsoleFault;
use crate::playing::{FULL, flush};
use crate::source::{ReadFault, SCRIPT_LIMIT, Sink, Source, WriteFault, read_script};
use cip_base::{Bytes, ModuleId, NoMemory};
use cip_chassis::Topology;
use cip_routing::Module;
use cip_script::{Mode, Numbered, ScriptFault, Step, StepsFault, read_steps};
use cip_threads::{Feed, Gate, RunFault, run_threads};
use cip_transcript::{names_of, put, put_entry};
use cip_world::{End, Entry};
use std::alloc::Global;
use std::collections::VecDeque;
use std::sync::Wait;
use std::thread::Threads;

// What one of so many modules is given.
fn feed_for(
    modules: usize,
    line: usize,
    at: ModuleId,
    feed: Feed,
) -> Result<(ModuleId, Feed), StepsFault>
    ensures gives { GivesFeeds (λ fed. fed) result (feed_for modules line at feed) }
    ensures within { IfOk result (λ fed. fed.0.0 < modules) }
{
    if at.0 < modules {
        return Ok((at, feed));
    }
    Err(StepsFault::Script(line, ScriptFault::NoModule))
}

// What a step gives to one of so many modules.
fn feed_of(modules: usize, line: usize, step: Step) -> Result<(ModuleId, Feed), StepsFault>
    ensures gives { GivesFeeds (λ fed. fed) result (feed_of modules line step) }
    ensures within { IfOk result (λ fed. fed.0.0 < modules) }
{
    match step {
        Step::Feed { module_, command } => feed_for(modules, line, module_, Feed::Command(command)),
        Step::Tick { module_, by } => feed_for(modules, line, module_, Feed::Tick(by)),
        Step::Deliver { frame } => Err(StepsFault::Script(line, ScriptFault::NotWithThreads)),
        Step::Lose { frame } => Err(StepsFault::Script(line, ScriptFault::NotWithThreads)),
        Step::Run { limit } => Err(StepsFault::Script(line, ScriptFault::NotWithThreads)),
        Step::Tables { module_ } => Err(StepsFault::Script(line, ScriptFault::NotWithThreads)),
        Step::Trail { module_, op } => Err(StepsFault::Script(line, ScriptFault::NotWithThreads)),
        Step::Chain { module_, op } => Err(StepsFault::Script(line, ScriptFault::NotWithThreads)),
    }
}

// One more at the end.
fn push(found: &mut Vec<(ModuleId, Feed)>, fed: (ModuleId, Feed)) -> Result<(), NoMemory>
    ensures { OnOk result (found.new.items ≡ found.old.items ++ fed ∷ []) }
{
    found.push(fed)?;
    Ok(())
}

// What the steps of a script give to so many modules.
fn feeds_of(
    alloc: Global,
    modules: usize,
    steps: Vec<Numbered>,
) -> Result<Vec<(ModuleId, Feed)>, StepsFault>
    ensures gives { GivesFeeds (λ v. v.items) result (feeds_of modules steps.items) }
    ensures within { IfOk result (λ v. All (λ fed. fed.0.0 < modules) v.items) }
{
    let mut found = Vec::new(alloc);
    let mut left = VecDeque::from(steps);
    while let Some(numbered) = left.pop_front() {
        let fed = feed_of(modules, numbered.line, numbered.step)?;
        match push(&mut found, fed) {
            Ok(()) => {}
            Err(NoMemory) => return Err(StepsFault::NoMemory),
        }
    }
    Ok(found)
}

// What a script gives to the modules of a topology.
fn read_feeds(
    alloc: Global,
    names: &[Bytes],
    script: &[u8],
) -> Result<Vec<(ModuleId, Feed)>, StepsFault>
    ensures gives { (t : _) → names.now ≡ names_of t
        → GivesFeeds (λ v. v.items) result (given_by t script.now) }
    ensures within { IfOk result (λ v. All (λ fed. fed.0.0 < length names.now) v.items) }
{
    let steps = read_steps(alloc, Mode::OnThreads, names, script)?;
    feeds_of(alloc, names.len(), steps)
}

// Why the text of a run was not written to its end.
#[derive(Clone, Copy)]
enum WritingFault {
    Write,
    NoMemory,
}

// The entries of a journal: text is gathered, and written once there is enough of it.
fn write_journal<W: Sink>(
    names: &[Bytes],
    journal: &[Entry],
    writer: &mut W,
    text: &mut Vec<u8>,
) -> Result<(), WritingFault>
    ensures ok { OnOk result (Prints (W.contents writer.old) (W.contents writer.new) text.old.items
        text.new.items (entries_text names.now 0 journal.now)) }
    ensures err { OnErr result (AppendsFront (W.contents writer.old) (W.contents writer.new)
        (text.old.items ++ entries_text names.now 0 journal.now)) }
    ensures taken { result ≢ Err WritingFault.Write → W.has_refused writer.new
        → W.has_refused writer.old }
    ensures refused { result ≡ Err WritingFault.Write → W.has_refused writer.new }
{
    for (k, entry) in journal.iter().enumerate() {
        match put_entry(text, names, k, entry) {
            Ok(()) => {}
            Err(NoMemory) => return Err(WritingFault::NoMemory),
        }
        match flush(writer, text, FULL) {
            Ok(()) => {}
            Err(WriteFault) => return Err(WritingFault::Write),
        }
    }
    Ok(())
}

// How a run ended.
fn put_last(text: &mut Vec<u8>, end: End) -> Result<(), NoMemory>
    ensures { OnOk result (text.new.items ≡ text.old.items ++ last_text end) }
{
    match end {
        End::Quiet => put(text, b"quiet\n"),
        End::Limit => put(text, b"limit\n"),
    }
}

// The text of a run.
fn write_run<W: Sink>(
    alloc: Global,
    names: &[Bytes],
    journal: &[Entry],
    end: End,
    writer: &mut W,
) -> Result<(), WritingFault>
    ensures ok { OnOk result (Appends (W.contents writer.old) (W.contents writer.new)
        (entries_text names.now 0 journal.now ++ last_text end)) }
    ensures err { OnErr result (AppendsFront (W.contents writer.old) (W.contents writer.new)
        (entries_text names.now 0 journal.now ++ last_text end)) }
    ensures taken { result ≢ Err WritingFault.Write → W.has_refused writer.new
        → W.has_refused writer.old }
    ensures refused { result ≡ Err WritingFault.Write → W.has_refused writer.new }
{
    let mut text = Vec::new(alloc);
    match write_journal(names, journal, writer, &mut text) {
        Ok(()) => {}
        Err(fault) => return Err(fault),
    }
    match put_last(&mut text, end) {
        Ok(()) => {}
        Err(NoMemory) => return Err(WritingFault::NoMemory),
    }
    match flush(writer, &mut text, 0) {
        Ok(()) => Ok(()),
        Err(WriteFault) => Err(WritingFault::Write),
    }
}

// Runs the modules, which are given these feeds, on threads of their own, and writes what they did.
fn run_feeds<T: Threads + Wait + Sync, W: Sink, G: Gate + Sync>(
    rt: &T,
    alloc: Global,
    names: &[Bytes],
    feeds: Vec<(ModuleId, Feed)>,
    writer: &mut W,
    topology: Topology,
    modules: Vec<Box<dyn Module + Send>>,
    turns: usize,
    gate: &G,
) -> Result<(), ConsoleFault>
    requires names { names.now ≡ names_of topology }
    requires within { All (λ fed. fed.0.0 < length topology.modules) feeds.items }
    ensures wrote { WroteLive topology turns (W.contents writer.old) (W.contents writer.new)
        (Ok feeds.items) result }
    ensures read { result ≢ Err ConsoleFault.Read }
    ensures new { (f : _) → result ≡ Err (ConsoleFault.New f)
        → IsTellable f × IsNewFault topology (map (λ b. config_of b) modules.items)
        (map (λ b. state_of b) modules.items) f }
    ensures taken { result ≢ Err ConsoleFault.Write → W.has_refused writer.new
        → W.has_refused writer.old }
    ensures refused { result ≡ Err ConsoleFault.Write → W.has_refused writer.new }
{
    let report = match run_threads(rt, alloc, topology, modules, feeds, turns, gate) {
        Ok(report) => report,
        Err(RunFault::NoMemory) => return Err(ConsoleFault::NoMemory),
        Err(RunFault::New(fault)) => return Err(ConsoleFault::New(fault)),
        Err(RunFault::NoThread) => return Err(ConsoleFault::Run(RunFault::NoThread)),
        Err(RunFault::Split(m)) => return Err(ConsoleFault::Run(RunFault::Split(m))),
        Err(RunFault::Step(full)) => return Err(ConsoleFault::Run(RunFault::Step(full))),
    };
    let journal = report.journal.as_slice();
    match write_run(alloc, names, journal, report.end, writer) {
        Ok(()) => Ok(()),
        Err(WritingFault::Write) => Err(ConsoleFault::Write),
        Err(WritingFault::NoMemory) => Err(ConsoleFault::NoMemory),
    }
}

// Reads what a script gives to the modules, and runs these on threads of their own.
fn play_live<T: Threads + Wait + Sync, W: Sink, G: Gate + Sync>(
    rt: &T,
    alloc: Global,
    script: &[u8],
    writer: &mut W,
    topology: Topology,
    modules: Vec<Box<dyn Module + Send>>,
    turns: usize,
    gate: &G,
) -> Result<(), ConsoleFault>
    ensures wrote { WroteLive topology turns (W.contents writer.old) (W.contents writer.new)
        (given_by topology script.now) result }
    ensures read { result ≢ Err ConsoleFault.Read }
    ensures new { (f : _) → result ≡ Err (ConsoleFault.New f)
        → IsTellable f × IsNewFault topology (map (λ b. config_of b) modules.items)
        (map (λ b. state_of b) modules.items) f }
    ensures taken { result ≢ Err ConsoleFault.Write → W.has_refused writer.new
        → W.has_refused writer.old }
    ensures refused { result ≡ Err ConsoleFault.Write → W.has_refused writer.new }
{
    let names = names_of(alloc, &topology)?;
    let names = names.as_slice();
    match read_feeds(alloc, names, script) {
        Ok(feeds) => run_feeds(
            rt, alloc, names, feeds, writer, topology, modules, turns, gate,
        ),
        Err(StepsFault::Script(line, fault)) => Err(ConsoleFault::Script(line, fault)),
        Err(StepsFault::NoMemory) => Err(ConsoleFault::NoMemory),
    }
}

// Runs on threads what a script in memory gives.
fn play_in_memory<T: Threads + Wait + Sync, W: Sink, G: Gate + Sync>(
    rt: &T,
    alloc: Global,
    script: &[u8],
    writer: &mut W,
    topology: Topology,
    modules: Vec<Box<dyn Module + Send>>,
    turns: usize,
    gate: &G,
) -> Result<(), ConsoleFault>
    ensures wrote { WroteLive topology turns (W.contents writer.old) (W.contents writer.new)
        (given_by topology script.now) result }
    ensures read { result ≡ Err ConsoleFault.Read → SCRIPT_LIMIT < length script.now }
    ensures new { (f : _) → result ≡ Err (ConsoleFault.New f)
        → IsTellable f × IsNewFault topology (map (λ b. config_of b) modules.items)
        (map (λ b. state_of b) modules.items) f }
    ensures taken { result ≢ Err ConsoleFault.Write → W.has_refused writer.new
        → W.has_refused writer.old }
    ensures refused { result ≡ Err ConsoleFault.Write → W.has_refused writer.new }
{
    if script.len() > SCRIPT_LIMIT {
        return Err(ConsoleFault::Read);
    }
    play_live(rt, alloc, script, writer, topology, modules, turns, gate)
}

/// Reads a whole script of commands and ticks, gives them to the modules of a topology, in its
/// order and each as at its beginning, runs each module on a thread of its own for at most so many
/// turns together, and writes the journal and how it ended. A turn is one event that a module
/// takes. The gate is called before each commit. The reader is asked at most 1,048,577 times. The
/// call may wait.
pub fn run_live<T: Threads + Wait + Sync, R: Source, W: Sink, G: Gate + Sync>(
    rt: &T,
    alloc: Global,
    reader: &mut R,
    writer: &mut W,
    topology: Topology,
    modules: Vec<Box<dyn Module + Send>>,
    turns: usize,
    gate: &G,
) -> Result<(), ConsoleFault>
    // What was written of the script that was read, by the answer.
    ensures wrote { WroteLiveOf topology turns (R.remaining reader.old) (W.contents writer.old)
        (W.contents writer.new) result }
    // New only where the modules are not those of the topology at their beginning.
    ensures new { (f : _) → result ≡ Err (ConsoleFault.New f)
        → IsTellable f × IsNewFault topology (map (λ b. config_of b) modules.items)
        (map (λ b. state_of b) modules.items) f }
    // Read only where the reader failed or has too much.
    ensures read { result ≡ Err ConsoleFault.Read
        → R.has_failed reader.new ⊎ IfSome (R.remaining reader.old)
        (λ bytes. SCRIPT_LIMIT < length bytes) }
    // Write where a write failed or took no byte, and nowhere else, for a writer that tells it.
    ensures taken { result ≢ Err ConsoleFault.Write → W.has_refused writer.new
        → W.has_refused writer.old }
    ensures refused { result ≡ Err ConsoleFault.Write → W.has_refused writer.new }
    ensures asked { R.asks reader.new ≤ R.asks reader.old + 1048577 }
{
    if let Some(script) = reader.in_memory() {
        return play_in_memory(rt, alloc, script, writer, topology, modules, turns, gate);
    }
    match read_script(alloc, reader) {
        Ok(script) => {
            let script = script.as_slice();
            play_live(rt, alloc, script, writer, topology, modules, turns, gate)
        }
        Err(ReadFault::NoMemory) => Err(ConsoleFault::NoMemory),
        Err(ReadFault::Failed) => Err(ConsoleFault::Read),
        Err(ReadFault::TooLong) => Err(ConsoleFault::Read),
    }
}
