//! Runs of the console over boxes, a reader and a writer that are made here.
//!
//! Each run stands between the marks `>` and `<`, so that memory can be refused to the console
//! alone. A script is run twice: once where it lies in memory, and once where it has to be read;
//! where the reader is to fail, once, from that reader.
use crate::fault::Fault;
use crate::kept::Kept;
use crate::made::{Chosen, boxes};
use cip_console::{ConsoleFault, Plain, Script, Source, read_script, run, run_live};
use cip_indexed::NewModule;
use cip_module::Module;
use cip_threads::OpenGate;
use cip_topology::{CHASSIS, load};
use std::io::Read;
use std::sync::Wait;
use std::thread::Threads;

// More turns than any script here takes.
const TURNS: usize = 10_000;

// How a run ended, and its transcript. The marks stand on a line of their own.
fn tell(rt: &HostRuntime, ended: Result<(), ConsoleFault>, kept: &Kept) -> Result<(), Fault> {
    let Ok(transcript) = std::str::from_utf8(kept.as_slice()) else {
        return Err(Fault::System);
    };
    match ended {
        Ok(()) => println!(rt; "\ndone")?,
        Err(fault) => println!(rt; "\n{fault}")?,
    }
    println!(rt; "{transcript}")?;
    Ok(())
}

fn run_one<R: Source>(rt: &HostRuntime, chosen: &Chosen, reader: &mut R) -> Result<(), Fault> {
    let alloc = rt.alloc();
    let topology = load(alloc, CHASSIS)?;
    let mut writer = Kept::new(alloc)?;
    let modules = boxes!(NewModule, alloc, chosen.modules(alloc, &topology)?);
    // (what the marks say is looked at when no box is left to be given up)
    let begun = print!(rt; ">");
    let ended = run(alloc, reader, &mut writer, topology, modules);
    begun?;
    print!(rt; "<")?;
    tell(rt, ended, &writer)
}

fn run_one_live<T: Threads + Wait + Sync, R: Source>(
    rt: &HostRuntime,
    workers: &T,
    chosen: &Chosen,
    reader: &mut R,
) -> Result<(), Fault> {
    let alloc = rt.alloc();
    let topology = load(alloc, CHASSIS)?;
    let mut writer = Kept::new(alloc)?;
    let modules = boxes!(NewModule, alloc, chosen.modules(alloc, &topology)?);
    // (what the marks say is looked at when no box is left to be given up)
    let begun = print!(rt; ">");
    let ended = run_live(
        workers,
        alloc,
        reader,
        &mut writer,
        topology,
        modules,
        TURNS,
        &OpenGate,
    );
    begun?;
    print!(rt; "<")?;
    tell(rt, ended, &writer)
}

/// Runs the script of this input in turn, over these modules.
pub fn in_turn<R: Read + Drop>(rt: &HostRuntime, places: &str, input: R) -> Result<(), Fault> {
    let chosen = Chosen::of(rt.alloc(), places)?;
    let script = read_script(rt.alloc(), &mut Plain { inner: input })?;
    let script = script.as_slice();
    run_one(rt, &chosen, &mut Script { rest: script })?;
    run_one(rt, &chosen, &mut Plain { inner: script })
}

/// Runs the script that has to be read from this input, likewise.
pub fn as_read<R: Read + Drop>(rt: &HostRuntime, places: &str, input: R) -> Result<(), Fault> {
    let chosen = Chosen::of(rt.alloc(), places)?;
    run_one(rt, &chosen, &mut Plain { inner: input })
}

/// Runs the script of this input with each of these modules on a thread of its own.
pub fn on_threads<T: Threads + Wait + Sync, R: Read + Drop>(
    rt: &HostRuntime,
    workers: &T,
    places: &str,
    input: R,
) -> Result<(), Fault> {
    let chosen = Chosen::of(rt.alloc(), places)?;
    let script = read_script(rt.alloc(), &mut Plain { inner: input })?;
    let script = script.as_slice();
    run_one_live(rt, workers, &chosen, &mut Script { rest: script })?;
    run_one_live(rt, workers, &chosen, &mut Plain { inner: script })
}

/// Runs the script that has to be read from this input, likewise.
pub fn on_threads_as_read<T: Threads + Wait + Sync, R: Read + Drop>(
    rt: &HostRuntime,
    workers: &T,
    places: &str,
    input: R,
) -> Result<(), Fault> {
    let chosen = Chosen::of(rt.alloc(), places)?;
    run_one_live(rt, workers, &chosen, &mut Plain { inner: input })
}
