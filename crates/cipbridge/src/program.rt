//! What the program does: it reads its options, the topology file and the script, in this order,
//! runs the script over new modules of the topology, and writes the transcript.
use crate::fault::Fault;
use crate::hint::{hint_of, line_at};
use crate::noted::{Noted, NotedOut};
use crate::terminal::Terminal;
use cip_base::NoMemory;
use cip_check::{Unread, explain_file, module_names, text_of, unread_by};
use cip_console::{
    ConsoleFault, Options, OptionsFault, ReadFault, Script, ScriptFault, Usage, Watched, explain,
    explain_options, read_options, read_script, run, run_live,
};
use cip_indexed::{NewModule, new_modules};
use cip_module::Module;
use cip_threads::OpenGate;
use cip_topology::{CHASSIS, LoadFault, Topology, load};
use cip_world::FrameName;
use std::alloc::Global;
use std::env::Env;
use std::fs::File;
use std::io::{ErrorKind, IsTerminal, Read};
use std::sync::Wait;
use std::thread::Threads;
use std::{env, io};

// The most bytes of one word of the command line, as Linux has it.
const WORD_LIMIT: usize = 131_072;

// A name of its own for a fault.
fn named(alloc: Global, name: &str) -> Result<String, Fault> {
    match String::from_str(alloc, name) {
        Ok(name) => Ok(name),
        Err(_) => Err(Fault::NoMemory),
    }
}

// A file can't be read.
fn unread(alloc: Global, name: &str, why: Unread) -> Fault {
    match named(alloc, name) {
        Ok(name) => Fault::Read(name, why),
        Err(fault) => fault,
    }
}

// A fault of a line of the script, with what is wrong there; of a run that has stopped, with the
// frames that wait.
fn script_fault(
    alloc: Global,
    asked: Asked<'_>,
    line: usize,
    fault: ScriptFault,
    waiting: Option<Vec<FrameName>>,
) -> Result<Fault, NoMemory> {
    let name = String::from_str(alloc, asked.name)?;
    let explained = explain(alloc, asked.script, line, fault)?;
    match fault {
        ScriptFault::NoModule => {
            let names = String::from_str(alloc, asked.modules)?;
            Ok(Fault::NoModule(name, line, explained, names))
        }
        ScriptFault::NoFrame => {
            // They are missing only where memory was refused.
            let waiting = waiting.ok_or(NoMemory)?;
            Ok(Fault::NoFrame(name, line, explained, waiting))
        }
        _ => {
            let hint = hint_of(&explained, line_at(asked.script, line));
            Ok(Fault::Script(name, line, explained, hint))
        }
    }
}

// A script, its name, and the names of the modules that it is for.
#[derive(Clone, Copy)]
struct Asked<'a> {
    name: &'a str,
    script: &'a [u8],
    modules: &'a str,
}

// What the console says, the frames that wait where a run has stopped, and whether nobody reads the
// transcript any more.
#[derive(Drop)]
struct Stopped {
    fault: ConsoleFault,
    waiting: Option<Vec<FrameName>>,
    is_unwanted: bool,
}

impl From<NoMemory> for Stopped {
    fn from(_refused: NoMemory) -> Stopped {
        Stopped {
            fault: ConsoleFault::NoMemory,
            waiting: None,
            is_unwanted: false,
        }
    }
}

// What the console says, with the name of the script, and of a line what is wrong there.
fn fault_of(alloc: Global, asked: Asked<'_>, stopped: Stopped) -> Fault {
    let waiting = stopped.waiting;
    let is_unwanted = stopped.is_unwanted;
    match stopped.fault {
        ConsoleFault::Script(line, fault) => {
            match script_fault(alloc, asked, line, fault, waiting) {
                Ok(fault) => fault,
                Err(NoMemory) => Fault::NoMemory,
            }
        }
        ConsoleFault::Read => unread(alloc, asked.name, Unread::Failed),
        ConsoleFault::Write if is_unwanted => Fault::Unwanted,
        ConsoleFault::Write => Fault::Console(ConsoleFault::Write),
        ConsoleFault::NoMemory => Fault::NoMemory,
        ConsoleFault::New(fault) => Fault::Console(ConsoleFault::New(fault)),
        ConsoleFault::Run(fault) => Fault::Console(ConsoleFault::Run(fault)),
    }
}

// The words of the command line can't be had: there is no memory, or one of them is no text.
fn words_fault(rt: &HostRuntime, alloc: Global) -> Fault {
    let Ok(mut word) = Vec::from_elem(alloc, 0u8, WORD_LIMIT) else {
        return Fault::NoMemory;
    };
    for i in 0..usize::MAX {
        let Ok(count) = rt.arg(i, word.as_mut_slice()) else {
            return Fault::NoMemory;
        };
        if std::str::from_utf8(&word[..count]).is_err() {
            return Fault::Argument(i);
        }
    }
    Fault::NoMemory
}

fn usage_fault(alloc: Global, words: &[String]) -> Fault {
    match explain_options(alloc, words) {
        Ok(text) => Fault::Usage(text),
        Err(NoMemory) => Fault::NoMemory,
    }
}

// The words after the program's name.
fn options(rt: &HostRuntime, alloc: Global) -> Result<Options, Fault> {
    let Ok(args) = env::args(rt) else {
        return Err(words_fault(rt, alloc));
    };
    let mut words = Vec::new(alloc);
    for word in args.skip(1) {
        if words.push(word).is_err() {
            return Err(Fault::NoMemory);
        }
    }
    match read_options(alloc, words.as_slice()) {
        Ok(options) => Ok(options),
        Err(OptionsFault::Usage(Usage::Wrong)) => Err(usage_fault(alloc, words.as_slice())),
        Err(fault) => Err(Fault::Options(fault)),
    }
}

fn open(rt: &HostRuntime, alloc: Global, path: &str) -> Result<File, Fault> {
    match File::open(rt, path) {
        Ok(file) => Ok(file),
        Err(error) => Err(unread(alloc, path, unread_by(path, &error))),
    }
}

// All that a reader gives, at most as many bytes as a script may have.
fn bytes_of<R: Read>(alloc: Global, name: &str, reader: &mut Noted<R>) -> Result<Vec<u8>, Fault> {
    match read_script(alloc, reader) {
        Ok(bytes) => Ok(bytes),
        Err(ReadFault::NoMemory) => Err(Fault::NoMemory),
        Err(ReadFault::TooLong) => Err(unread(alloc, name, Unread::TooLong)),
        Err(ReadFault::Failed) if reader.is_directory => {
            Err(unread(alloc, name, Unread::Directory))
        }
        Err(ReadFault::Failed) => Err(unread(alloc, name, Unread::Failed)),
    }
}

fn bytes_at(rt: &HostRuntime, alloc: Global, path: &str) -> Result<Vec<u8>, Fault> {
    let mut file = Noted::of(open(rt, alloc, path)?);
    bytes_of(alloc, path, &mut file)
}

// What is told of a text of this name that is no topology.
fn refused(alloc: Global, name: &str, text: &str, fault: &LoadFault) -> Result<Topology, Fault> {
    if let LoadFault::NoMemory = fault {
        return Err(Fault::NoMemory);
    }
    Err(Fault::Topology(explain_file(alloc, name, text, fault)?))
}

// The topology of a text of this name.
fn loaded(alloc: Global, name: &str, text: &str) -> Result<Topology, Fault> {
    match load(alloc, text) {
        Ok(topology) => Ok(topology),
        Err(fault) => {
            let result = refused(alloc, name, text, &fault);
            // (one place to give it up is one to prove)
            drop(fault);
            result
        }
    }
}

// The topology of a file.
fn topology_at(rt: &HostRuntime, alloc: Global, path: &str) -> Result<Topology, Fault> {
    let bytes = bytes_at(rt, alloc, path)?;
    match text_of(bytes.as_slice()) {
        Ok(text) => loaded(alloc, path, text),
        Err(fault) => Err(Fault::NotText(named(alloc, path)?, fault)),
    }
}

fn topology(rt: &HostRuntime, alloc: Global, options: &Options) -> Result<Topology, Fault> {
    match &options.topology {
        Some(path) => topology_at(rt, alloc, path.as_str()),
        None => loaded(alloc, "the chassis", CHASSIS),
    }
}

// The file of the script; None where it is the standard input, which a dash names too.
fn script_path(options: &Options) -> Option<&str> {
    match &options.script {
        Some(path) if path.as_str() != "-" => Some(path.as_str()),
        _ => None,
    }
}

// The name of the script, as faults have it.
fn script_name(options: &Options) -> &str {
    script_path(options).unwrap_or("<stdin>")
}

fn script(rt: &HostRuntime, alloc: Global, options: &Options) -> Result<Vec<u8>, Fault> {
    match script_path(options) {
        Some(path) => bytes_at(rt, alloc, path),
        None => {
            if rt.stdin().is_terminal() {
                let _ = eprintln!(rt; "cipbridge: the script is read from the terminal, to Ctrl-D");
            }
            let mut input = Noted::of(rt.reader());
            bytes_of(alloc, script_name(options), &mut input)
        }
    }
}

// Runs a script over modules of a topology, and writes the transcript to the standard output.
fn play_over<T: Threads + Wait + Sync>(
    rt: &HostRuntime,
    workers: &T,
    options: &Options,
    script: &[u8],
    topology: Topology,
    modules: Vec<Box<dyn Module + Send>>,
) -> Result<(), Stopped> {
    let alloc = rt.alloc();
    let mut reader = Script { rest: script };
    let out = NotedOut::of(io::writer(rt));
    let mut writer = Watched::of(out, Terminal::new(rt));
    let result = if options.threads {
        run_live(
            workers,
            alloc,
            &mut reader,
            &mut writer,
            topology,
            modules,
            options.turns as usize,
            &OpenGate,
        )
    } else {
        run(alloc, &mut reader, &mut writer, topology, modules)
    };
    writer.clear();
    match result {
        Ok(()) => Ok(()),
        Err(fault) => Err(Stopped {
            fault,
            waiting: writer.take_waiting(),
            is_unwanted: writer.inner.is_unwanted,
        }),
    }
}

// Makes the modules of a topology, each in its box, and runs a script over them.
fn play<T: Threads + Wait + Sync>(
    rt: &HostRuntime,
    workers: &T,
    options: &Options,
    script: &[u8],
    topology: Topology,
) -> Result<(), Stopped> {
    let alloc = rt.alloc();
    let made = new_modules(alloc, topology.configs())?;
    let mut modules: Vec<Box<dyn Module + Send>> = Vec::new(alloc);
    for new in made {
        let pushed = match new {
            NewModule::Plain(module_) => modules.push(module_),
            NewModule::Adapter(module_) => modules.push(module_),
            NewModule::Indexed(module_) => modules.push(module_),
        };
        if pushed.is_err() {
            return Err(Stopped::from(NoMemory));
        }
    }
    play_over(rt, workers, options, script, topology, modules)
}

// What the program does once it knows what is asked for.
fn run_with<T: Threads + Wait + Sync>(
    rt: &HostRuntime,
    workers: &T,
    options: &Options,
) -> Result<(), Fault> {
    let alloc = rt.alloc();
    let topology = topology(rt, alloc, options)?;
    let script = script(rt, alloc, options)?;
    let modules = module_names(alloc, &topology)?;
    match play(rt, workers, options, script.as_slice(), topology) {
        Ok(()) => Ok(()),
        Err(fault) => {
            let asked = Asked {
                name: script_name(options),
                script: script.as_slice(),
                modules: modules.as_str(),
            };
            Err(fault_of(alloc, asked, fault))
        }
    }
}

// A text that was asked for goes to the standard output.
fn say(rt: &HostRuntime, asked: Usage) -> Result<(), Fault> {
    match println!(rt; "{asked}") {
        Ok(()) => Ok(()),
        Err(error) if error.kind() == ErrorKind::BrokenPipe => Err(Fault::Unwanted),
        Err(_) => Err(Fault::Say),
    }
}

/// The whole program, but for what it says of a fault and for its exit status. `workers` is the
/// same runtime, as what can start threads.
pub fn run_program<T: Threads + Wait + Sync>(rt: &HostRuntime, workers: &T) -> Result<(), Fault> {
    match options(rt, rt.alloc()) {
        Ok(options) => run_with(rt, workers, &options),
        Err(Fault::Options(OptionsFault::Usage(Usage::Help))) => say(rt, Usage::Help),
        Err(Fault::Options(OptionsFault::Usage(Usage::Version))) => say(rt, Usage::Version),
        Err(fault) => Err(fault),
    }
}
