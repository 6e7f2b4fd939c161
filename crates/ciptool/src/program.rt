//! What the program does: it reads its options, and writes the answer.

use crate::fault::Fault;
use crate::files::{bytes_at, told_name};
use crate::noted::NotedOut;
use crate::options::{HELP, OptionsFault, Question, Task, VERSION, read_task};
use crate::rooms::{RoomsFault, small_rooms};
use cip_base::NoMemory;
use cip_check::{Escaped, Report, check, explain_load, text_of};
use cip_console::{ConsoleFault, Script, run};
use cip_indexed::{NewModule, new_modules};
use cip_module::Module;
use cip_open::Params;
use cip_script::explain;
use cip_tool::{AnswerFault, params_answer, params_of, path_answer, size_of, status_answer};
use cip_topology::{CHASSIS, LoadFault, Topology, load};
use cip_wide::{LineFault, WideFault, narrow};
use std::alloc::{AllocError, Global};
use std::env::Env;
use std::io::ErrorKind;
use std::{env, io};

// The most bytes of one word of the command line, as Linux has it.
const WORD_LIMIT: usize = 131_072;

// The words of the command line can't be had: there is no memory, or one of them is no text.
fn words_fault(rt: &HostRuntime, alloc: Global) -> Fault {
    let Ok(mut word) = Vec::from_elem(alloc, 0u8, WORD_LIMIT) else {
        return Fault::NoMemory;
    };
    for i in 0..usize::MAX {
        let Ok(count) = rt.arg(i, word.as_mut_slice()) else {
            return Fault::NoMemory;
        };
        if std::str::from_utf8(&word[..count]).is_err() {
            return Fault::Argument(i);
        }
    }
    Fault::NoMemory
}

// The words after the program's name.
fn words(rt: &HostRuntime, alloc: Global) -> Result<Vec<String>, Fault> {
    let Ok(args) = env::args(rt) else {
        return Err(words_fault(rt, alloc));
    };
    let mut words = Vec::new(alloc);
    for word in args.skip(1) {
        if words.push(word).is_err() {
            return Err(Fault::NoMemory);
        }
    }
    Ok(words)
}

// The standard output can't be written.
fn unwritten(error: &io::Error) -> Fault {
    match error.kind() {
        ErrorKind::BrokenPipe => Fault::Unwanted,
        _ => Fault::Write,
    }
}

fn say(rt: &HostRuntime, text: &str) -> Result<(), Fault> {
    match println!(rt; "{text}") {
        Ok(()) => Ok(()),
        Err(error) => Err(unwritten(&error)),
    }
}

fn say_version(rt: &HostRuntime) -> Result<(), Fault> {
    match println!(rt; "ciptool {VERSION}") {
        Ok(()) => Ok(()),
        Err(error) => Err(unwritten(&error)),
    }
}

// The lines of a report, each behind a name.
fn say_lines(rt: &HostRuntime, name: &str, between: &str, report: &Report) -> Result<(), Fault> {
    let name = Escaped(name);
    for line in report.lines() {
        if let Err(error) = println!(rt; "{name}:{between}{line}") {
            return Err(unwritten(&error));
        }
    }
    Ok(())
}

// New modules, each in its box. A function that made boxes of any module and handed them out could
// not say what is in them.
macro_rules! boxes {
    ($alloc:expr, $made:expr, $refused:expr) => {{
        let mut modules: Vec<Box<dyn Module + Send>> = Vec::new($alloc);
        for new in $made {
            let pushed = match new {
                NewModule::Plain(module_) => modules.push(module_),
                NewModule::Adapter(module_) => modules.push(module_),
                NewModule::Indexed(module_) => modules.push(module_),
            };
            if pushed.is_err() {
                return Err($refused);
            }
        }
        modules
    }};
}

fn rooms_of(alloc: Global, text: &str, script: &[u8]) -> Result<Report, RoomsFault> {
    let Some(topology) = load(alloc, text).ok() else {
        return Err(RoomsFault::NoMemory);
    };
    let made = new_modules(alloc, topology.configs())?;
    let modules = boxes!(alloc, made, RoomsFault::NoMemory);
    small_rooms(alloc, topology, modules, script)
}

// Tells of the rooms that are too small for a script, and how many they are.
fn check_script(rt: &HostRuntime, alloc: Global, text: &str, name: &str) -> Result<usize, Fault> {
    let script = bytes_at(rt, alloc, name)?;
    match rooms_of(alloc, text, script.as_slice()) {
        Ok(report) => {
            say_lines(rt, told_name(name), "", &report)?;
            Ok(report.faults())
        }
        Err(RoomsFault::Script(line, fault)) => {
            let explained = explain(alloc, script.as_slice(), line, fault)?;
            let name = String::from_str(alloc, told_name(name))?;
            Err(Fault::Script(name, line, explained))
        }
        Err(RoomsFault::NoMemory) => Err(Fault::NoMemory),
    }
}

// The same of all scripts.
fn check_scripts(
    rt: &HostRuntime,
    alloc: Global,
    text: &str,
    scripts: &[&str],
) -> Result<usize, Fault> {
    let mut count = 0usize;
    for name in scripts {
        count = count.saturating_add(check_script(rt, alloc, text, name)?);
    }
    Ok(count)
}

// Tells what is wrong with a topology file of this name, and, where nothing is, what with its
// rooms.
fn check_text(
    rt: &HostRuntime,
    alloc: Global,
    name: &str,
    text: &str,
    scripts: &[&str],
) -> Result<(), Fault> {
    let Ok(report) = check(alloc, text) else {
        return Err(Fault::NoMemory);
    };
    say_lines(rt, name, " ", &report)?;
    let count = match report.faults() {
        0 => check_scripts(rt, alloc, text, scripts)?,
        count => count,
    };
    match count {
        0 => Ok(()),
        count => Err(Fault::Faults(String::from_str(alloc, name)?, count)),
    }
}

// Checks a topology file, over scripts.
fn check_file(rt: &HostRuntime, alloc: Global, name: &str, scripts: &[&str]) -> Result<(), Fault> {
    let bytes = bytes_at(rt, alloc, name)?;
    let name = told_name(name);
    match text_of(bytes.as_slice()) {
        Ok(text) => check_text(rt, alloc, name, text, scripts),
        Err(fault) => Err(Fault::NotText(String::from_str(alloc, name)?, fault)),
    }
}

// What is told of a text of this name that is no topology.
fn refused(alloc: Global, name: &str, text: &str, fault: &LoadFault) -> Result<Topology, Fault> {
    if let LoadFault::NoMemory = fault {
        return Err(Fault::NoMemory);
    }
    let told = explain_load(alloc, text, fault)?;
    Err(Fault::Topology(String::from_str(alloc, name)?, told))
}

// The topology of a text of this name.
fn loaded(alloc: Global, name: &str, text: &str) -> Result<Topology, Fault> {
    match load(alloc, text) {
        Ok(topology) => Ok(topology),
        Err(fault) => {
            let result = refused(alloc, name, text, &fault);
            // (one place to give it up is one to prove)
            drop(fault);
            result
        }
    }
}

// The topology of a file.
fn topology_at(rt: &HostRuntime, alloc: Global, name: &str) -> Result<Topology, Fault> {
    let bytes = bytes_at(rt, alloc, name)?;
    let name = told_name(name);
    match text_of(bytes.as_slice()) {
        Ok(text) => loaded(alloc, name, text),
        Err(fault) => Err(Fault::NotText(String::from_str(alloc, name)?, fault)),
    }
}

// The same, or the chassis where none is named.
fn topology_of(rt: &HostRuntime, alloc: Global, name: Option<&str>) -> Result<Topology, Fault> {
    match name {
        Some(name) => topology_at(rt, alloc, name),
        None => loaded(alloc, "the chassis", CHASSIS),
    }
}

// The script that a wide script over new modules of a topology is.
fn narrow_over(alloc: Global, topology: Topology, wide: &[u8]) -> Result<String, WideFault> {
    let made = new_modules(alloc, topology.configs())?;
    let modules = boxes!(alloc, made, WideFault::NoMemory);
    narrow(alloc, topology, modules, wide)
}

// What is told of a line of a wide script.
fn line_told(
    alloc: Global,
    name: &str,
    line: usize,
    fault: &LineFault,
) -> Result<String, AllocError> {
    let mut text = String::new(alloc);
    write!(text, "{}:{line}: {fault}", Escaped(name))?;
    Ok(text)
}

// What is told of a wide script of this name that has no script.
fn told_of(alloc: Global, name: &str, fault: &WideFault) -> Fault {
    match fault {
        WideFault::NoMemory => Fault::NoMemory,
        WideFault::Line(line, fault) => match line_told(alloc, name, *line, fault) {
            Ok(text) => Fault::Line(text),
            Err(_) => Fault::NoMemory,
        },
    }
}

// The script that a wide script of a file, or of the standard input, is.
fn narrowed(
    rt: &HostRuntime,
    alloc: Global,
    topology: Topology,
    script: Option<&str>,
) -> Result<String, Fault> {
    // (the standard input where none is named)
    let name = script.unwrap_or("-");
    let bytes = bytes_at(rt, alloc, name)?;
    match narrow_over(alloc, topology, bytes.as_slice()) {
        Ok(text) => Ok(text),
        Err(fault) => {
            let told = told_of(alloc, told_name(name), &fault);
            // (one place to give it up is one to prove)
            drop(fault);
            Err(told)
        }
    }
}

// Writes the script that a wide script is.
fn narrow_file(
    rt: &HostRuntime,
    alloc: Global,
    topology: Option<&str>,
    script: Option<&str>,
) -> Result<(), Fault> {
    let topology = topology_of(rt, alloc, topology)?;
    let text = narrowed(rt, alloc, topology, script)?;
    match print!(rt; "{text}") {
        Ok(()) => Ok(()),
        Err(error) => Err(unwritten(&error)),
    }
}

// What the console says, and whether nobody reads the transcript any more.
#[derive(Drop)]
struct Stopped {
    fault: ConsoleFault,
    is_unwanted: bool,
}

impl From<NoMemory> for Stopped {
    fn from(_refused: NoMemory) -> Stopped {
        Stopped {
            fault: ConsoleFault::NoMemory,
            is_unwanted: false,
        }
    }
}

// Runs a script over new modules of a topology, and writes the transcript.
fn run_over(
    rt: &HostRuntime,
    alloc: Global,
    topology: Topology,
    script: &str,
) -> Result<(), Stopped> {
    let made = new_modules(alloc, topology.configs())?;
    let modules = boxes!(alloc, made, Stopped::from(NoMemory));
    let mut reader = Script {
        rest: script.as_bytes(),
    };
    let mut writer = NotedOut::of(io::writer(rt));
    match run(alloc, &mut reader, &mut writer, topology, modules) {
        Ok(()) => Ok(()),
        Err(fault) => Err(Stopped {
            fault,
            is_unwanted: writer.is_unwanted,
        }),
    }
}

// What is told of a run that has stopped.
fn stopped_by(stopped: Stopped) -> Fault {
    let is_unwanted = stopped.is_unwanted;
    match stopped.fault {
        ConsoleFault::NoMemory => Fault::NoMemory,
        ConsoleFault::Write if is_unwanted => Fault::Unwanted,
        fault => Fault::Console(fault),
    }
}

// Writes the transcript of the script that a wide script is.
fn play_file(
    rt: &HostRuntime,
    alloc: Global,
    topology: Option<&str>,
    script: Option<&str>,
) -> Result<(), Fault> {
    let topology = topology_of(rt, alloc, topology)?;
    let again = topology.copy(alloc)?;
    let text = narrowed(rt, alloc, topology, script)?;
    match run_over(rt, alloc, again, text.as_str()) {
        Ok(()) => Ok(()),
        Err(stopped) => Err(stopped_by(stopped)),
    }
}

// The answer to what needs no file.
fn answer_to(alloc: Global, question: Question<'_>) -> Result<String, AnswerFault> {
    match question {
        Question::Path(text) => path_answer(alloc, text),
        Question::ReadParams { large, word } => params_answer(alloc, large, word),
        Question::WriteParams {
            large,
            size,
            variable,
            priority,
            kind,
            redundant,
        } => {
            let params = Params {
                size: size_of(alloc, size)?,
                variable,
                priority,
                kind,
                redundant,
            };
            params_of(alloc, large, &params)
        }
        Question::Status(general, additional) => status_answer(alloc, general, additional),
    }
}

fn say_answer(rt: &HostRuntime, alloc: Global, question: Question<'_>) -> Result<(), Fault> {
    let text = answer_to(alloc, question)?;
    say(rt, text.as_str())
}

fn answer(rt: &HostRuntime, alloc: Global, task: &Task<'_>) -> Result<(), Fault> {
    match task {
        Task::Help => say(rt, HELP),
        Task::Version => say_version(rt),
        Task::Question(question) => say_answer(rt, alloc, *question),
        Task::Check { topology, scripts } => check_file(rt, alloc, topology, scripts.as_slice()),
        Task::Script { topology, script } => narrow_file(rt, alloc, *topology, *script),
        Task::Play { topology, script } => play_file(rt, alloc, *topology, *script),
    }
}

// The program, called with these words.
fn run_words(rt: &HostRuntime, alloc: Global, words: &[String]) -> Result<(), Fault> {
    match read_task(alloc, words) {
        Ok(task) => answer(rt, alloc, &task),
        Err(OptionsFault::Wrong(text)) => Err(Fault::Usage(text)),
        Err(OptionsFault::NoMemory) => Err(Fault::NoMemory),
    }
}

/// The whole program, but for what it says of a fault and for its exit status.
pub fn run_program(rt: &HostRuntime) -> Result<(), Fault> {
    let alloc = rt.alloc();
    let words = words(rt, alloc)?;
    run_words(rt, alloc, words.as_slice())
}
