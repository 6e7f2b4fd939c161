//! The options of the program.

use crate::files::is_input;
use cip_open::{ConnectionKind, Priority};
use cip_tool::priority_named;
use clap::error::ErrorKind;
use clap::{Arg, ArgAction, ArgMatches, Command};
use std::alloc::{AllocError, Global};

/// What is asked for that needs no file.
#[derive(Clone, Copy)]
pub enum Question<'a> {
    /// A path, in words or in hexadecimal.
    Path(&'a str),
    /// Network connection parameters, as a number.
    ReadParams {
        large: bool,
        word: &'a str,
    },
    /// Network connection parameters, by their parts.
    WriteParams {
        large: bool,
        size: &'a str,
        variable: bool,
        priority: Priority,
        kind: ConnectionKind,
        redundant: bool,
    },
    /// A general status, and perhaps an additional one.
    Status(&'a str, Option<&'a str>),
}

/// What the program is asked for, in the words of its command line.
#[derive(Drop)]
pub enum Task<'a> {
    Help,
    Version,
    Question(Question<'a>),
    /// A topology file, and scripts for it.
    Check {
        topology: &'a str,
        scripts: Vec<&'a str>,
    },
    /// A wide script, the standard input where no file is named, over the topology of a file: the
    /// script that it is.
    Script {
        topology: Option<&'a str>,
        script: Option<&'a str>,
    },
    /// The same, and the transcript of that script.
    Play {
        topology: Option<&'a str>,
        script: Option<&'a str>,
    },
}

/// Why there is no task.
#[derive(Drop)]
pub enum OptionsFault {
    /// What is wrong with the words.
    Wrong(String),
    NoMemory,
}

impl From<AllocError> for OptionsFault {
    fn from(_refused: AllocError) -> OptionsFault {
        OptionsFault::NoMemory
    }
}

/// The program's version.
pub const VERSION: &str = "0.1.0";

/// How the program is called.
pub const USAGE: &str = "\
usage: ciptool path PATH
       ciptool params [--large] NUMBER
       ciptool params [--large] --size SIZE TYPE [--priority PRIORITY] [--variable] [--redundant]
       ciptool status GENERAL [ADDITIONAL]
       ciptool check FILE [SCRIPT ..]
       ciptool script [--topology FILE] [FILE]
       ciptool play [--topology FILE] [FILE]
`ciptool --help` says more";

/// What the program does, and its options.
pub const HELP: &str = "\
ciptool answers what one asks beside a run of cipbridge.

usage: ciptool path PATH
       ciptool params [--large] NUMBER
       ciptool params [--large] --size SIZE TYPE [--priority PRIORITY] [--variable] [--redundant]
       ciptool status GENERAL [ADDITIONAL]
       ciptool check FILE [SCRIPT ..]
       ciptool script [--topology FILE] [FILE]
       ciptool play [--topology FILE] [FILE]

  path     a path in words as hexadecimal, in its shortest spelling; or a path in hexadecimal
           in words
             2,192.168.1.5,1,3       hops: a port (or backplane, enet) and an address
             @1/1/7                  class, instance, attribute
             point=101               instance=, attribute=, member=, point=, inhibit=, key=,
                                     data=, symbol=
             -                       the empty path
  params   network connection parameters by their parts, or by the number; with --large those
           of a Large_Forward_Open
             TYPE                    --point-to-point, --multicast, --null or --reserved
             PRIORITY                low, high, scheduled or urgent; without it low
  status   the name of a status of a reply: GENERAL, or ADDITIONAL behind 01
  check    every fault of a topology file, keys that mean nothing, and modules that no path
           reaches; and rooms that are too small for the scripts
  script   a wide script, a FILE or the standard input, as a script for cipbridge: names for
           ops, paths in words, counts that go on, cut and pass for what waits on a link, down
           and up for outages, tickall, repeat, expect; over the topology of a file, or the
           chassis that cipbridge has without one
  play     a wide script likewise, played: the transcript that cipbridge writes of the script
  -h, --help      this text
  -V, --version   the version

A number is decimal, or hexadecimal behind 0x. In place of a FILE or a SCRIPT a - stands for
the standard input.

exit status: 0 done, 1 there is no answer or a line is faulty or not as expected, 2 wrong
options, 3 a faulty topology, 4 a file that can't be read or output that can't be written, 5 no
memory, 141 nobody reads the output";

// How a word of the command line is taken.
#[derive(Clone, Copy)]
enum Taken {
    // an option without a value
    Flag,
    // an option with a value behind it
    Value,
    // a word by its place, which may be missing, or may not, or perhaps one of many
    Word,
    Needed,
    Many,
}

// A word that a command takes: its name, and how it is taken.
type Taking = (&'static str, Taken);

static PATH: [Taking; 1] = [("PATH", Taken::Needed)];

static PARAMS: [Taking; 10] = [
    ("NUMBER", Taken::Word),
    ("large", Taken::Flag),
    ("size", Taken::Value),
    ("priority", Taken::Value),
    ("point-to-point", Taken::Flag),
    ("multicast", Taken::Flag),
    ("null", Taken::Flag),
    ("reserved", Taken::Flag),
    ("variable", Taken::Flag),
    ("redundant", Taken::Flag),
];

static STATUS: [Taking; 2] = [("GENERAL", Taken::Needed), ("ADDITIONAL", Taken::Word)];

static CHECK: [Taking; 2] = [("FILE", Taken::Needed), ("SCRIPT", Taken::Many)];

// What takes a wide script.
static WIDE: [Taking; 2] = [("topology", Taken::Value), ("FILE", Taken::Word)];

fn arg_of<'a>(alloc: Global, name: &'a str, taken: Taken) -> Arg<'a> {
    let arg = Arg::new(alloc, name);
    match taken {
        Taken::Flag => arg.long(name).action(ArgAction::SetTrue),
        Taken::Value => arg.long(name).action(ArgAction::Set),
        Taken::Word => arg.action(ArgAction::Set),
        Taken::Needed => arg.action(ArgAction::Set).required(true),
        Taken::Many => arg.num_args(0..).action(ArgAction::Append),
    }
}

// The command of a name, which takes these words.
fn taking<'a>(alloc: Global, name: &'a str, words: &[Taking]) -> Result<Command<'a>, AllocError> {
    let mut command = Command::new(alloc, name);
    for (name, taken) in words {
        command = command.arg(arg_of(alloc, name, *taken))?;
    }
    Ok(command)
}

fn command<'a>(alloc: Global) -> Result<Command<'a>, AllocError> {
    let mut command = Command::new(alloc, "ciptool")
        .version(VERSION)
        .no_binary_name(true)
        .disable_help_subcommand(true);
    for (name, words) in [
        ("path", PATH.as_slice()),
        ("params", PARAMS.as_slice()),
        ("status", STATUS.as_slice()),
        ("check", CHECK.as_slice()),
        ("script", WIDE.as_slice()),
        ("play", WIDE.as_slice()),
    ] {
        let own = taking(alloc, name, words)?;
        command = command.subcommand(own)?;
    }
    Ok(command)
}

fn wrong(alloc: Global, text: &str) -> OptionsFault {
    match String::from_str(alloc, text) {
        Ok(text) => OptionsFault::Wrong(text),
        Err(_) => OptionsFault::NoMemory,
    }
}

fn needed_at<'a>(
    alloc: Global,
    matches: &ArgMatches<'a>,
    id: &str,
) -> Result<&'a str, OptionsFault> {
    match matches.get_str(id) {
        Some(text) => Ok(text),
        None => Err(wrong(alloc, "a word is missing")),
    }
}

// The one type that is asked for.
fn kind_at(alloc: Global, matches: &ArgMatches<'_>) -> Result<ConnectionKind, OptionsFault> {
    let point_to_point = matches.get_flag("point-to-point");
    let multicast = matches.get_flag("multicast");
    let null = matches.get_flag("null");
    let reserved = matches.get_flag("reserved");
    match (point_to_point, multicast, null, reserved) {
        (true, false, false, false) => Ok(ConnectionKind::PointToPoint),
        (false, true, false, false) => Ok(ConnectionKind::Multicast),
        (false, false, true, false) => Ok(ConnectionKind::Null),
        (false, false, false, true) => Ok(ConnectionKind::Reserved),
        _ => Err(wrong(
            alloc,
            "params: one type is needed: --point-to-point, --multicast, --null or --reserved",
        )),
    }
}

fn priority_at(alloc: Global, matches: &ArgMatches<'_>) -> Result<Priority, OptionsFault> {
    let Some(name) = matches.get_str("priority") else {
        return Ok(Priority::Low);
    };
    match priority_named(name) {
        Some(priority) => Ok(priority),
        None => Err(wrong(
            alloc,
            "params: --priority is none of low, high, scheduled, urgent",
        )),
    }
}

fn has_parts(matches: &ArgMatches<'_>) -> bool {
    matches.get_str("priority").is_some()
        || matches.get_flag("point-to-point")
        || matches.get_flag("multicast")
        || matches.get_flag("null")
        || matches.get_flag("reserved")
        || matches.get_flag("variable")
        || matches.get_flag("redundant")
}

fn parts_question<'a>(
    alloc: Global,
    matches: &ArgMatches<'a>,
    size: &'a str,
) -> Result<Question<'a>, OptionsFault> {
    Ok(Question::WriteParams {
        large: matches.get_flag("large"),
        size,
        variable: matches.get_flag("variable"),
        priority: priority_at(alloc, matches)?,
        kind: kind_at(alloc, matches)?,
        redundant: matches.get_flag("redundant"),
    })
}

fn params_question<'a>(
    alloc: Global,
    matches: &ArgMatches<'a>,
) -> Result<Question<'a>, OptionsFault> {
    match (matches.get_str("NUMBER"), matches.get_str("size")) {
        (Some(word), None) if !has_parts(matches) => Ok(Question::ReadParams {
            large: matches.get_flag("large"),
            word,
        }),
        (None, Some(size)) => parts_question(alloc, matches, size),
        _ => Err(wrong(alloc, "params: either NUMBER, or --size and a type")),
    }
}

// The standard input is named for two files.
fn named_twice(alloc: Global) -> OptionsFault {
    wrong(
        alloc,
        "two files are the standard input, which is read once; - stands for one of them alone",
    )
}

// How many of the files are the standard input.
fn inputs(topology: &str, scripts: &[&str]) -> usize {
    let mut count = usize::from(is_input(topology));
    for script in scripts {
        count = count.saturating_add(usize::from(is_input(script)));
    }
    count
}

fn check_task<'a>(alloc: Global, matches: &ArgMatches<'a>) -> Result<Task<'a>, OptionsFault> {
    let topology = needed_at(alloc, matches, "FILE")?;
    let scripts = matches.get_raw("SCRIPT").unwrap_or(&[]);
    if inputs(topology, scripts) > 1 {
        return Err(named_twice(alloc));
    }
    let scripts = Vec::from_slice(alloc, scripts)?;
    Ok(Task::Check { topology, scripts })
}

// The topology and the file of a wide script.
fn wide_files<'a>(
    alloc: Global,
    matches: &ArgMatches<'a>,
) -> Result<(Option<&'a str>, Option<&'a str>), OptionsFault> {
    let topology = matches.get_str("topology");
    let script = matches.get_str("FILE");
    if topology.is_some_and(is_input) && script.is_none_or(is_input) {
        return Err(named_twice(alloc));
    }
    Ok((topology, script))
}

fn question_of<'a>(
    alloc: Global,
    name: &str,
    matches: &ArgMatches<'a>,
) -> Result<Question<'a>, OptionsFault> {
    match name {
        "path" => Ok(Question::Path(needed_at(alloc, matches, "PATH")?)),
        "params" => params_question(alloc, matches),
        _ => {
            let general = needed_at(alloc, matches, "GENERAL")?;
            Ok(Question::Status(general, matches.get_str("ADDITIONAL")))
        }
    }
}

fn task_of<'a>(
    alloc: Global,
    name: &str,
    matches: &ArgMatches<'a>,
) -> Result<Task<'a>, OptionsFault> {
    match name {
        "check" => check_task(alloc, matches),
        "script" => {
            let (topology, script) = wide_files(alloc, matches)?;
            Ok(Task::Script { topology, script })
        }
        "play" => {
            let (topology, script) = wide_files(alloc, matches)?;
            Ok(Task::Play { topology, script })
        }
        _ => Ok(Task::Question(question_of(alloc, name, matches)?)),
    }
}

// What the parser says before its usage, in one line and without the word `error` in front.
fn said(alloc: Global, error: &clap::Error) -> Result<OptionsFault, AllocError> {
    let mut whole = String::new(alloc);
    write!(whole, "{error}")?;
    let mut text = String::new(alloc);
    for line in whole.as_str().lines() {
        if line.is_empty() {
            break;
        }
        if !text.is_empty() {
            text.push_str(" ")?;
        }
        text.push_str(line.trim())?;
    }
    let said = text.as_str();
    Ok(wrong(alloc, said.strip_prefix("error: ").unwrap_or(said)))
}

fn task_for<'a>(alloc: Global, error: &clap::Error) -> Result<Task<'a>, OptionsFault> {
    match error.kind() {
        ErrorKind::OutOfMemory => Err(OptionsFault::NoMemory),
        ErrorKind::DisplayHelp => Ok(Task::Help),
        ErrorKind::DisplayVersion => Ok(Task::Version),
        _ => Err(said(alloc, error)?),
    }
}

/// Reads the words after the program's name. Wrong says what is wrong with them; NoMemory where an
/// allocation is refused.
pub fn read_task(alloc: Global, words: &[String]) -> Result<Task<'_>, OptionsFault> {
    match command(alloc)?.try_get_matches_from(words) {
        Ok(matches) => match matches.subcommand() {
            Some((name, matches)) => task_of(alloc, name, matches),
            None => Err(wrong(
                alloc,
                "what is asked for? path, params, status, check, script or play",
            )),
        },
        Err(error) => task_for(alloc, &error),
    }
}
