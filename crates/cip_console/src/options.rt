//! The options of the program.
ghost use Rattle.std.specs.Prelude.{◌≡◌, ◌≤◌, IfOk};
ghost use Rattle.cip_console.specs.declared.options.OptionsFault.TheVariants.{NoMemory as Refused};

use cip_base::NoMemory;
use clap::error::ErrorKind;
use clap::{Arg, ArgAction, ArgMatches, Command, value_parser};
use std::alloc::{AllocError, Global};
use thiserror::Error;

/// What the program is asked for: a topology file and a script, or the chassis and the standard
/// input in their place; whether each module has a thread of its own; and how many steps these may
/// take together.
#[derive(Debug, Drop)]
pub struct Options {
    pub topology: Option<String>,
    pub script: Option<String>,
    pub threads: bool,
    pub turns: u32,
}

/// What words that ask for no run ask for.
#[derive(Clone, Copy, Debug, PartialEq, Eq, Error)]
pub enum Usage {
    /// Nothing that the program has: a word is none of its options, or its value is no such value.
    #[error("usage: cipbridge [--topology FILE] [--script FILE] [--threads] [--turns N]; \
        `cipbridge --help` says more")]
    Wrong,
    /// What the program does.
    #[error("{HELP}")]
    Help,
    /// Which program this is.
    #[error("cipbridge {VERSION}")]
    Version,
}

/// Why there are no options.
#[derive(Clone, Copy, Debug, PartialEq, Eq, Error)]
pub enum OptionsFault {
    /// The words ask for no run.
    #[error("{0}")]
    Usage(Usage),
    /// An allocation was refused.
    #[error("out of memory")]
    NoMemory,
}

impl From<AllocError> for OptionsFault {
    ghost from_gives = { λ _ fault. fault ≡ Refused };

    fn from(_refused: AllocError) -> OptionsFault {
        OptionsFault::NoMemory
    }
}

/// The program's version.
pub const VERSION: &str = "0.1.0";

/// What the program does, and its options.
pub const HELP: &str = "\
cipbridge runs a script over the modules of a CIP chassis and prints each hop of each message.

usage: cipbridge [--topology FILE] [--script FILE] [--threads] [--turns N]

  --topology FILE   the links and modules, as TOML; without it a chassis of a scanner S,
                    bridges A and B, and an adapter E
  --script FILE     the commands, ticks, deliveries and losses, a line each; without it the
                    standard input
  --threads         each module on a thread of its own: the script has commands and ticks alone
  --turns N         with --threads: end after N events, 1 to 1000000; without it after 100000
  -h, --help        this text
  -V, --version     the version

exit status: 0 done, 1 a faulty script, a frame that does not wait or a full clock, 2 wrong
options, 3 a faulty topology, 4 a file that can't be read, output that can't be written or no
thread, 5 no memory, 6 a thread that differs from the journal";

/// The greatest number of turns.
pub const MOST_TURNS: u32 = 1_000_000;

/// The number of turns where none is asked for.
pub const DEFAULT_TURNS: u32 = 100_000;

// An option with a value behind it.
fn value_arg<'a>(alloc: Global, name: &'a str) -> Arg<'a> {
    Arg::new(alloc, name).long(name).action(ArgAction::Set)
}

fn threads_arg<'a>(alloc: Global) -> Arg<'a> {
    Arg::new(alloc, "threads")
        .long("threads")
        .action(ArgAction::SetTrue)
}

fn turns_arg<'a>(alloc: Global) -> Arg<'a> {
    value_arg(alloc, "turns").value_parser(value_parser!(u32))
}

fn command<'a>(alloc: Global) -> Result<Command<'a>, AllocError> {
    Command::new(alloc, "cipbridge")
        .version(VERSION)
        .no_binary_name(true)
        .arg(value_arg(alloc, "topology"))?
        .arg(value_arg(alloc, "script"))?
        .arg(threads_arg(alloc))?
        .arg(turns_arg(alloc))
}

fn text_at(
    alloc: Global,
    matches: &ArgMatches<'_>,
    id: &str,
) -> Result<Option<String>, AllocError> {
    match matches.get_str(id) {
        Some(text) => Ok(Some(String::from_str(alloc, text)?)),
        None => Ok(None),
    }
}

// The number of turns: the one that is asked for, where it is in its range.
fn turns_at(matches: &ArgMatches<'_>) -> Result<u32, OptionsFault>
    ensures { IfOk result (λ turns. (1 ≤ turns) × (turns ≤ MOST_TURNS)) }
{
    if matches.get_str("turns").is_none() {
        return Ok(DEFAULT_TURNS);
    }
    match matches.get_one::<u32>("turns") {
        Some(turns) if 1 <= turns && turns <= MOST_TURNS => Ok(turns),
        _ => Err(OptionsFault::Usage(Usage::Wrong)),
    }
}

fn fault_of(error: &clap::Error) -> OptionsFault {
    match error.kind() {
        ErrorKind::OutOfMemory => OptionsFault::NoMemory,
        ErrorKind::DisplayHelp => OptionsFault::Usage(Usage::Help),
        ErrorKind::DisplayVersion => OptionsFault::Usage(Usage::Version),
        _ => OptionsFault::Usage(Usage::Wrong),
    }
}

// What the parser says before its usage, in one line and without the word `error` in front.
fn said(alloc: Global, error: &clap::Error) -> Result<String, AllocError> {
    let mut whole = String::new(alloc);
    write!(whole, "{error}")?;
    let mut text = String::new(alloc);
    for line in whole.as_str().lines() {
        if line.is_empty() {
            break;
        }
        if !text.is_empty() {
            text.push_str(" ")?;
        }
        text.push_str(line.trim())?;
    }
    let said = text.as_str();
    String::from_str(alloc, said.strip_prefix("error: ").unwrap_or(said))
}

/// What is wrong with words that `read_options` refuses as Wrong: the word, and why. NoMemory where
/// an allocation is refused.
pub fn explain_options(alloc: Global, words: &[String]) -> Result<String, NoMemory> {
    match command(alloc)?.try_get_matches_from(words) {
        Ok(matches) => {
            let turns = matches.get_str("turns").unwrap_or("");
            let mut text = String::new(alloc);
            write!(text, "--turns: {turns:?} is none of 1 to {MOST_TURNS}")?;
            Ok(text)
        }
        Err(error) => match error.kind() {
            ErrorKind::OutOfMemory => Err(NoMemory),
            _ => Ok(said(alloc, &error)?),
        },
    }
}

fn options_of(alloc: Global, matches: &ArgMatches<'_>) -> Result<Options, OptionsFault>
    ensures { IfOk result (λ options. (1 ≤ options.turns) × (options.turns ≤ MOST_TURNS)) }
{
    let turns = turns_at(matches)?;
    let topology = text_at(alloc, matches, "topology")?;
    let script = text_at(alloc, matches, "script")?;
    Ok(Options {
        topology,
        script,
        threads: matches.get_flag("threads"),
        turns,
    })
}

/// Reads the words after the program's name: `--topology FILE`, `--script FILE`, `--threads` and
/// `--turns N`, each at most once, and `--help` and `--version`. N is 1 to 1,000,000, and 100,000
/// where it is not given; it means nothing without `--threads`. Usage where they ask for no run:
/// Help and Version are asked for by name, every other word is Wrong. NoMemory where an allocation
/// is refused.
pub fn read_options(alloc: Global, words: &[String]) -> Result<Options, OptionsFault>
    ensures { IfOk result (λ options. (1 ≤ options.turns) × (options.turns ≤ MOST_TURNS)) }
{
    match command(alloc)?.try_get_matches_from(words) {
        Ok(matches) => options_of(alloc, &matches),
        Err(error) => Err(fault_of(&error)),
    }
}
