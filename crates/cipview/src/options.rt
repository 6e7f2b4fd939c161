//! The options of the program.
use cip_base::NoMemory;
use clap::error::ErrorKind;
use clap::{Arg, ArgAction, ArgMatches, Command, value_parser};
use std::alloc::{AllocError, Global};
use thiserror::Error;

/// How the transcript is shown.
#[derive(Clone, Copy, PartialEq, Eq)]
pub enum Shape {
    Text,
    Json,
    Chart,
    Capture,
}

/// What the program is asked for.
#[derive(Drop)]
pub struct Options {
    pub shape: Shape,
    pub topology: Option<String>,
    /// The first and the last entry of a chart.
    pub from: usize,
    pub to: usize,
    /// The modules of a chart; all where there is none.
    pub modules: Vec<String>,
    /// Whether a chart stands on a page.
    pub html: bool,
}

/// What words that ask for no view ask for.
#[derive(Clone, Copy, Debug, Error)]
pub enum Usage {
    /// Nothing that the program has: a word is none of its options, or its value is no such value.
    #[error("usage: cipview text|json|capture|chart [--topology FILE], and of a chart [--from N] \
        [--to N] [--module M].. [--html]; `cipview --help` says more")]
    Wrong,
    /// What the program does.
    #[error("{HELP}")]
    Help,
    /// Which program this is.
    #[error("cipview {VERSION}")]
    Version,
}

/// Why there are no options.
#[derive(Clone, Copy, Debug, Error)]
pub enum OptionsFault {
    /// The words ask for no view.
    #[error("{0}")]
    Usage(Usage),
    /// An allocation was refused.
    #[error("out of memory")]
    NoMemory,
}

impl From<AllocError> for OptionsFault {
    fn from(_refused: AllocError) -> OptionsFault {
        OptionsFault::NoMemory
    }
}

/// The program's version.
pub const VERSION: &str = "0.1.0";

/// What the program does, and its options.
pub const HELP: &str = "\
cipview reads a transcript of cipbridge from the standard input and shows it.

usage: cipview text|json|capture [--topology FILE]
       cipview chart [--topology FILE] [--from N] [--to N] [--module M].. [--html]

  text              the transcript, and below each output what its message says
  json              one JSON object for each entry, with its messages decoded
  capture           a packet for each frame, as a pcapng file
  chart             a sequence chart, as SVG
  --from N --to N   the first and the last entry that the chart shows
  --module M        a module that the chart shows, as often as there are some; without it all
  --html            the chart on a page, with what the messages say
  --topology FILE   the topology of the run, as TOML; without it the chassis of cipbridge
  -h, --help        this text
  -V, --version     the version

exit status: 0 done, 1 a faulty transcript or none, 2 wrong options, 3 a faulty topology, 4
reading or writing failed, 5 out of memory, 141 nobody reads what is shown";

// The words that say how the transcript is shown.
const SHAPES: &[&str] = &["text", "json", "capture", "chart"];

// What is wrong where none of them is given.
const NO_SHAPE: &str = "what is asked for? text, json, capture or chart";

// An option with a value behind it.
fn value_arg<'a>(alloc: Global, name: &'a str) -> Arg<'a> {
    Arg::new(alloc, name).long(name).action(ArgAction::Set)
}

// The word that says how the transcript is shown.
fn shape_arg<'a>(alloc: Global) -> Arg<'a> {
    Arg::new(alloc, "shape")
        .required(true)
        .action(ArgAction::Set)
        .value_parser(SHAPES)
}

// A module, perhaps one of many.
fn module_arg<'a>(alloc: Global) -> Arg<'a> {
    Arg::new(alloc, "module")
        .long("module")
        .action(ArgAction::Append)
}

fn html_arg<'a>(alloc: Global) -> Arg<'a> {
    Arg::new(alloc, "html")
        .long("html")
        .action(ArgAction::SetTrue)
}

fn number_arg<'a>(alloc: Global, name: &'a str) -> Arg<'a> {
    value_arg(alloc, name).value_parser(value_parser!(u64))
}

fn command<'a>(alloc: Global) -> Result<Command<'a>, AllocError> {
    Command::new(alloc, "cipview")
        .version(VERSION)
        .no_binary_name(true)
        .arg(shape_arg(alloc))?
        .arg(value_arg(alloc, "topology"))?
        .arg(number_arg(alloc, "from"))?
        .arg(number_arg(alloc, "to"))?
        .arg(module_arg(alloc))?
        .arg(html_arg(alloc))
}

fn text_at(
    alloc: Global,
    matches: &ArgMatches<'_>,
    id: &str,
) -> Result<Option<String>, AllocError> {
    match matches.get_str(id) {
        Some(text) => Ok(Some(String::from_str(alloc, text)?)),
        None => Ok(None),
    }
}

fn shape_at(matches: &ArgMatches<'_>) -> Result<Shape, OptionsFault> {
    match matches.get_str("shape") {
        Some("text") => Ok(Shape::Text),
        Some("json") => Ok(Shape::Json),
        Some("chart") => Ok(Shape::Chart),
        Some("capture") => Ok(Shape::Capture),
        _ => Err(OptionsFault::Usage(Usage::Wrong)),
    }
}

// A number, or another where none is given.
fn number_at(matches: &ArgMatches<'_>, id: &str, otherwise: usize) -> Result<usize, OptionsFault> {
    if matches.get_str(id).is_none() {
        return Ok(otherwise);
    }
    match matches.get_one::<u64>(id) {
        Some(number) => Ok(number as usize),
        None => Err(OptionsFault::Usage(Usage::Wrong)),
    }
}

fn modules_at(alloc: Global, matches: &ArgMatches<'_>) -> Result<Vec<String>, AllocError> {
    let mut modules = Vec::new(alloc);
    if let Some(names) = matches.get_strs("module") {
        for name in names {
            modules.push(String::from_str(alloc, name)?)?;
        }
    }
    Ok(modules)
}

// An option that is one of charts alone.
fn chart_option(matches: &ArgMatches<'_>) -> Option<&'static str> {
    if matches.get_str("from").is_some() {
        Some("--from")
    } else if matches.get_str("to").is_some() {
        Some("--to")
    } else if matches.get_str("module").is_some() {
        Some("--module")
    } else if matches.get_flag("html") {
        Some("--html")
    } else {
        None
    }
}

fn options_of(alloc: Global, matches: &ArgMatches<'_>) -> Result<Options, OptionsFault> {
    let shape = shape_at(matches)?;
    let from = number_at(matches, "from", 0)?;
    let to = number_at(matches, "to", usize::MAX)?;
    if from > to || (shape != Shape::Chart && chart_option(matches).is_some()) {
        return Err(OptionsFault::Usage(Usage::Wrong));
    }
    let topology = text_at(alloc, matches, "topology")?;
    let modules = modules_at(alloc, matches)?;
    Ok(Options {
        shape,
        topology,
        from,
        to,
        modules,
        html: matches.get_flag("html"),
    })
}

fn fault_of(error: &clap::Error) -> OptionsFault {
    match error.kind() {
        ErrorKind::OutOfMemory => OptionsFault::NoMemory,
        ErrorKind::DisplayHelp => OptionsFault::Usage(Usage::Help),
        ErrorKind::DisplayVersion => OptionsFault::Usage(Usage::Version),
        _ => OptionsFault::Usage(Usage::Wrong),
    }
}

// Of a tip of the parser the nearest word that there is; what else it says is of other programs.
fn add_tip(text: &mut String, tip: &str) -> Result<(), AllocError> {
    let Some(similar) = tip.strip_prefix("a similar ") else {
        return Ok(());
    };
    match similar.split_once("exists: ") {
        Some((_, nearest)) => write!(text, "; the nearest is {nearest}"),
        None => Ok(()),
    }
}

// A line of what the parser says, behind those before it.
fn add_line(text: &mut String, line: &str) -> Result<(), AllocError> {
    if let Some(tip) = line.strip_prefix("tip: ") {
        return add_tip(text, tip);
    }
    if !text.is_empty() && !line.is_empty() {
        text.push_str(" ")?;
    }
    text.push_str(line)
}

// Whether the parser says no more of what is wrong from this line on.
fn is_usage(line: &str) -> bool {
    line.starts_with("Usage:") || line.starts_with("For more information")
}

// What the parser says before its usage, in one line and without the word `error` in front.
fn said(alloc: Global, error: &clap::Error) -> Result<String, AllocError> {
    let mut whole = String::new(alloc);
    write!(whole, "{error}")?;
    let mut text = String::new(alloc);
    for line in whole.as_str().lines() {
        if is_usage(line) {
            break;
        }
        add_line(&mut text, line.trim())?;
    }
    let said = text.as_str();
    String::from_str(alloc, said.strip_prefix("error: ").unwrap_or(said))
}

// What is wrong with words that the parser takes: an option of charts in front of what is none, or
// a first entry behind the last.
fn refused(alloc: Global, matches: &ArgMatches<'_>) -> Result<String, AllocError> {
    let mut text = String::new(alloc);
    let shape = matches.get_str("shape").unwrap_or("");
    match chart_option(matches) {
        Some(option) if shape != "chart" => write!(
            text,
            "{option}: of a chart alone, not of {shape}"
        )?,
        _ => {
            let from = matches.get_str("from").unwrap_or("");
            let to = matches.get_str("to").unwrap_or("");
            write!(text, "--from {from} is above --to {to}")?
        }
    }
    Ok(text)
}

/// What is wrong with words that `read_options` refuses as Wrong: the word, why, and the nearest
/// that there is, if one is near. NoMemory where an allocation is refused.
pub fn explain_options(alloc: Global, words: &[String]) -> Result<String, NoMemory> {
    match command(alloc)?.try_get_matches_from(words) {
        Ok(matches) => Ok(refused(alloc, &matches)?),
        Err(error) => match error.kind() {
            ErrorKind::OutOfMemory => Err(NoMemory),
            ErrorKind::MissingRequiredArgument => Ok(String::from_str(alloc, NO_SHAPE)?),
            _ => Ok(said(alloc, &error)?),
        },
    }
}

/// Reads the words after the program's name. Usage where they ask for no view: Help and Version are
/// asked for by name, every other word is Wrong. NoMemory where an allocation is refused.
pub fn read_options(alloc: Global, words: &[String]) -> Result<Options, OptionsFault> {
    match command(alloc)?.try_get_matches_from(words) {
        Ok(matches) => options_of(alloc, &matches),
        Err(error) => Err(fault_of(&error)),
    }
}
