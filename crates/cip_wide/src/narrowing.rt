//! A wide script, played, and the script that it is.

ghost use Rattle.std.specs.Prelude.{◌≤◌, IfOk, string_len};
ghost use Rattle.std.specs.Str.{IsAscii};

use crate::blocks::{Turn, after_end, check_blocks, count_of, is_end};
use crate::expecting::expect;
use crate::fault::{
    LineError, LineFault, WideFault, WordFault, unknown_word, wrong_count, wrong_word,
};
use crate::lines::{Line, first_not_ascii, lines_of};
use crate::links::{frames_at, side_of};
use crate::plain::{NewOp, Plain, plain_line};
use cip_base::{Bytes, NoMemory};
use cip_chassis::Topology;
use cip_ends::{Ends, PlayFault, play_step};
use cip_outcomes::{
    Loss, Ops, Outage, Outages, is_refused, listed, losses_since, module_names, module_text,
    nearest, refusal_of,
};
use cip_routing::Module;
use cip_script::{Mode, ScriptFault, Step, StepsFault, explain, read_steps, usage_of};
use cip_transcript::names_of;
use cip_world::{FrameName, Shown, World};
use std::alloc::{AllocError, Global};

// How many lines are played at most.
const MOST_LINES: usize = 1_000_000;

// How many bytes a script has at most.
const MOST_BYTES: usize = 1_048_576;

// What is kept beside the world.
#[derive(Drop)]
struct Kept {
    // the names of the modules
    names: Vec<Bytes>,
    ops: Ops,
    // the script so far
    script: String,
    // where the ops ended, as far as that was read
    ends: Ends,
    // the links that are down
    outages: Outages,
    // the line of the last command, where it was refused and no line expected that
    refused: Option<usize>,
}

// What is wrong with a line that stands in no script, or stops there.
fn script_fault(
    alloc: Global,
    world: &World,
    line: &str,
    fault: ScriptFault,
) -> Result<LineFault, NoMemory> {
    let explained = explain(alloc, line.as_bytes(), 1, fault)?;
    match fault {
        ScriptFault::NoModule => {
            let names = module_names(alloc, world.topology())?;
            let name = line.split(' ').nth(1).unwrap_or("");
            let near = nearest(alloc, name, names.as_slice())?;
            let names = listed(alloc, names.as_slice())?;
            Ok(LineFault::NoModule(explained, names, near))
        }
        ScriptFault::NoFrame => Ok(LineFault::NoFrame(explained, world.waiting()?)),
        _ => Ok(LineFault::Script(explained)),
    }
}

fn stopped(alloc: Global, world: &World, line: &str, fault: ScriptFault) -> LineError {
    match script_fault(alloc, world, line, fault) {
        Ok(fault) => LineError::of(alloc, fault),
        Err(NoMemory) => LineError::NoMemory,
    }
}

// The one step of a line.
fn step_of(
    alloc: Global,
    world: &World,
    names: &[Bytes],
    line: &str,
) -> Result<Option<Step>, LineError> {
    match read_steps(alloc, Mode::InTurn, names, line.as_bytes()) {
        Ok(steps) => {
            let mut steps = steps;
            Ok(steps.pop().map(|numbered| numbered.step))
        }
        Err(StepsFault::Script(_, fault)) => Err(stopped(alloc, world, line, fault)),
        Err(StepsFault::NoMemory) => Err(LineError::NoMemory),
    }
}

// One more line of the script.
fn put_line(narrow: &mut Kept, line: &str) -> Result<(), LineError>
    ensures { IfOk result (λ _. string_len narrow.new.script ≤ 1_048_576) }
{
    narrow.script.push_str(line)?;
    narrow.script.push('\n')?;
    if narrow.script.len() > MOST_BYTES {
        return Err(LineError::TooLong);
    }
    Ok(())
}

// An op was asked for.
fn note(ops: &mut Ops, new: NewOp) -> Result<(), NoMemory> {
    let NewOp { at, number, name } = new;
    match name {
        Some(name) => ops.name(name, at, number),
        None => {
            ops.note(at, number);
            Ok(())
        }
    }
}

// A line that stands in the script is played.
fn play_plain(
    alloc: Global,
    world: &mut World,
    narrow: &mut Kept,
    plain: Plain,
) -> Result<(), LineError>
    requires stand { ⟦<World as Shown>⟧.stands world.old }
    ensures stand { ⟦<World as Shown>⟧.stands world.new }
    ensures short { string_len narrow.old.script ≤ 1_048_576
        → IfOk result (λ _. string_len narrow.new.script ≤ 1_048_576) }
{
    let Plain { line, new } = plain;
    let step = step_of(alloc, world, narrow.names.as_slice(), line.as_str())?;
    if let Some(new) = new {
        note(&mut narrow.ops, new)?;
    }
    let Some(step) = step else {
        return Ok(());
    };
    match play_step(world, step) {
        Ok(()) => put_line(narrow, line.as_str()),
        Err(PlayFault::Stopped(fault)) => Err(stopped(alloc, world, line.as_str(), fault)),
        Err(PlayFault::NoMemory) => Err(LineError::NoMemory),
    }
}

// A frame is lost, behind a comment that says why.
fn lose(alloc: Global, world: &mut World, narrow: &mut Kept, loss: Loss) -> Result<(), LineError>
    requires stand { ⟦<World as Shown>⟧.stands world.old }
    ensures stand { ⟦<World as Shown>⟧.stands world.new }
    ensures short { string_len narrow.old.script ≤ 1_048_576
        → IfOk result (λ _. string_len narrow.new.script ≤ 1_048_576) }
{
    let Loss { why, line } = loss;
    put_line(narrow, why.as_str())?;
    play_plain(alloc, world, narrow, Plain { line, new: None })
}

// Frames are lost.
fn lose_all(
    alloc: Global,
    world: &mut World,
    narrow: &mut Kept,
    losses: Vec<Loss>,
) -> Result<(), LineError>
    requires stand { ⟦<World as Shown>⟧.stands world.old }
    ensures stand { ⟦<World as Shown>⟧.stands world.new }
    ensures short { string_len narrow.old.script ≤ 1_048_576
        → IfOk result (λ _. string_len narrow.new.script ≤ 1_048_576) }
{
    let mut losses = losses;
    losses.reverse();
    'losses: while let Some(loss) = losses.pop() {
        lose(alloc, world, narrow, loss)?;
    }
    Ok(())
}

// A line that stands in the script is played, and what it sends into an outage is lost.
fn play_losing(
    alloc: Global,
    world: &mut World,
    narrow: &mut Kept,
    plain: Plain,
) -> Result<(), LineError>
    requires stand { ⟦<World as Shown>⟧.stands world.old }
    ensures stand { ⟦<World as Shown>⟧.stands world.new }
    ensures short { string_len narrow.old.script ≤ 1_048_576
        → IfOk result (λ _. string_len narrow.new.script ≤ 1_048_576) }
{
    let before = world.journal().len();
    play_plain(alloc, world, narrow, plain)?;
    let losses = losses_since(alloc, world, &narrow.outages, before)?;
    lose_all(alloc, world, narrow, losses)
}

// Lines that name no ops are played.
fn play_lines(
    alloc: Global,
    world: &mut World,
    narrow: &mut Kept,
    lines: Vec<String>,
) -> Result<(), LineError>
    requires stand { ⟦<World as Shown>⟧.stands world.old }
    ensures stand { ⟦<World as Shown>⟧.stands world.new }
    ensures short { string_len narrow.old.script ≤ 1_048_576
        → IfOk result (λ _. string_len narrow.new.script ≤ 1_048_576) }
{
    let mut lines = lines;
    lines.reverse();
    'lines: while let Some(line) = lines.pop() {
        play_losing(alloc, world, narrow, Plain { line, new: None })?;
    }
    Ok(())
}

// The line by which the waiting frame of least name arrives.
fn least_line(alloc: Global, world: &World) -> Result<Option<String>, LineError> {
    let waiting = world.waiting()?;
    match waiting.first() {
        Some(name) => {
            let mut line = String::new(alloc);
            write!(line, "deliver {}.{}", name.entry, name.output)?;
            Ok(Some(line))
        }
        None => Ok(None),
    }
}

// The waiting frame of least name arrives, so many times at most, and what is sent into an outage
// is lost.
fn run_losing(
    alloc: Global,
    world: &mut World,
    narrow: &mut Kept,
    limit: usize,
) -> Result<(), LineError>
    requires stand { ⟦<World as Shown>⟧.stands world.old }
    ensures stand { ⟦<World as Shown>⟧.stands world.new }
    ensures short { string_len narrow.old.script ≤ 1_048_576
        → IfOk result (λ _. string_len narrow.new.script ≤ 1_048_576) }
{
    'frames: for _ in 0..limit {
        let Some(line) = least_line(alloc, world)? else {
            return Ok(());
        };
        play_losing(alloc, world, narrow, Plain { line, new: None })?;
    }
    Ok(())
}

// A line for each of the frames.
fn frame_lines(alloc: Global, word: &str, frames: &[FrameName]) -> Result<Vec<String>, AllocError> {
    let mut lines = Vec::new(alloc);
    for frame in frames {
        let mut line = String::new(alloc);
        write!(line, "{word} {}.{}", frame.entry, frame.output)?;
        lines.push(line)?;
    }
    Ok(lines)
}

// A tick for each of the modules.
fn tick_lines(alloc: Global, topology: &Topology, ms: &str) -> Result<Vec<String>, AllocError> {
    let mut lines = Vec::new(alloc);
    for config in topology.configs() {
        let mut line = String::new(alloc);
        let name = std::str::from_utf8(config.settings().name.as_slice()).unwrap_or("");
        write!(line, "tick {name} {ms}")?;
        lines.push(line)?;
    }
    Ok(lines)
}

// The line itself, as a comment of the script, with a remark behind it.
fn put_comment(
    alloc: Global,
    narrow: &mut Kept,
    words: &[&str],
    remark: &str,
) -> Result<(), LineError>
    ensures { IfOk result (λ _. string_len narrow.new.script ≤ 1_048_576) }
{
    let mut line = String::from_str(alloc, "#")?;
    for word in words {
        line.push(' ')?;
        line.push_str(word)?;
    }
    line.push_str(remark)?;
    put_line(narrow, line.as_str())
}

// A comment that says which op of which module has the name, where a line gives it one.
fn name_comment(
    alloc: Global,
    topology: &Topology,
    plain: &Plain,
) -> Result<Option<String>, AllocError> {
    let Some(new) = &plain.new else {
        return Ok(None);
    };
    let Some(name) = &new.name else {
        return Ok(None);
    };
    let name = std::str::from_utf8(name.as_slice()).unwrap_or("");
    let mut line = String::new(alloc);
    let module_ = module_text(topology, new.at);
    write!(line, "# {name} is {module_}.{}", new.number)?;
    Ok(Some(line))
}

fn put_name(
    alloc: Global,
    topology: &Topology,
    narrow: &mut Kept,
    plain: &Plain,
) -> Result<(), LineError>
    ensures { string_len narrow.old.script ≤ 1_048_576
        → IfOk result (λ _. string_len narrow.new.script ≤ 1_048_576) }
{
    match name_comment(alloc, topology, plain)? {
        Some(line) => put_line(narrow, line.as_str()),
        None => Ok(()),
    }
}

// A line of the script's own words.
fn play_own(
    alloc: Global,
    world: &mut World,
    narrow: &mut Kept,
    word: &str,
    args: &[&str],
) -> Result<(), LineError>
    requires stand { ⟦<World as Shown>⟧.stands world.old }
    ensures stand { ⟦<World as Shown>⟧.stands world.new }
    ensures short { string_len narrow.old.script ≤ 1_048_576
        → IfOk result (λ _. string_len narrow.new.script ≤ 1_048_576) }
{
    match usage_of(word) {
        Some(usage) => {
            let plain = plain_line(alloc, world, &narrow.ops, word, usage, args)?;
            put_name(alloc, world.topology(), narrow, &plain)?;
            play_losing(alloc, world, narrow, plain)
        }
        None => Err(unknown_word(alloc, word)),
    }
}

// The lines that a line of a wide script alone stands for.
fn lines_for(alloc: Global, world: &World, words: &[&str]) -> Result<Vec<String>, LineError> {
    match words {
        ["cut", args @ ..] => {
            let frames = frames_at(alloc, world, "cut", args)?;
            Ok(frame_lines(alloc, "lose", frames.as_slice())?)
        }
        ["pass", args @ ..] => {
            let frames = frames_at(alloc, world, "pass", args)?;
            Ok(frame_lines(alloc, "deliver", frames.as_slice())?)
        }
        ["tickall", ms] => Ok(tick_lines(alloc, world.topology(), ms)?),
        ["tickall", args @ ..] => Err(wrong_count(alloc, "tickall", args.len(), "1, MS")),
        _ => Ok(Vec::new(alloc)),
    }
}

// What there is to say of a line that stands for these.
fn remark_of(words: &[&str], lines: &[String]) -> &'static str {
    match words {
        ["cut" | "pass", ..] if lines.is_empty() => ": nothing waits there",
        _ => "",
    }
}

// An outage begins at this line: `down LINK`, or `down LINK M`.
fn begin_outage(
    alloc: Global,
    topology: &Topology,
    outages: &mut Outages,
    since: usize,
    args: &[&str],
) -> Result<(), LineError> {
    let side = side_of(alloc, topology, "down", args)?;
    if let Some(outage) = outages.over(side) {
        let why = WordFault::IsDown(outage.since);
        let link = args.first().unwrap_or(&"");
        return Err(wrong_word(alloc, "down", "LINK", link, why));
    }
    outages.begin(Outage { side, since })?;
    Ok(())
}

// An outage is over: `up LINK`, or `up LINK M`.
fn end_outage(
    alloc: Global,
    topology: &Topology,
    outages: &mut Outages,
    args: &[&str],
) -> Result<(), LineError> {
    let side = side_of(alloc, topology, "up", args)?;
    if outages.end(side) {
        return Ok(());
    }
    let why = WordFault::NotDown(outages.told(alloc, topology)?);
    match args {
        [_, side] => Err(wrong_word(alloc, "up", "M", side, why)),
        _ => Err(wrong_word(alloc, "up", "LINK", args.first().unwrap_or(&""), why)),
    }
}

// How many frames arrive at most by a line `run N`.
fn limit_of(
    alloc: Global,
    world: &World,
    names: &[Bytes],
    limit: &str,
) -> Result<usize, LineError> {
    let mut line = String::from_str(alloc, "run ")?;
    line.push_str(limit)?;
    match step_of(alloc, world, names, line.as_str())? {
        Some(Step::Run { limit }) => Ok(limit),
        _ => Ok(0),
    }
}

// A line `run N` while links are down. What it says in the end comes of `run 0`.
fn play_run(
    alloc: Global,
    world: &mut World,
    narrow: &mut Kept,
    limit: &str,
) -> Result<(), LineError>
    requires stand { ⟦<World as Shown>⟧.stands world.old }
    ensures stand { ⟦<World as Shown>⟧.stands world.new }
    ensures short { string_len narrow.old.script ≤ 1_048_576
        → IfOk result (λ _. string_len narrow.new.script ≤ 1_048_576) }
{
    let most = limit_of(alloc, world, narrow.names.as_slice(), limit)?;
    put_comment(alloc, narrow, &["run", limit], "")?;
    run_losing(alloc, world, narrow, most)?;
    let line = String::from_str(alloc, "run 0")?;
    play_plain(alloc, world, narrow, Plain { line, new: None })
}

// A line of a wide script alone that stands for others.
fn play_for(
    alloc: Global,
    world: &mut World,
    narrow: &mut Kept,
    words: &[&str],
) -> Result<(), LineError>
    requires stand { ⟦<World as Shown>⟧.stands world.old }
    ensures stand { ⟦<World as Shown>⟧.stands world.new }
    ensures short { string_len narrow.old.script ≤ 1_048_576
        → IfOk result (λ _. string_len narrow.new.script ≤ 1_048_576) }
{
    let lines = lines_for(alloc, world, words)?;
    put_comment(alloc, narrow, words, remark_of(words, lines.as_slice()))?;
    play_lines(alloc, world, narrow, lines)
}

// A line that begins or ends no block.
fn play_words(
    alloc: Global,
    world: &mut World,
    narrow: &mut Kept,
    number: usize,
    words: &[&str],
) -> Result<(), LineError>
    requires stand { ⟦<World as Shown>⟧.stands world.old }
    ensures stand { ⟦<World as Shown>⟧.stands world.new }
    ensures short { string_len narrow.old.script ≤ 1_048_576
        → IfOk result (λ _. string_len narrow.new.script ≤ 1_048_576) }
{
    match words {
        ["cut" | "pass" | "tickall", ..] => play_for(alloc, world, narrow, words),
        ["down", args @ ..] => {
            begin_outage(alloc, world.topology(), &mut narrow.outages, number, args)?;
            put_comment(alloc, narrow, words, "")
        }
        ["up", args @ ..] => {
            end_outage(alloc, world.topology(), &mut narrow.outages, args)?;
            put_comment(alloc, narrow, words, "")
        }
        ["run", limit] if !narrow.outages.is_empty() => play_run(alloc, world, narrow, limit),
        ["expect", args @ ..] => {
            let names = narrow.names.as_slice();
            expect(alloc, world, names, &narrow.ops, &mut narrow.ends, args)?;
            put_comment(alloc, narrow, words, "")
        }
        [word, args @ ..] => play_own(alloc, world, narrow, word, args),
        [] => Ok(()),
    }
}

// The command of a line was refused.
fn refused_at(world: &World, ops: &Ops, number: usize) -> WideFault
    requires stand { ⟦<World as Shown>⟧.stands world.now }
{
    match refusal_of(world, ops) {
        Ok(Some(refusal)) => WideFault::Line(number, LineFault::Refused(refusal)),
        _ => WideFault::NoMemory,
    }
}

// A command that was refused is expected to be by these words. (No words are the end.)
fn check_refused(world: &World, narrow: &Kept, words: &[&str]) -> Result<(), WideFault>
    requires stand { ⟦<World as Shown>⟧.stands world.now }
{
    match (narrow.refused, words) {
        (None, _) => Ok(()),
        (Some(_), ["expect", "refused", ..]) => Ok(()),
        (Some(number), _) => Err(refused_at(world, &narrow.ops, number)),
    }
}

// A line that is no comment, and begins or ends no block.
fn play_told(
    alloc: Global,
    world: &mut World,
    narrow: &mut Kept,
    line: &Line<'_>,
) -> Result<(), WideFault>
    requires stand { ⟦<World as Shown>⟧.stands world.old }
    ensures stand { ⟦<World as Shown>⟧.stands world.new }
    ensures short { string_len narrow.old.script ≤ 1_048_576
        → IfOk result (λ _. string_len narrow.new.script ≤ 1_048_576) }
{
    let words = line.words.as_slice();
    check_refused(world, narrow, words)?;
    let before = world.journal().len();
    match play_words(alloc, world, narrow, line.number, words) {
        Ok(()) => {
            let is_refused = is_refused(world.journal(), before);
            narrow.refused = if is_refused { Some(line.number) } else { None };
            Ok(())
        }
        Err(error) => Err(error.at(line.number)),
    }
}

// A comment stands in the script too.
fn copy_comment(narrow: &mut Kept, line: &Line<'_>) -> Result<(), WideFault>
    ensures { IfOk result (λ _. string_len narrow.new.script ≤ 1_048_576) }
{
    match put_line(narrow, line.text) {
        Ok(()) => Ok(()),
        Err(error) => Err(error.at(line.number)),
    }
}

// The line at a place, and the place to go on with.
fn play_line(
    alloc: Global,
    world: &mut World,
    narrow: &mut Kept,
    turns: &mut Vec<Turn>,
    at: usize,
    line: &Line<'_>,
) -> Result<usize, WideFault>
    requires stand { ⟦<World as Shown>⟧.stands world.old }
    ensures stand { ⟦<World as Shown>⟧.stands world.new }
    ensures short { string_len narrow.old.script ≤ 1_048_576
        → IfOk result (λ _. string_len narrow.new.script ≤ 1_048_576) }
{
    let next = at.saturating_add(1);
    if let Some(left) = count_of(line)? {
        turns.push(Turn { start: next, left })?;
        return Ok(next);
    }
    if is_end(line)? {
        return Ok(after_end(turns, at));
    }
    if line.words.is_empty() {
        copy_comment(narrow, line)?;
        return Ok(next);
    }
    play_told(alloc, world, narrow, line)?;
    Ok(next)
}

fn play_all(
    alloc: Global,
    world: &mut World,
    narrow: &mut Kept,
    lines: &[Line<'_>],
) -> Result<(), WideFault>
    requires stand { ⟦<World as Shown>⟧.stands world.old }
    ensures stand { ⟦<World as Shown>⟧.stands world.new }
    ensures short { string_len narrow.old.script ≤ 1_048_576
        → IfOk result (λ _. string_len narrow.new.script ≤ 1_048_576) }
{
    let mut turns = Vec::new(alloc);
    let mut at = 0;
    let mut number = 1;
    'all: for _ in 0..MOST_LINES {
        let Some(line) = lines.get(at) else {
            return check_refused(world, narrow, &[]);
        };
        number = line.number;
        at = play_line(alloc, world, narrow, &mut turns, at, line)?;
    }
    Err(WideFault::Line(number, LineFault::TooMany))
}

fn not_text(alloc: Global, wide: &[u8], line: usize) -> WideFault {
    match explain(alloc, wide, line, ScriptFault::NotText) {
        Ok(explained) => WideFault::Line(line, LineFault::Script(explained)),
        Err(NoMemory) => WideFault::NoMemory,
    }
}

fn ascii_of(alloc: Global, wide: &[u8]) -> Result<&str, WideFault>
    ensures { IfOk result (λ text. IsAscii wide.now) }
{
    match std::str::from_utf8(wide) {
        Ok(text) if text.is_ascii() => Ok(text),
        _ => Err(not_text(alloc, wide, first_not_ascii(wide).unwrap_or(1))),
    }
}

/// The script of `cipbridge` that a wide script over the modules of a topology is, in its order and
/// each as at its beginning. It is played over a world to find the frames that it names, and to see
/// that what it expects comes. Line is the first line, from 1, that is faulty or not as expected;
/// NoMemory where an allocation is refused.
pub fn narrow(
    alloc: Global,
    topology: Topology,
    modules: Vec<Box<dyn Module + Send>>,
    wide: &[u8],
) -> Result<String, WideFault>
    // Only a text of ASCII is one, and what comes out is no longer than a script may be.
    ensures ascii { IfOk result (λ _. IsAscii wide.now) }
    ensures short { IfOk result (λ script. string_len script ≤ 1_048_576) }
{
    let text = ascii_of(alloc, wide)?;
    let lines = lines_of(alloc, text)?;
    check_blocks(alloc, lines.as_slice())?;
    let names = names_of(alloc, &topology)?;
    let ops = Ops::new(alloc, names.len())?;
    // Of new modules memory alone can be wanting.
    let Ok(mut world) = World::new(alloc, topology, modules) else {
        return Err(WideFault::NoMemory);
    };
    let mut narrow = Kept {
        names,
        ops,
        script: String::new(alloc),
        ends: Ends::new(alloc),
        outages: Outages::new(alloc),
        refused: None,
    };
    play_all(alloc, &mut world, &mut narrow, lines.as_slice())?;
    Ok(narrow.script)
}
