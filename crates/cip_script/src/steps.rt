//! The steps of a script, or its first faulty line.
ghost use Rattle.std.specs.Prelude.{◌≡◌, ◌++◌, ◌∷◌, [], length, OnOk};
ghost use Rattle.std.specs.Str.{IsAscii};
ghost use Rattle.cip_script.specs.Steps.{Gives, Fails, Reads, of_words, send_words, params_of};
ghost use Rattle.cip_script.specs.Steps.{open_words, large_words, large_params_of};
ghost use Rattle.cip_script.specs.Steps.{close_words, enter_words, set_words};
ghost use Rattle.cip_script.specs.Steps.{produce_words, tick_words, deliver_words, lose_words};
ghost use Rattle.cip_script.specs.Steps.{run_words, tables_words, trail_words, chain_words};
ghost use Rattle.cip_script.specs.Steps.{world_step, is_world_word, not_with_threads, step_by};
ghost use Rattle.cip_script.specs.Steps.{line_step, steps, texts};
ghost use Rattle.cip_script.specs.declared.steps.StepFault.TheVariants.{NoMemory as NoStepMemory};
ghost use Rattle.cip_script.specs.declared.steps.StepsFault.TheVariants.{NoMemory as NoStepsMemory};

use crate::text;
use crate::words::{
    bytes_at, frame_of, is_word, module_of, ms_of, nth, number_u8, number_u16, number_u32,
    number_usize, path_of, timing_of,
};
use cip_base::{Bytes, ModuleId, Ms};
use cip_event::{Command, FrameName, LargeParams, OpenParams};
use cip_words::{ascii, first_line, lines};
use std::alloc::{AllocError, Global};
use thiserror::Error;

/// One step of a script.
#[derive(Debug, Drop)]
pub enum Step {
    /// A command to a module.
    Feed { module_: ModuleId, command: Command },
    /// So much time goes by at a module.
    Tick { module_: ModuleId, by: Ms },
    /// This waiting frame arrives.
    Deliver { frame: FrameName },
    /// This waiting frame is lost.
    Lose { frame: FrameName },
    /// The waiting frame of least name arrives, up to so many times.
    Run { limit: usize },
    /// The tables of a module are shown.
    Tables { module_: ModuleId },
    /// The entries that the request of an op went through are shown.
    Trail { module_: ModuleId, op: u32 },
    /// The modules through which the connection of an op goes are shown.
    Chain { module_: ModuleId, op: u32 },
}

/// How a script is played: a step after the other, or by modules on threads of their own, which are
/// given commands and ticks alone.
#[derive(Clone, Copy, Debug, PartialEq, Eq)]
pub enum Mode {
    InTurn,
    OnThreads,
}

/// A step, and the line that it stands in, from 1.
#[derive(Debug, Drop)]
pub struct Numbered {
    pub line: usize,
    pub step: Step,
}

/// What is wrong with a line of a script.
#[derive(Clone, Copy, Debug, PartialEq, Eq, Error)]
pub enum ScriptFault {
    /// The first word is none of the script's.
    #[error("unknown word")]
    UnknownWord,
    /// The line has too few words or too many.
    #[error("wrong number of words")]
    Count,
    /// A word is no number, or one past its field's range.
    #[error("bad number")]
    BadNumber,
    /// A word is no pairs of hexadecimal digits.
    #[error("bad bytes")]
    BadBytes,
    /// The bytes are no path.
    #[error("bad path")]
    BadPath,
    /// No module has this name.
    #[error("no such module")]
    NoModule,
    /// The word is none that modules on threads of their own can be given.
    #[error("not with --threads")]
    NotWithThreads,
    /// The line has a byte that is not ASCII.
    #[error("not text")]
    NotText,
    /// No such frame waits. This comes in the run alone.
    #[error("no such frame waits")]
    NoFrame,
    /// The clock of a module is full. This comes in the run alone.
    #[error("the clock is full")]
    ClockFull,
}

/// Why a line gave no step.
#[derive(Clone, Copy)]
pub(crate) enum StepFault {
    Fault(ScriptFault),
    NoMemory,
}

impl From<AllocError> for StepFault {
    ghost from_gives = { λ _ e. e ≡ NoStepMemory };

    fn from(_e: AllocError) -> StepFault {
        StepFault::NoMemory
    }
}

/// Why a script gave no steps: its first faulty line, or out of memory.
#[derive(Clone, Copy, Debug, PartialEq, Eq)]
pub enum StepsFault {
    Script(usize, ScriptFault),
    NoMemory,
}

impl From<AllocError> for StepsFault {
    ghost from_gives = { λ _ e. e ≡ NoStepsMemory };

    fn from(_e: AllocError) -> StepsFault {
        StepsFault::NoMemory
    }
}

// `send M OP TICK TICKS PATH REQUEST`
fn send_step(alloc: Global, names: &[Bytes], args: &[&str]) -> Result<Step, StepFault>
    ensures { Gives result (of_words 6 (texts args.now) (send_words names.now (texts args.now))) }
{
    if args.len() != 6 {
        return Err(StepFault::Fault(ScriptFault::Count));
    }
    let module_ = module_of(names, nth(args, 0))?;
    let op = number_u32(nth(args, 1))?;
    let timing = timing_of(nth(args, 2), nth(args, 3))?;
    let path = path_of(alloc, nth(args, 4))?;
    let request = bytes_at(alloc, nth(args, 5))?;
    let command = Command::Send {
        op,
        timing,
        path,
        request,
    };
    Ok(Step::Feed { module_, command })
}

// `SERIAL MULT TRANSPORT OT_RPI OT_PARAMS TO_RPI TO_PARAMS`, from the sixth word on.
fn params_at(args: &[&str]) -> Result<OpenParams, StepFault>
    requires { length args.now ≡ 12 }
    ensures { Gives result (params_of (texts args.now)) }
{
    let serial = number_u16(nth(args, 5))?;
    let multiplier = number_u8(nth(args, 6))?;
    let transport = number_u8(nth(args, 7))?;
    let ot_rpi = number_u32(nth(args, 8))?;
    let ot_params = number_u16(nth(args, 9))?;
    let to_rpi = number_u32(nth(args, 10))?;
    let to_params = number_u16(nth(args, 11))?;
    Ok(OpenParams {
        serial,
        multiplier,
        transport,
        ot_rpi,
        ot_params,
        to_rpi,
        to_params,
    })
}

// `open M OP TICK TICKS PATH SERIAL MULT TRANSPORT OT_RPI OT_PARAMS TO_RPI TO_PARAMS`
fn open_step(alloc: Global, names: &[Bytes], args: &[&str]) -> Result<Step, StepFault>
    ensures { Gives result (of_words 12 (texts args.now) (open_words names.now (texts args.now))) }
{
    if args.len() != 12 {
        return Err(StepFault::Fault(ScriptFault::Count));
    }
    let module_ = module_of(names, nth(args, 0))?;
    let op = number_u32(nth(args, 1))?;
    let timing = timing_of(nth(args, 2), nth(args, 3))?;
    let path = path_of(alloc, nth(args, 4))?;
    let params = params_at(args)?;
    let command = Command::Open {
        op,
        timing,
        path,
        params,
    };
    Ok(Step::Feed { module_, command })
}

// The same, with network connection parameters of 32 bits.
fn large_params_at(args: &[&str]) -> Result<LargeParams, StepFault>
    requires { length args.now ≡ 12 }
    ensures { Gives result (large_params_of (texts args.now)) }
{
    let serial = number_u16(nth(args, 5))?;
    let multiplier = number_u8(nth(args, 6))?;
    let transport = number_u8(nth(args, 7))?;
    let ot_rpi = number_u32(nth(args, 8))?;
    let ot_params = number_u32(nth(args, 9))?;
    let to_rpi = number_u32(nth(args, 10))?;
    let to_params = number_u32(nth(args, 11))?;
    Ok(LargeParams {
        serial,
        multiplier,
        transport,
        ot_rpi,
        ot_params,
        to_rpi,
        to_params,
    })
}

// `large M OP TICK TICKS PATH SERIAL MULT TRANSPORT OT_RPI OT_PARAMS TO_RPI TO_PARAMS`
fn large_step(alloc: Global, names: &[Bytes], args: &[&str]) -> Result<Step, StepFault>
    ensures { Gives result (of_words 12 (texts args.now) (large_words names.now (texts args.now))) }
{
    if args.len() != 12 {
        return Err(StepFault::Fault(ScriptFault::Count));
    }
    let module_ = module_of(names, nth(args, 0))?;
    let op = number_u32(nth(args, 1))?;
    let timing = timing_of(nth(args, 2), nth(args, 3))?;
    let path = path_of(alloc, nth(args, 4))?;
    let params = large_params_at(args)?;
    let command = Command::LargeOpen {
        op,
        timing,
        path,
        params,
    };
    Ok(Step::Feed { module_, command })
}

// `close M OP OF TICK TICKS`
fn close_step(names: &[Bytes], args: &[&str]) -> Result<Step, StepFault>
    ensures { Gives result (of_words 5 (texts args.now) (close_words names.now (texts args.now))) }
{
    if args.len() != 5 {
        return Err(StepFault::Fault(ScriptFault::Count));
    }
    let module_ = module_of(names, nth(args, 0))?;
    let op = number_u32(nth(args, 1))?;
    let of = number_u32(nth(args, 2))?;
    let timing = timing_of(nth(args, 3), nth(args, 4))?;
    let command = Command::Close { op, of, timing };
    Ok(Step::Feed { module_, command })
}

// `enter M OF BYTES`
fn enter_step(alloc: Global, names: &[Bytes], args: &[&str]) -> Result<Step, StepFault>
    ensures { Gives result (of_words 3 (texts args.now) (enter_words names.now (texts args.now))) }
{
    if args.len() != 3 {
        return Err(StepFault::Fault(ScriptFault::Count));
    }
    let module_ = module_of(names, nth(args, 0))?;
    let of = number_u32(nth(args, 1))?;
    let bytes = bytes_at(alloc, nth(args, 2))?;
    let command = Command::Enter { of, bytes };
    Ok(Step::Feed { module_, command })
}

// `set M INSTANCE BYTES`
fn set_step(alloc: Global, names: &[Bytes], args: &[&str]) -> Result<Step, StepFault>
    ensures { Gives result (of_words 3 (texts args.now) (set_words names.now (texts args.now))) }
{
    if args.len() != 3 {
        return Err(StepFault::Fault(ScriptFault::Count));
    }
    let module_ = module_of(names, nth(args, 0))?;
    let instance = number_u32(nth(args, 1))?;
    let bytes = bytes_at(alloc, nth(args, 2))?;
    let command = Command::Set { instance, bytes };
    Ok(Step::Feed { module_, command })
}

// `produce M INSTANCE`
fn produce_step(names: &[Bytes], args: &[&str]) -> Result<Step, StepFault>
    ensures { Gives result (of_words 2 (texts args.now)
        (produce_words names.now (texts args.now))) }
{
    if args.len() != 2 {
        return Err(StepFault::Fault(ScriptFault::Count));
    }
    let module_ = module_of(names, nth(args, 0))?;
    let instance = number_u32(nth(args, 1))?;
    let command = Command::Produce { instance };
    Ok(Step::Feed { module_, command })
}

// `tick M MS`
fn tick_step(names: &[Bytes], args: &[&str]) -> Result<Step, StepFault>
    ensures { Gives result (of_words 2 (texts args.now) (tick_words names.now (texts args.now))) }
{
    if args.len() != 2 {
        return Err(StepFault::Fault(ScriptFault::Count));
    }
    let module_ = module_of(names, nth(args, 0))?;
    let by = ms_of(nth(args, 1))?;
    Ok(Step::Tick { module_, by })
}

// `deliver E.K`
fn deliver_step(alloc: Global, args: &[&str]) -> Result<Step, StepFault>
    ensures { Gives result (of_words 1 (texts args.now) (deliver_words (texts args.now))) }
{
    if args.len() != 1 {
        return Err(StepFault::Fault(ScriptFault::Count));
    }
    let frame = frame_of(alloc, nth(args, 0))?;
    Ok(Step::Deliver { frame })
}

// `lose E.K`
fn lose_step(alloc: Global, args: &[&str]) -> Result<Step, StepFault>
    ensures { Gives result (of_words 1 (texts args.now) (lose_words (texts args.now))) }
{
    if args.len() != 1 {
        return Err(StepFault::Fault(ScriptFault::Count));
    }
    let frame = frame_of(alloc, nth(args, 0))?;
    Ok(Step::Lose { frame })
}

// `run N`
fn run_step(args: &[&str]) -> Result<Step, StepFault>
    ensures { Gives result (of_words 1 (texts args.now) (run_words (texts args.now))) }
{
    if args.len() != 1 {
        return Err(StepFault::Fault(ScriptFault::Count));
    }
    let limit = number_usize(nth(args, 0))?;
    Ok(Step::Run { limit })
}

// `tables M`
fn tables_step(names: &[Bytes], args: &[&str]) -> Result<Step, StepFault>
    ensures { Gives result (of_words 1 (texts args.now) (tables_words names.now (texts args.now))) }
{
    if args.len() != 1 {
        return Err(StepFault::Fault(ScriptFault::Count));
    }
    let module_ = module_of(names, nth(args, 0))?;
    Ok(Step::Tables { module_ })
}

// `trail M OP`
fn trail_step(names: &[Bytes], args: &[&str]) -> Result<Step, StepFault>
    ensures { Gives result (of_words 2 (texts args.now) (trail_words names.now (texts args.now))) }
{
    if args.len() != 2 {
        return Err(StepFault::Fault(ScriptFault::Count));
    }
    let module_ = module_of(names, nth(args, 0))?;
    let op = number_u32(nth(args, 1))?;
    Ok(Step::Trail { module_, op })
}

// `chain M OP`
fn chain_step(names: &[Bytes], args: &[&str]) -> Result<Step, StepFault>
    ensures { Gives result (of_words 2 (texts args.now) (chain_words names.now (texts args.now))) }
{
    if args.len() != 2 {
        return Err(StepFault::Fault(ScriptFault::Count));
    }
    let module_ = module_of(names, nth(args, 0))?;
    let op = number_u32(nth(args, 1))?;
    Ok(Step::Chain { module_, op })
}

// The words that give a module nothing.
fn world_step(alloc: Global, names: &[Bytes], word: &str, args: &[&str]) -> Result<Step, StepFault>
    ensures { Gives result (world_step names.now word.now (texts args.now)) }
{
    if is_word(word, "deliver") {
        deliver_step(alloc, args)
    } else if is_word(word, "lose") {
        lose_step(alloc, args)
    } else if is_word(word, "run") {
        run_step(args)
    } else if is_word(word, "tables") {
        tables_step(names, args)
    } else if is_word(word, "trail") {
        trail_step(names, args)
    } else if is_word(word, "chain") {
        chain_step(names, args)
    } else {
        Err(StepFault::Fault(ScriptFault::UnknownWord))
    }
}

// Whether a word is one that gives a module nothing.
fn is_world_word(word: &str) -> bool
    ensures { result ≡ is_world_word word.now }
{
    is_word(word, "deliver")
        || is_word(word, "lose")
        || is_word(word, "run")
        || is_word(word, "tables")
        || is_word(word, "trail")
        || is_word(word, "chain")
}

// Where modules run on threads of their own, no other words are taken.
fn not_with_threads(word: &str) -> StepFault
    ensures { Fails result (not_with_threads word.now) }
{
    if is_world_word(word) {
        return StepFault::Fault(ScriptFault::NotWithThreads);
    }
    StepFault::Fault(ScriptFault::UnknownWord)
}

// The step that the first word and the others make.
fn step_of(
    alloc: Global,
    mode: Mode,
    names: &[Bytes],
    word: &str,
    args: &[&str],
) -> Result<Step, StepFault>
    ensures { Gives result (step_by mode names.now word.now (texts args.now)) }
{
    if is_word(word, "send") {
        send_step(alloc, names, args)
    } else if is_word(word, "open") {
        open_step(alloc, names, args)
    } else if is_word(word, "large") {
        large_step(alloc, names, args)
    } else if is_word(word, "close") {
        close_step(names, args)
    } else if is_word(word, "enter") {
        enter_step(alloc, names, args)
    } else if is_word(word, "set") {
        set_step(alloc, names, args)
    } else if is_word(word, "produce") {
        produce_step(names, args)
    } else if is_word(word, "tick") {
        tick_step(names, args)
    } else {
        match mode {
            Mode::InTurn => world_step(alloc, names, word, args),
            Mode::OnThreads => Err(not_with_threads(word)),
        }
    }
}

// The step of a line that is ASCII, if it is no comment and not blank.
fn text_step<'a>(
    alloc: Global,
    mode: Mode,
    names: &[Bytes],
    line: &'a str,
    words: &mut Vec<&'a str>,
) -> Result<Option<Step>, StepFault>
    requires { IsAscii line.now }
    ensures { Gives result (line_step mode names.now line.now) }
{
    if text::is_comment(line) {
        return Ok(None);
    }
    text::words(line, words)?;
    match words.split_first() {
        None => Ok(None),
        Some((word, args)) => Ok(Some(step_of(alloc, mode, names, word, args)?)),
    }
}

// The step of a line, if it is no comment and not blank.
fn line_step<'a>(
    alloc: Global,
    mode: Mode,
    names: &[Bytes],
    line: &'a [u8],
    words: &mut Vec<&'a str>,
) -> Result<Option<Step>, StepFault>
    ensures { Gives result (line_step mode names.now line.now) }
{
    match ascii(line) {
        Some(line) => text_step(alloc, mode, names, line, words),
        None => Err(StepFault::Fault(ScriptFault::NotText)),
    }
}

// One more at the end.
#[inline(always)]
fn push(found: &mut Vec<Numbered>, step: Numbered) -> Result<(), AllocError>
    ensures { OnOk result (found.new.items ≡ found.old.items ++ step ∷ []) }
{
    found.push(step)?;
    Ok(())
}

// The steps of a script that is ASCII, whose lines are taken one after the other.
fn read_text(
    alloc: Global,
    mode: Mode,
    names: &[Bytes],
    script: &str,
) -> Result<Vec<Numbered>, StepsFault>
    requires { IsAscii script.now }
    ensures { Reads (λ v. v.items) result (steps mode names.now script.now) }
{
    let mut found = Vec::new(alloc);
    let mut words = Vec::new(alloc);
    let mut rest = script;
    let mut line = 0;
    'lines: while !rest.is_empty() {
        let (first, more) = first_line(rest);
        rest = more;
        line += 1;
        match text_step(alloc, mode, names, first, &mut words) {
            Ok(None) => {}
            Ok(Some(step)) => push(&mut found, Numbered { line, step })?,
            Err(StepFault::Fault(fault)) => return Err(StepsFault::Script(line, fault)),
            Err(StepFault::NoMemory) => return Err(StepsFault::NoMemory),
        }
    }
    Ok(found)
}

// The same of any script.
fn read_lines(
    alloc: Global,
    mode: Mode,
    names: &[Bytes],
    script: &[u8],
) -> Result<Vec<Numbered>, StepsFault>
    ensures { Reads (λ v. v.items) result (steps mode names.now script.now) }
{
    let lines = lines(alloc, script)?;
    let mut found = Vec::new(alloc);
    let mut words = Vec::new(alloc);
    for (i, line) in lines.iter().enumerate() {
        match line_step(alloc, mode, names, *line, &mut words) {
            Ok(None) => {}
            Ok(Some(step)) => push(&mut found, Numbered { line: i + 1, step })?,
            Err(StepFault::Fault(fault)) => return Err(StepsFault::Script(i + 1, fault)),
            Err(StepFault::NoMemory) => return Err(StepsFault::NoMemory),
        }
    }
    Ok(found)
}

/// Reads all steps of a script, for modules of these names. Script is its first faulty line, from
/// 1, and the fault; NoMemory where an allocation is refused.
pub fn read_steps(
    alloc: Global,
    mode: Mode,
    names: &[Bytes],
    script: &[u8],
) -> Result<Vec<Numbered>, StepsFault>
    ensures { Reads (λ v. v.items) result (steps mode names.now script.now) }
{
    match ascii(script) {
        Some(script) => read_text(alloc, mode, names, script),
        None => read_lines(alloc, mode, names, script),
    }
}
