//! The words of a line, one by one.
ghost use Rattle.std.specs.Prelude.{◌≡◌, ◌<◌, ◌^◌, length, map, IfOk};
ghost use Rattle.std.specs.List.{position, slice_split};
ghost use Rattle.std.specs.Str.{bytes_eq};
ghost use Rattle.cip_script.specs.Steps.{Gives, module_of, bounded, bytes_at, path_of, if_path};
ghost use Rattle.cip_script.specs.Steps.{timing_of, ms_of, frame_of, name_of, nth, texts};
ghost use Rattle.cip_script.specs.Text.{is_dot};
ghost use Rattle.cip_segment.specs.Reading.{path_at};

use crate::steps::{ScriptFault, StepFault};
use crate::text;
use cip_base::{Bytes, ModuleId, Ms, NoMemory, Timing};
use cip_event::FrameName;
use cip_segment::{Path, view_path};
use cip_tool::number;
use std::alloc::{AllocError, Global};

/// Whether the words are the same. Most that are not have other lengths or begin otherwise.
#[inline(always)]
pub(crate) fn is_word(word: &str, other: &str) -> bool
    ensures { result ≡ bytes_eq word.now other.now }
{
    let bytes = word.as_bytes();
    let others = other.as_bytes();
    if bytes.len() != others.len() {
        return false;
    }
    'bytes: for i in 0..others.len() {
        if bytes[i] != others[i] {
            return false;
        }
    }
    true
}

// The same of names, most of which end otherwise.
#[inline(always)]
fn is_name(name: &[u8], word: &[u8]) -> bool
    ensures { result ≡ bytes_eq name.now word.now }
{
    let count = name.len();
    if count != word.len() {
        return false;
    }
    if count != 0 && name[count - 1] != word[count - 1] {
        return false;
    }
    name == word
}

fn place_of(names: &[Bytes], word: &str) -> Option<usize>
    ensures { result ≡ position (λ name. bytes_eq name word.now) names.now }
{
    let word = word.as_bytes();
    names.iter().position(|name| is_name(name.as_slice(), word))
}

/// The module of a name.
pub(crate) fn module_of(names: &[Bytes], word: &str) -> Result<ModuleId, StepFault>
    ensures { Gives result (module_of names.now word.now) }
{
    match place_of(names, word) {
        Some(place) => Ok(ModuleId(place)),
        None => Err(StepFault::Fault(ScriptFault::NoModule)),
    }
}

/// A number within the range of its type.
pub(crate) fn number_u8(word: &str) -> Result<u8, StepFault>
    ensures { Gives result (bounded (2 ^ 8) word.now) }
{
    match cip_tool::number_u8(word) {
        Some(n) => Ok(n),
        None => Err(StepFault::Fault(ScriptFault::BadNumber)),
    }
}

/// A number within the range of its type.
pub(crate) fn number_u16(word: &str) -> Result<u16, StepFault>
    ensures { Gives result (bounded (2 ^ 16) word.now) }
{
    match cip_tool::number_u16(word) {
        Some(n) => Ok(n),
        None => Err(StepFault::Fault(ScriptFault::BadNumber)),
    }
}

/// A number within the range of its type.
pub(crate) fn number_u32(word: &str) -> Result<u32, StepFault>
    ensures { Gives result (bounded (2 ^ 32) word.now) }
{
    match cip_tool::number_u32(word) {
        Some(n) => Ok(n),
        None => Err(StepFault::Fault(ScriptFault::BadNumber)),
    }
}

/// A number within the range of its type.
pub(crate) fn number_usize(word: &str) -> Result<usize, StepFault>
    ensures { Gives result (bounded (2 ^ 64) word.now) }
{
    match number(word) {
        Some(n) => Ok(n as usize),
        None => Err(StepFault::Fault(ScriptFault::BadNumber)),
    }
}

/// Pairs of hexadecimal digits, or a dash for none.
pub(crate) fn bytes_at(alloc: Global, word: &str) -> Result<Bytes, StepFault>
    ensures { Gives result (bytes_at word.now) }
{
    match text::bytes(alloc, word)? {
        Some(bytes) => Ok(Bytes::of(bytes)),
        None => Err(StepFault::Fault(ScriptFault::BadBytes)),
    }
}

// The path that the bytes spell.
fn path_in(alloc: Global, bytes: &[u8]) -> Result<Path, StepFault>
    ensures { Gives result (if_path (path_at bytes.now) bytes.now) }
{
    match view_path(bytes) {
        Err(_) => Err(StepFault::Fault(ScriptFault::BadPath)),
        Ok(path) => match path.to_path(alloc) {
            Ok(path) => Ok(path),
            Err(NoMemory) => Err(StepFault::NoMemory),
        },
    }
}

// The bytes of a path that need no allocation before they are found to be one.
const SHORT: usize = 64;

/// The bytes of a path.
pub(crate) fn path_of(alloc: Global, word: &str) -> Result<Path, StepFault>
    ensures { Gives result (path_of word.now) }
{
    let mut room = [0; SHORT];
    if let Some(count) = text::bytes_into(word, &mut room) {
        return path_in(alloc, &room[..count]);
    }
    let bytes = bytes_at(alloc, word)?;
    path_in(alloc, bytes.as_slice())
}

/// `TICK TICKS`
pub(crate) fn timing_of(tick: &str, ticks: &str) -> Result<Timing, StepFault>
    ensures { Gives result (timing_of tick.now ticks.now) }
{
    let tick = number_u8(tick)?;
    let ticks = number_u8(ticks)?;
    Ok(Timing { tick, ticks })
}

/// Milliseconds, at least one.
pub(crate) fn ms_of(word: &str) -> Result<Ms, StepFault>
    ensures { Gives result (ms_of word.now) }
{
    let count = number_u16(word)?;
    match Ms::new(count) {
        Some(ms) => Ok(ms),
        None => Err(StepFault::Fault(ScriptFault::BadNumber)),
    }
}

// The parts of a word between its dots.
fn dotted(alloc: Global, word: &str) -> Result<Vec<&str>, AllocError>
    ensures { IfOk result (λ v. map (λ part. part.now) v.items ≡ slice_split is_dot word.now) }
{
    word.split('.').collect(alloc)
}

// `E` and `K`.
fn name_of(entry: &str, output: &str) -> Result<FrameName, StepFault>
    ensures { Gives result (name_of entry.now output.now) }
{
    let entry = number_usize(entry)?;
    let output = number_usize(output)?;
    Ok(FrameName { entry, output })
}

/// `E.K`: output K of entry E.
pub(crate) fn frame_of(alloc: Global, word: &str) -> Result<FrameName, StepFault>
    ensures { Gives result (frame_of word.now) }
{
    let parts = dotted(alloc, word)?;
    match parts.as_slice() {
        [entry, output] => name_of(entry, output),
        _ => Err(StepFault::Fault(ScriptFault::BadNumber)),
    }
}

/// The k-th of the words.
pub(crate) fn nth<'a>(args: &[&'a str], k: usize) -> &'a str
    requires { k < length args.now }
    ensures { result.now ≡ nth (texts args.now) k }
{
    args[k]
}
