//! The words of an expectation.

use crate::fault::{LineError, WordFault, wrong_word};
use cip_base::{Bytes, ModuleId};
use cip_chassis::Topology;
use cip_outcomes::{Code, Ops, name_of, nearest};
use cip_tool::{HexFault, hex_fault, number_u16, number_u32};
use hex::FromHexError;
use std::alloc::Global;

/// An op, and the word that names it.
#[derive(Clone, Copy)]
pub(crate) struct Named<'a> {
    pub(crate) word: &'a str,
    pub(crate) at: ModuleId,
    pub(crate) number: u32,
}

// The op MODULE.NUMBER.
fn numbered(topology: &Topology, word: &str) -> Option<(ModuleId, u32)> {
    let (name, number) = word.split_once('.')?;
    let at = topology.by_name(name.as_bytes())?;
    Some((at, number_u32(number)?))
}

/// The op that a word names.
pub(crate) fn op_of<'a>(
    alloc: Global,
    topology: &Topology,
    ops: &Ops,
    word: &'a str,
) -> Result<Named<'a>, LineError> {
    let found = match name_of(word) {
        Some(name) => ops.find(&name),
        None => numbered(topology, word),
    };
    match found {
        Some((at, number)) => Ok(Named { word, at, number }),
        None => {
            let names = ops.words(alloc, None)?;
            let near = nearest(alloc, word, names.as_slice())?;
            Err(wrong_word(alloc, "expect", "OP", word, WordFault::NoOpWord(near)))
        }
    }
}

/// Bytes of pairs of hexadecimal digits, a dash for none.
pub(crate) fn bytes_of(alloc: Global, word: &str) -> Result<Bytes, LineError> {
    if word == "-" {
        return Ok(Bytes::of(Vec::new(alloc)));
    }
    if let Some(fault) = hex_fault(word) {
        let why = WordFault::NoBytes(fault);
        return Err(wrong_word(alloc, "expect", "BYTES", word, why));
    }
    match hex::decode(alloc, word) {
        Ok(bytes) => Ok(Bytes::of(bytes)),
        Err(FromHexError::OutOfMemory) => Err(LineError::NoMemory),
        Err(_) => {
            let why = WordFault::NoBytes(HexFault::Odd(word.len()));
            Err(wrong_word(alloc, "expect", "BYTES", word, why))
        }
    }
}

// The number of hexadecimal digits, just so many.
fn digits_of(digits: &str, count: usize) -> Option<u32> {
    if digits.len() != count {
        return None;
    }
    let mut number = 0u32;
    for digit in digits.chars() {
        number = number.checked_mul(16)?.checked_add(digit.to_digit(16)?)?;
    }
    Some(number)
}

/// The status `00`, or `01/0109`.
pub(crate) fn code_of(word: &str) -> Option<Code> {
    let (general, additional) = match word.split_once('/') {
        Some((general, additional)) => (general, Some(digits_of(additional, 4)?)),
        None => (word, None),
    };
    Some(Code {
        general: u8::try_from(digits_of(general, 2)?).ok()?,
        additional: match additional {
            Some(additional) => u16::try_from(additional).ok(),
            None => None,
        },
    })
}

/// The instance of an assembly.
pub(crate) fn instance_of(alloc: Global, word: &str) -> Result<u32, LineError> {
    match number_u32(word) {
        Some(instance) => Ok(instance),
        None => {
            let why = WordFault::NoNumber(0, u32::MAX);
            Err(wrong_word(alloc, "expect", "INSTANCE", word, why))
        }
    }
}

/// The number of an attribute.
pub(crate) fn attribute_number(alloc: Global, word: &str) -> Result<u16, LineError> {
    match number_u16(word) {
        Some(number) => Ok(number),
        None => {
            let why = WordFault::NoNumber(0, 65_535);
            Err(wrong_word(alloc, "expect", "ATTRIBUTE", word, why))
        }
    }
}

static REASONS: [&str; 5] = [
    "OpUsed",
    "NotOpen",
    "WrongSize",
    "ReservedService",
    "NoInstance",
];

static DROPS: [&str; 4] = ["Malformed", "Late", "UnknownId", "WrongSize"];

fn stands_in(word: &str, names: &[&str]) -> bool {
    for name in names {
        if *name == word {
            return true;
        }
    }
    false
}

/// The word is a reason for which a command is refused.
pub(crate) fn check_reason(alloc: Global, word: &str) -> Result<(), LineError> {
    if stands_in(word, &REASONS) {
        return Ok(());
    }
    let why = WordFault::NoReason(nearest(alloc, word, &REASONS)?);
    Err(wrong_word(alloc, "expect", "REASON", word, why))
}

/// The word is a reason for which a frame is dropped.
pub(crate) fn check_drop(alloc: Global, word: &str) -> Result<(), LineError> {
    if stands_in(word, &DROPS) {
        return Ok(());
    }
    let why = WordFault::NoDrop(nearest(alloc, word, &DROPS)?);
    Err(wrong_word(alloc, "expect", "REASON", word, why))
}
