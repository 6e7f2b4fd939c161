//! Lines that are repeated.

use crate::fault::{LineFault, WideFault, WordFault, count_fault, word_fault};
use crate::lines::Line;
use cip_tool::number_u32;
use std::alloc::Global;

// How many blocks stand in one another at most.
const DEEPEST: usize = 16;

// How often a block is played at most.
const MOST: u32 = 1_000_000;

/// A block that is played: the place of its first line, and how often it is still to be played.
#[derive(Clone, Copy)]
pub(crate) struct Turn {
    pub(crate) start: usize,
    pub(crate) left: u32,
}

/// How often a block is played whose first line is this one; None where the line begins no block.
pub(crate) fn count_of(line: &Line<'_>) -> Result<Option<u32>, WideFault> {
    let (count, rest) = match line.words.as_slice() {
        ["repeat", count, rest @ ..] => (*count, rest),
        ["repeat"] => {
            let fault = count_fault("repeat", 0, "2, N {");
            return Err(WideFault::Line(line.number, fault));
        }
        _ => return Ok(None),
    };
    match rest {
        ["{"] => {}
        _ => {
            let found = rest.len().saturating_add(1);
            let fault = count_fault("repeat", found, "2, N {");
            return Err(WideFault::Line(line.number, fault));
        }
    }
    match number_u32(count) {
        Some(count) if count >= 1 && count <= MOST => Ok(Some(count)),
        _ => {
            let why = WordFault::NoNumber(1, MOST);
            let fault = word_fault("repeat", "N", count, why);
            Err(WideFault::Line(line.number, fault))
        }
    }
}

/// Whether the line ends a block.
pub(crate) fn is_end(line: &Line<'_>) -> Result<bool, WideFault> {
    match line.words.as_slice() {
        ["}"] => Ok(true),
        ["}", rest @ ..] => {
            let fault = count_fault("}", rest.len(), "0");
            Err(WideFault::Line(line.number, fault))
        }
        _ => Ok(false),
    }
}

/// Each block has its end, and they stand at most 16 in one another.
pub(crate) fn check_blocks(alloc: Global, lines: &[Line<'_>]) -> Result<(), WideFault> {
    let mut open: Vec<usize> = Vec::new(alloc);
    for line in lines {
        if count_of(line)?.is_some() {
            if open.len() >= DEEPEST {
                return Err(WideFault::Line(line.number, LineFault::TooDeep));
            }
            open.push(line.number)?;
        } else if is_end(line)? && open.pop().is_none() {
            return Err(WideFault::Line(line.number, LineFault::NotOpened));
        }
    }
    match open.last() {
        Some(number) => Err(WideFault::Line(*number, LineFault::NotClosed)),
        None => Ok(()),
    }
}

/// The place of the line to go on with behind the end of a block at this place.
pub(crate) fn after_end(turns: &mut Vec<Turn>, at: usize) -> usize {
    match turns.pop() {
        Some(turn) if turn.left > 1 => {
            let again = Turn {
                start: turn.start,
                left: turn.left - 1,
            };
            // There is room: one was taken away.
            match turns.push(again) {
                Ok(()) => turn.start,
                Err(_) => at.saturating_add(1),
            }
        }
        _ => at.saturating_add(1),
    }
}
