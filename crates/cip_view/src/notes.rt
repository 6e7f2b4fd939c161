//! The lines that show no part of an entry: the words that they have, and what trails and chains
//! are of.
use cip_base::{ModuleId, NoMemory};
use cip_book::Past;
use cip_read::CommandWord;
use cip_words::{number, number_u32, words};
use std::alloc::Global;

/// The words of a line; the reader has seen that they are those of its kind.
#[derive(Drop)]
pub(crate) struct NoteWords<'a> {
    words: Vec<&'a str>,
}

impl<'a> NoteWords<'a> {
    /// The words of a text. NoMemory where an allocation is refused.
    pub fn of(alloc: Global, text: &'a [u8]) -> Result<NoteWords<'a>, NoMemory> {
        let text = match std::str::from_utf8(text) {
            Ok(text) => text,
            Err(_) => "",
        };
        Ok(NoteWords {
            words: words(alloc, text)?,
        })
    }

    /// How many they are.
    pub fn len(&self) -> usize {
        self.words.len()
    }

    /// The word at a place; none has no letters.
    pub fn at(&self, k: usize) -> &'a str {
        match self.words.get(k) {
            Some(word) => *word,
            None => "",
        }
    }

    /// The number at a place, where one stands.
    pub fn number(&self, k: usize) -> Option<u64> {
        number(self.at(k))
    }

    /// The instance at a place.
    pub fn instance(&self, k: usize) -> u32 {
        number_u32(self.at(k)).unwrap_or(0)
    }
}

/// The request whose way a trail is: its module, command and op.
#[derive(Clone, Copy)]
pub(crate) struct Asked {
    pub at: ModuleId,
    pub command: CommandWord,
    pub op: u32,
}

/// The request whose way a trail is, where its first entry is kept.
pub(crate) fn trail_of(past: &Past<'_>, words: &NoteWords<'_>) -> Option<Asked> {
    let entry = words.number(1)?;
    let taken = past.of(entry as usize)?;
    let at = taken.at?;
    let (command, op) = taken.command?;
    match command {
        CommandWord::Send | CommandWord::Open | CommandWord::Large => {
            Some(Asked { at, command, op })
        }
        _ => None,
    }
}

/// The module that took the last entry of a trail, where it is kept.
pub(crate) fn last_of(past: &Past<'_>, words: &NoteWords<'_>) -> Option<ModuleId> {
    let entry = words.number(words.len().saturating_sub(1))?;
    past.of(entry as usize)?.at
}

// The places of the modules of a chain, whose instances stand at a place and behind it.
fn chain_modules(
    alloc: Global,
    past: &Past<'_>,
    words: &NoteWords<'_>,
    end: usize,
) -> Result<Vec<usize>, NoMemory> {
    let mut modules = Vec::new(alloc);
    for k in 1..end {
        if let Some(place) = past.place_of(words.at(k).as_bytes()) {
            modules.push(place)?;
        }
    }
    Ok(modules)
}

/// The ops of which the connection of a chain may be, in rising order, one more at most than are
/// told: those that are open where it begins, with the same modules and instances. None where the
/// run was not read from its first entry on. NoMemory where an allocation is refused.
pub(crate) fn chain_ops(
    alloc: Global,
    past: &Past<'_>,
    words: &NoteWords<'_>,
) -> Result<Vec<u32>, NoMemory> {
    let Some(opens) = past.opens() else {
        return Ok(Vec::new(alloc));
    };
    let end = words.len().saturating_sub(2);
    let (ot, to) = (words.instance(end), words.instance(end.saturating_add(1)));
    let modules = chain_modules(alloc, past, words, end)?;
    opens.by(alloc, modules.as_slice(), ot, to)
}
