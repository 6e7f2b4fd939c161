//! The ops of a script.

use cip_base::{ModuleId, NoMemory};
use cip_chassis::Name;
use cip_ends::{Names, Op};
use std::alloc::{AllocError, Global};

/// The ops that were named, and the greatest number of an op that each module was given.
#[derive(Drop)]
pub struct Ops {
    named: Names,
    greatest: Vec<u32>,
}

/// The name that a word is: one of a topology file that begins with a letter.
pub fn name_of(word: &str) -> Option<Name> {
    match word.as_bytes() {
        [first, ..] if first.is_ascii_alphabetic() => Name::read(word.as_bytes()),
        _ => None,
    }
}

impl Ops {
    /// None, for so many modules.
    pub fn new(alloc: Global, modules: usize) -> Result<Ops, AllocError> {
        Ok(Ops {
            named: Names::new(alloc),
            greatest: Vec::from_elem(alloc, 0u32, modules)?,
        })
    }

    /// A number above those that the module was given.
    pub fn fresh(&self, at: ModuleId) -> Option<u32> {
        match self.greatest.get(at.0) {
            Some(greatest) => greatest.checked_add(1),
            None => None,
        }
    }

    /// The module was given an op of this number.
    pub fn note(&mut self, at: ModuleId, number: u32) {
        if let Some(greatest) = self.greatest.get_mut(at.0) {
            if *greatest < number {
                *greatest = number;
            }
        }
    }

    /// The op of this number of the module has this name from now on.
    pub fn name(&mut self, name: Name, at: ModuleId, number: u32) -> Result<(), NoMemory> {
        self.note(at, number);
        self.named.push(Op { name, at, number })
    }

    /// The name that an op of the module got last.
    pub fn name_of(&self, at: ModuleId, number: u32) -> Option<&Name> {
        for op in self.named.as_slice().iter().rev() {
            if op.at == at && op.number == number {
                return Some(&op.name);
            }
        }
        None
    }

    /// The names of ops, of the module where one is given.
    pub fn words(&self, alloc: Global, at: Option<ModuleId>) -> Result<Vec<&str>, AllocError> {
        let mut words = Vec::new(alloc);
        for op in self.named.as_slice() {
            if at.is_none() || at == Some(op.at) {
                words.push(std::str::from_utf8(op.name.as_slice()).unwrap_or(""))?;
            }
        }
        Ok(words)
    }

    /// The number of the module's op that got the name last.
    pub fn number(&self, name: &Name, at: ModuleId) -> Option<u32> {
        match self.named.newest(name, Some(at)) {
            Some(op) => Some(op.number),
            None => None,
        }
    }

    /// The module and the number of the op that got the name last.
    pub fn find(&self, name: &Name) -> Option<(ModuleId, u32)> {
        match self.named.newest(name, None) {
            Some(op) => Some((op.at, op.number)),
            None => None,
        }
    }
}
