//! How faults name ops, assemblies and commands.

use crate::ops::Ops;
use cip_base::{Excerpt, ModuleId};
use cip_chassis::Topology;
use std::fmt;

/// A word of a line.
pub fn excerpt(word: &str) -> Excerpt {
    Excerpt::of(word.as_bytes())
}

/// The name of a module.
pub fn module_name(topology: &Topology, at: ModuleId) -> Excerpt {
    Excerpt::of(topology.name_of(at).unwrap_or(&[]))
}

/// The same as a text.
pub fn module_text(topology: &Topology, at: ModuleId) -> &str {
    std::str::from_utf8(topology.name_of(at).unwrap_or(&[])).unwrap_or("")
}

/// An op: its name, where it has one, its module and its number.
#[derive(Drop)]
pub struct OpName {
    name: Option<Excerpt>,
    module_: Excerpt,
    number: u32,
}

impl fmt::Display for OpName {
    fn fmt<W: fmt::Write>(&self, f: &mut fmt::Formatter<W>) -> fmt::Result {
        match &self.name {
            Some(name) => write!(f, "{name} ({}.{})", self.module_, self.number),
            None => write!(f, "{}.{}", self.module_, self.number),
        }
    }
}

impl OpName {
    /// An op that a word of a line names: by its name, or as MODULE.NUMBER.
    pub fn of_word(topology: &Topology, word: &str, at: ModuleId, number: u32) -> OpName {
        let name = if word.contains('.') {
            None
        } else {
            Some(excerpt(word))
        };
        OpName {
            name,
            module_: module_name(topology, at),
            number,
        }
    }

    /// An op of a module.
    pub fn of(topology: &Topology, ops: &Ops, at: ModuleId, number: u32) -> OpName {
        OpName {
            name: ops
                .name_of(at, number)
                .map(|name| Excerpt::of(name.as_slice())),
            module_: module_name(topology, at),
            number,
        }
    }
}

/// Where data come to: an op, or an assembly of a module.
#[derive(Drop)]
pub enum Place {
    Op(OpName),
    Assembly { instance: u32, module_: Excerpt },
}

impl fmt::Display for Place {
    fn fmt<W: fmt::Write>(&self, f: &mut fmt::Formatter<W>) -> fmt::Result {
        match self {
            Place::Op(op) => write!(f, "{op}"),
            Place::Assembly { instance, module_ } => write!(f, "{instance} of {module_}"),
        }
    }
}

/// What a command is about.
#[derive(Drop)]
pub enum Subject {
    Op(OpName),
    Assembly(u32),
}

impl fmt::Display for Subject {
    fn fmt<W: fmt::Write>(&self, f: &mut fmt::Formatter<W>) -> fmt::Result {
        match self {
            Subject::Op(op) => write!(f, "op {op}"),
            Subject::Assembly(instance) => write!(f, "assembly {instance}"),
        }
    }
}

/// A command that was given to a module: its word, and what it is about.
#[derive(Drop)]
pub struct Order {
    pub word: &'static str,
    pub module_: Excerpt,
    pub subject: Subject,
}

impl fmt::Display for Order {
    fn fmt<W: fmt::Write>(&self, f: &mut fmt::Formatter<W>) -> fmt::Result {
        write!(f, "{} of {} at {}", self.word, self.subject, self.module_)
    }
}
