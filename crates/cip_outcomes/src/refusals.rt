//! Commands that a module refuses.

use crate::naming::{OpName, Order, Subject, module_name};
use crate::ops::Ops;
use cip_base::{ModuleId, NoMemory};
use cip_chassis::Topology;
use cip_config::ModuleSettings;
use cip_routing::{Command, Output, Refused};
use cip_world::{Entry, Input, Shown, World};
use std::fmt;

/// How many bytes were given, and how many are wanted.
#[derive(Clone, Copy)]
pub struct Sizes {
    pub given: usize,
    pub wanted: usize,
}

/// A command that was refused, and why.
#[derive(Drop)]
pub struct Refusal {
    order: Order,
    reason: Refused,
    sizes: Option<Sizes>,
}

// What a reason means.
fn meaning(reason: Refused) -> &'static str {
    match reason {
        Refused::OpUsed => "the op was used before",
        Refused::NotOpen => "no connection of the op is open there",
        Refused::WrongSize => "the request is too long",
        Refused::ReservedService => "an Unconnected_Send in an Unconnected_Send",
        Refused::NoInstance => "the module has no such assembly",
    }
}

// What a reason means, or the sizes where those are told.
#[derive(Clone, Copy)]
struct ReasonText {
    reason: Refused,
    sizes: Option<Sizes>,
}

impl fmt::Display for ReasonText {
    fn fmt<W: fmt::Write>(&self, f: &mut fmt::Formatter<W>) -> fmt::Result {
        match self.sizes {
            Some(Sizes { given, wanted }) => {
                write!(f, "the size is {given}, and {wanted} is wanted")
            }
            None => f.write_str(meaning(self.reason)),
        }
    }
}

impl fmt::Display for Refusal {
    fn fmt<W: fmt::Write>(&self, f: &mut fmt::Formatter<W>) -> fmt::Result {
        let Order {
            word,
            module_,
            subject,
        } = &self.order;
        let reason = self.reason;
        let why = ReasonText {
            reason,
            sizes: self.sizes,
        };
        write!(
            f,
            "{word}: {module_} refuses {subject}: {reason:?}, {why}; \
                `expect refused {reason:?}` directly behind it allows that"
        )
    }
}

/// Why a command was refused by these outputs, where it was.
pub fn refused_in(outputs: &[Output]) -> Option<Refused> {
    for output in outputs {
        if let Output::Refused(refused) = output {
            return Some(*refused);
        }
    }
    None
}

/// A command in a journal, with its module, and why it was refused, where it was.
#[derive(Clone, Copy)]
pub struct Given<'a> {
    pub at: ModuleId,
    pub command: &'a Command,
    pub refused: Option<Refused>,
}

/// The command of an entry.
pub fn command_in(entry: &Entry) -> Option<Given<'_>> {
    match entry {
        Entry::Step {
            at,
            input: Input::Command(command),
            outputs,
        } => Some(Given {
            at: *at,
            command,
            refused: refused_in(outputs.as_slice()),
        }),
        _ => None,
    }
}

/// The newest command.
pub fn newest_given(journal: &[Entry]) -> Option<Given<'_>> {
    for entry in journal.iter().rev() {
        if let Some(found) = command_in(entry) {
            return Some(found);
        }
    }
    None
}

/// Whether the entry of this number is a command that was refused.
pub fn is_refused(journal: &[Entry], entry: usize) -> bool {
    match journal.get(entry) {
        Some(entry) => match command_in(entry) {
            Some(found) => found.refused.is_some(),
            None => false,
        },
        None => false,
    }
}

// The word of a command.
fn word_of(command: &Command) -> &'static str {
    match command {
        Command::Open { .. } => "open",
        Command::LargeOpen { .. } => "large",
        Command::Close { .. } => "close",
        Command::Send { .. } => "send",
        Command::Enter { .. } => "enter",
        Command::Set { .. } => "set",
        Command::Produce { .. } => "produce",
    }
}

// What a command of a module is about. A Close is about the connection where it is not open.
fn subject_of(topology: &Topology, ops: &Ops, found: Given<'_>) -> Subject {
    let number = match found.command {
        Command::Set { instance, .. } => return Subject::Assembly(*instance),
        Command::Produce { instance } => return Subject::Assembly(*instance),
        Command::Close { of, .. } if found.refused == Some(Refused::NotOpen) => *of,
        Command::Close { op, .. } => *op,
        Command::Open { op, .. } => *op,
        Command::LargeOpen { op, .. } => *op,
        Command::Send { op, .. } => *op,
        Command::Enter { of, .. } => *of,
    };
    Subject::Op(OpName::of(topology, ops, found.at, number))
}

/// How a fault names a command.
pub fn order_of(topology: &Topology, ops: &Ops, found: Given<'_>) -> Order {
    Order {
        word: word_of(found.command),
        module_: module_name(topology, found.at),
        subject: subject_of(topology, ops, found),
    }
}

// The size of an assembly of a module.
fn size_in(settings: &ModuleSettings, instance: u32) -> Option<usize> {
    for assembly in settings.assemblies.as_slice() {
        if u32::from(assembly.instance) == instance {
            return Some(usize::from(assembly.size));
        }
    }
    None
}

/// The bytes that an assembly of a module has.
pub fn assembly_size(topology: &Topology, at: ModuleId, instance: u32) -> Option<usize> {
    match topology.configs().get(at.0) {
        Some(config) => size_in(config.settings(), instance),
        None => None,
    }
}

// The size of the data that a connection takes from its originator.
fn entered_size(world: &World, at: ModuleId, of: u32) -> Result<Option<usize>, NoMemory>
    requires stand { ⟦<World as Shown>⟧.stands world.now }
{
    match world.row_by_op(at, of)? {
        Some(row) => Ok(Some(usize::from(row.ot_size))),
        None => Ok(None),
    }
}

// The size that was given, and the one that is wanted, where a command has the wrong one.
fn sizes_of(world: &World, found: Given<'_>) -> Result<Option<Sizes>, NoMemory>
    requires stand { ⟦<World as Shown>⟧.stands world.now }
{
    if found.refused != Some(Refused::WrongSize) {
        return Ok(None);
    }
    let (given, wanted) = match found.command {
        Command::Enter { of, bytes } => (
            bytes.as_slice().len(),
            entered_size(world, found.at, *of)?,
        ),
        Command::Set { instance, bytes } => {
            let size = assembly_size(world.topology(), found.at, *instance);
            (bytes.as_slice().len(), size)
        }
        _ => return Ok(None),
    };
    Ok(wanted.map(|wanted| Sizes { given, wanted }))
}

/// Why the newest command was refused, where it was.
pub fn refusal_of(world: &World, ops: &Ops) -> Result<Option<Refusal>, NoMemory>
    requires stand { ⟦<World as Shown>⟧.stands world.now }
{
    let Some(found) = newest_given(world.journal()) else {
        return Ok(None);
    };
    let Some(reason) = found.refused else {
        return Ok(None);
    };
    let sizes = sizes_of(world, found)?;
    Ok(Some(Refusal {
        order: order_of(world.topology(), ops, found),
        reason,
        sizes,
    }))
}
