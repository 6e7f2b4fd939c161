//! Connections that expired, and frames that were dropped.

use crate::refusals::command_in;
use cip_base::{ModuleId, Triad};
use cip_chassis::Topology;
use cip_routing::{Command, Dropped, Output};
use cip_world::{Entry, FrameName, Input};

// The connection serial number of a command that opens, with its op.
fn serial_of(command: &Command) -> Option<(u32, u16)> {
    match command {
        Command::Open { op, params, .. } => Some((*op, params.serial)),
        Command::LargeOpen { op, params, .. } => Some((*op, params.serial)),
        _ => None,
    }
}

// The op and the connection serial number of an open of a module that was taken, where the entry is
// that.
fn opened_in(entry: &Entry, at: ModuleId) -> Option<(u32, u16)> {
    let found = command_in(entry)?;
    if found.at == at && found.refused.is_none() {
        serial_of(found.command)
    } else {
        None
    }
}

// Where an op of a module asked for its connection, and the serial number of that.
fn open_of(journal: &[Entry], at: ModuleId, number: u32) -> Option<(usize, u16)> {
    for (place, entry) in journal.iter().enumerate().rev() {
        if let Some((op, serial)) = opened_in(entry, at) {
            if op == number {
                return Some((place, serial));
            }
        }
    }
    None
}

fn is_expired(outputs: &[Output], triad: Triad) -> bool {
    for output in outputs {
        if let Output::Expired { triad: found } = output {
            if *found == triad {
                return true;
            }
        }
    }
    false
}

fn expires_in(entry: &Entry, at: ModuleId, triad: Triad) -> bool {
    match entry {
        Entry::Step {
            at: own,
            outputs,
            ..
        } => { *own == at && is_expired(outputs.as_slice(), triad) }
        Entry::Lost { .. } => false,
    }
}

// Whether a connection expires at a module in these entries, before its originator opens one of
// that serial number again.
fn expires_among(entries: &[Entry], at: ModuleId, triad: Triad, originator: ModuleId) -> bool {
    for entry in entries {
        if expires_in(entry, at, triad) {
            return true;
        }
        if let Some((_, serial)) = opened_in(entry, originator) {
            if serial == triad.serial {
                return false;
            }
        }
    }
    false
}

// The connection of this serial number that a module originates.
fn triad_of(topology: &Topology, at: ModuleId, serial: u16) -> Option<Triad> {
    let config = topology.configs().get(at.0)?;
    let identity = config.settings().identity.fields();
    Some(Triad {
        serial,
        vendor: identity.vendor,
        originator: identity.serial,
    })
}

/// Whether the connection for which an op of a module asked expired at another module, before one
/// of its serial number was asked for again. None where the op asked for no connection.
pub fn has_expired(
    topology: &Topology,
    journal: &[Entry],
    op: (ModuleId, u32),
    at: ModuleId,
) -> Option<bool> {
    let (place, serial) = open_of(journal, op.0, op.1)?;
    let triad = triad_of(topology, op.0, serial)?;
    let (_, behind) = journal.split_at_checked(place.saturating_add(1))?;
    Some(expires_among(behind, at, triad, op.0))
}

// Why a frame was dropped by these outputs, where it was.
fn dropped_in(outputs: &[Output]) -> Option<Dropped> {
    for output in outputs {
        if let Output::Dropped(dropped) = output {
            return Some(*dropped);
        }
    }
    None
}

/// The last frame that came to a module, and why it was dropped, where it was.
pub fn newest_frame(journal: &[Entry], at: ModuleId) -> Option<(FrameName, Option<Dropped>)> {
    for entry in journal.iter().rev() {
        if let Entry::Step {
            at: own,
            input: Input::Frame { name, .. },
            outputs,
        } = entry
        {
            if *own == at {
                return Some((*name, dropped_in(outputs.as_slice())));
            }
        }
    }
    None
}
