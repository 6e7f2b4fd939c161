//! Frames on their way.
ghost use Rattle.std.specs.Prelude.{◌≡◌, reverse, option_map, slice_get, Option, Some, None};
ghost use Rattle.cip_world.specs.Journals.{flight_of, sent_by, frame_at};
ghost use Rattle.cip_world.specs.Coming.{flight};

use crate::journal::Entry;
use cip_base::{Address, ModuleId, PortNumber};
use cip_event::FrameName;
use cip_routing::{Body, Output};

/// A frame that a module sent by a port to an address.
#[derive(Clone, Copy)]
pub struct Flying<'a> {
    pub at: ModuleId,
    pub port: PortNumber,
    pub to: &'a Address,
    pub body: &'a Body,
}

/// A frame with where it comes in: at which module, by which of its ports, and from which address.
#[derive(Clone, Copy)]
pub struct Coming<'a> {
    pub at: ModuleId,
    pub port: PortNumber,
    pub from: &'a Address,
    pub body: &'a Body,
}

// The frame that an output of a module is.
fn sent(at: ModuleId, output: &Output) -> Option<Flying<'_>>
    ensures { option_map flight result ≡ flight_of at.0 (Some output.now) }
{
    match output {
        Output::Send { port, to, body } => Some(Flying {
            at,
            port: *port,
            to,
            body,
        }),
        _ => None,
    }
}

// The frame of a name, by its entry.
fn sent_frame(entries: &[Entry], name: FrameName) -> Option<Flying<'_>>
    ensures { option_map flight result ≡ sent_by (slice_get entries.now name.entry) name.output }
{
    match entries.get(name.entry) {
        Some(Entry::Step { at, outputs, .. }) => match outputs.as_slice().get(name.output) {
            Some(output) => sent(*at, output),
            None => None,
        },
        _ => None,
    }
}

/// The frame of a name, in a journal that stands oldest entry first.
pub fn frame_at(entries: &[Entry], name: FrameName) -> Option<Flying<'_>>
    ensures { option_map flight result ≡ frame_at (reverse entries.now) name }
{
    sent_frame(entries, name)
}
