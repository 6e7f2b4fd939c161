//! How the bytes are made that go on of a message, or go up: anew, or in the buffer in which the
//! message came.
ghost use Rattle.std.specs.Prelude.{◌≡◌, [], None, Some};
ghost use Rattle.cip_steps.specs.Code.Reacts.{reaction_of};

use crate::reaction::{Edit, Reaction};
use cip_base::Bytes;
use cip_event::Output;
use std::alloc::Global;

/// How the bytes are made that go on of a message, or go up.
#[derive(Clone, Copy)]
pub enum Making {
    /// They are written anew, before anything changes.
    Anew,
    /// Those that came are edited later, where they stand.
    Edited,
}

/// What was made: the bytes, or none yet and the edit that makes them.
#[derive(Drop)]
pub(crate) struct Outgoing {
    pub bytes: Bytes,
    pub edit: Option<Edit>,
}

impl Outgoing {
    /// Bytes that were written anew.
    #[inline(always)]
    pub(crate) fn anew(bytes: Bytes) -> Outgoing
        ensures { result ≡ record { bytes = bytes; edit = None } }
    {
        Outgoing { bytes, edit: None }
    }

    /// No bytes yet. It takes no memory.
    #[inline(always)]
    pub(crate) fn edited(alloc: Global, edit: Edit) -> Outgoing
        ensures { result ≡ record { bytes = []; edit = Some edit } }
    {
        Outgoing {
            bytes: Bytes::of(Vec::new(alloc)),
            edit: Some(edit),
        }
    }
}

impl Reaction {
    /// An output with what was made for it in it.
    #[inline(always)]
    pub(crate) fn with(output: Output, edit: Option<Edit>) -> Reaction
        ensures { result ≡ reaction_of edit output }
    {
        match edit {
            None => Reaction::Whole(output),
            Some(edit) => Reaction::Edited { output, edit },
        }
    }
}
