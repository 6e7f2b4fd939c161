//! An assembly of a target.
ghost use Rattle.std.specs.Prelude.{◌≡◌};
ghost use Rattle.cip_target.specs.Held.{cleared};

use cip_base::{Bytes, Triad};
use std::alloc::Global;
use std::mem;

/// The bytes of an assembly, at most 65,535, and the connection that owns them as its output, if
/// one does.
#[derive(Drop)]
pub(crate) struct Assembly {
    pub(crate) bytes: Bytes,
    pub(crate) owner: Option<Triad>,
}

impl Assembly {
    /// As a target begins with it: as many bytes, all of them 00, and no owner. It takes no memory.
    pub(crate) fn clear(&mut self, alloc: Global)
        ensures { self.new ≡ cleared self.old }
    {
        let none = Bytes::of(Vec::new(alloc));
        let mut bytes = mem::replace(&mut self.bytes, none).into_vec();
        bytes.fill(0);
        self.bytes = Bytes::of(bytes);
        self.owner = None;
    }
}
