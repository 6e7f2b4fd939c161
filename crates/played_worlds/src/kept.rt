//! A writer that keeps the transcript.
ghost use Rattle.std.specs.Prelude.{None};

use cip_console::Sink;
use std::alloc::{AllocError, Global};
use std::io;

/// The most bytes of a transcript that is kept.
const ROOM: usize = 65_536;

/// What was written, in room that is reserved: keeping it takes no memory.
#[derive(Drop)]
pub struct Kept {
    bytes: Vec<u8>,
}

impl Kept {
    /// Nothing was written yet.
    pub fn new(alloc: Global) -> Result<Kept, AllocError> {
        Ok(Kept {
            bytes: Vec::with_capacity(alloc, ROOM)?,
        })
    }

    /// What was written.
    pub fn as_slice(&self) -> &[u8] {
        self.bytes.as_slice()
    }
}

impl Sink for Kept {
    ghost contents = { λ _. None };

    ghost has_refused = { λ _. Unit {0} };

    fn write(&mut self, buf: &[u8]) -> io::Result<usize> {
        let count = ROOM.saturating_sub(self.bytes.len()).min(buf.len());
        match self.bytes.extend_from_slice(&buf[..count]) {
            Ok(()) => Ok(count),
            Err(_) => Err(io::Error::from(io::ErrorKind::OutOfMemory)),
        }
    }
}
