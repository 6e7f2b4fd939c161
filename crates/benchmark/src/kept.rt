//! A writer that keeps what is written.
ghost use Rattle.std.specs.Prelude.{None};

use crate::fault::Fault;
use cip_console::Sink;
use std::alloc::Global;
use std::io;

/// What was written, in room that is kept when it begins anew.
#[derive(Drop)]
pub struct Kept {
    bytes: Vec<u8>,
}

impl Kept {
    /// Nothing was written yet, and there is room for so many bytes. NoMemory where an allocation
    /// is refused.
    pub fn new(alloc: Global, room: usize) -> Result<Kept, Fault> {
        Ok(Kept {
            bytes: Vec::with_capacity(alloc, room)?,
        })
    }

    /// Nothing was written again.
    pub fn clear(&mut self) {
        self.bytes.clear();
    }

    /// More is written. NoMemory where an allocation is refused.
    pub fn put(&mut self, bytes: &[u8]) -> Result<(), Fault> {
        self.bytes.extend_from_slice(bytes)?;
        Ok(())
    }

    /// What was written.
    pub fn as_slice(&self) -> &[u8] {
        self.bytes.as_slice()
    }
}

impl Sink for Kept {
    ghost contents = { λ _. None };

    ghost has_refused = { λ _. Unit {0} };

    fn write(&mut self, buf: &[u8]) -> io::Result<usize> {
        match self.bytes.extend_from_slice(buf) {
            Ok(()) => Ok(buf.len()),
            Err(_) => Err(io::Error::from(io::ErrorKind::OutOfMemory)),
        }
    }
}
