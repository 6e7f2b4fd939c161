//! A writer that notes why it failed.
use cip_console::Sink;
use std::io;
use std::io::{ErrorKind, Write};

/// A writer, and whether nobody reads what is written, which a write alone tells.
#[derive(Drop)]
pub struct NotedOut<W> {
    inner: W,
    pub is_unwanted: bool,
}

impl<W: Write> NotedOut<W> {
    /// A writer that has not failed yet.
    pub fn of(inner: W) -> NotedOut<W> {
        NotedOut {
            inner,
            is_unwanted: false,
        }
    }
}

impl<W: Write> Sink for NotedOut<W> {
    ghost contents = { λ s. W.contents s.inner };

    ghost has_refused = { λ _. Unit {0} };

    fn write(&mut self, buf: &[u8]) -> io::Result<usize> {
        match self.inner.write(buf) {
            Ok(count) => Ok(count),
            Err(error) => {
                self.is_unwanted = error.kind() == ErrorKind::BrokenPipe;
                Err(error)
            }
        }
    }
}
