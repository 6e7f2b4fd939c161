//! A reader and a writer that note why they failed.
use cip_console::{Sink, Source};
use std::io;
use std::io::{ErrorKind, Read, Write};

/// A reader, and whether it is a directory, which a read alone tells.
#[derive(Drop)]
pub struct Noted<R> {
    inner: R,
    pub is_directory: bool,
}

impl<R: Read> Noted<R> {
    /// A reader that has not failed yet.
    pub fn of(inner: R) -> Noted<R> {
        Noted {
            inner,
            is_directory: false,
        }
    }
}

impl<R: Read> Source for Noted<R> {
    ghost remaining = { λ s. R.remaining s.inner };

    ghost has_failed = { λ _. Unit {0} };

    ghost asks = { λ _. 0 };

    fn read(&mut self, buf: &mut [u8]) -> io::Result<usize> {
        match self.inner.read(buf) {
            Ok(count) => Ok(count),
            Err(error) => {
                self.is_directory = error.kind() == ErrorKind::IsADirectory;
                Err(error)
            }
        }
    }
}

/// A writer, and whether nobody reads what is written, which a write alone tells.
#[derive(Drop)]
pub struct NotedOut<W> {
    inner: W,
    pub is_unwanted: bool,
}

impl<W: Write> NotedOut<W> {
    /// A writer that has not failed yet.
    pub fn of(inner: W) -> NotedOut<W> {
        NotedOut {
            inner,
            is_unwanted: false,
        }
    }
}

impl<W: Write> Sink for NotedOut<W> {
    ghost contents = { λ s. W.contents s.inner };

    ghost has_refused = { λ _. Unit {0} };

    fn write(&mut self, buf: &[u8]) -> io::Result<usize> {
        match self.inner.write(buf) {
            Ok(count) => Ok(count),
            Err(error) => {
                self.is_unwanted = error.kind() == ErrorKind::BrokenPipe;
                Err(error)
            }
        }
    }
}
