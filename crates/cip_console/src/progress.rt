//! How far a long run is, told on a screen beside its transcript.
ghost use Rattle.std.specs.Prelude.{◌≡◌};

use crate::source::Sink;
use cip_world::FrameName;
use std::{fmt, io};

/// How long a run is before it is first told how far it is, in milliseconds.
const FIRST: u64 = 1_000;

/// The least time from one telling to the next, in milliseconds.
const AGAIN: u64 = 100;

/// What stands in the screen's one line, written over what stood there.
#[derive(Clone, Copy, Debug, PartialEq, Eq)]
pub enum Line {
    /// So many entries are done, and so many frames wait.
    Progress { done: usize, waiting: usize },
    /// Nothing.
    Cleared,
}

impl fmt::Display for Line {
    fn fmt<W: fmt::Write>(&self, f: &mut fmt::Formatter<W>) -> fmt::Result {
        match self {
            Line::Progress { done, waiting } => {
                write!(f, "\r{done} entries done, {waiting} frames waiting\x1b[K")
            }
            Line::Cleared => f.write_str("\r\x1b[K"),
        }
    }
}

/// Where people look while a run is under way.
pub trait Screen {
    /// How long the run is under way, in milliseconds.
    fn elapsed(&mut self) -> u64;

    /// Whether the transcript goes to the same screen.
    fn has_transcript(&self) -> bool;

    /// Shows a line in place of the one before. What fails there is no fault of the run.
    fn show(&mut self, line: Line);
}

/// A sink beside a screen, which is told how far the run is once that takes more than a second.
#[derive(Drop)]
pub struct Watched<W, S> {
    pub inner: W,
    screen: S,
    // when the screen is told next, in milliseconds from the beginning
    due: u64,
    is_shown: bool,
    waiting: Option<Vec<FrameName>>,
}

impl<W, S: Screen> Watched<W, S> {
    /// A sink beside a screen that shows nothing yet.
    pub fn of(inner: W, screen: S) -> Watched<W, S>
        ensures { result.inner ≡ inner }
    {
        Watched {
            inner,
            screen,
            due: FIRST,
            is_shown: false,
            waiting: None,
        }
    }

    /// The frames that wait where a run has stopped, once; None where none has.
    pub fn take_waiting(&mut self) -> Option<Vec<FrameName>>
        ensures { self.new.inner ≡ self.old.inner }
    {
        self.waiting.take()
    }

    /// Takes the line away, at the end of a run.
    pub fn clear(&mut self)
        ensures { self.new.inner ≡ self.old.inner }
    {
        if self.is_shown {
            self.screen.show(Line::Cleared);
            self.is_shown = false;
        }
    }

    // Where the transcript goes to the same screen, it begins where the line stood.
    fn make_room(&mut self)
        ensures { self.new.inner ≡ self.old.inner }
    {
        if self.screen.has_transcript() {
            self.clear();
        }
    }
}

impl<W: Sink, S: Screen> Sink for Watched<W, S> {
    ghost contents = { λ s. W.contents s.inner };

    ghost has_refused = { λ s. W.has_refused s.inner };

    fn write(&mut self, buf: &[u8]) -> io::Result<usize> {
        self.make_room();
        self.inner.write(buf)
    }

    fn is_due(&mut self) -> bool {
        self.due <= self.screen.elapsed()
    }

    fn tell(&mut self, done: usize, waiting: usize) {
        self.screen.show(Line::Progress { done, waiting });
        self.is_shown = true;
        self.due = self.screen.elapsed().saturating_add(AGAIN);
    }

    fn tell_waiting(&mut self, waiting: Vec<FrameName>) {
        self.waiting = Some(waiting);
    }
}
