//! The terminal at the standard error, as the screen of a long run.
use cip_console::{Line, Screen};
use std::io::IsTerminal;
use std::time::Instant;

/// Shows how far a run is where the standard error is a terminal, and nothing elsewhere.
#[derive(Drop)]
pub struct Terminal<'a> {
    rt: &'a HostRuntime,
    // when the run began, where there is a terminal
    begun: Option<Instant>,
}

impl Terminal<'_> {
    /// The terminal of a run that begins now.
    pub fn new(rt: &HostRuntime) -> Terminal<'_> {
        let begun = if rt.stderr().is_terminal() {
            Instant::now(rt).ok()
        } else {
            None
        };
        Terminal { rt, begun }
    }
}

impl Screen for Terminal<'_> {
    fn elapsed(&mut self) -> u64 {
        match self.begun {
            Some(begun) => match begun.elapsed(self.rt) {
                Ok(elapsed) => u64::try_from(elapsed.as_millis()).unwrap_or(u64::MAX),
                Err(_) => 0,
            },
            None => 0,
        }
    }

    fn has_transcript(&self) -> bool {
        self.rt.stdout().is_terminal()
    }

    fn show(&mut self, line: Line) {
        let _ = eprint!(self.rt; "{line}");
    }
}
