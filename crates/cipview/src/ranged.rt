//! A view of the entries from one on.
use crate::fault::Fault;
use cip_base::NoMemory;
use cip_read::Line;
use cip_view::{Ending, View};
use std::alloc::Global;

/// A view of the entries from one on, the last entry that was read, and how many bytes went out.
/// Where the last entry stands before the first one to be shown, nothing is shown.
#[derive(Drop)]
pub struct Ranged<V> {
    inner: V,
    from: usize,
    last: Option<usize>,
    bytes: u64,
}

// The number of the entry of which a line is the first.
fn entry_of(line: &Line) -> Option<usize> {
    match line {
        Line::Step { entry, .. } => Some(*entry),
        Line::Lost { entry, .. } => Some(*entry),
        Line::Output { .. } => None,
        Line::Note(_) => None,
    }
}

impl<V: View> Ranged<V> {
    /// A view that shows the entries from this one on. Nothing was read yet.
    pub fn of(inner: V, from: usize) -> Ranged<V> {
        Ranged {
            inner,
            from,
            last: None,
            bytes: 0,
        }
    }

    /// How many bytes went out.
    pub fn bytes(&self) -> u64 {
        self.bytes
    }

    fn is_past_end(&self) -> bool {
        match self.last {
            Some(last) => last < self.from,
            None => 0 < self.from,
        }
    }

    /// PastEnd or NoEntry where the transcript ended before the first entry to be shown.
    pub fn check(&self) -> Result<(), Fault> {
        if !self.is_past_end() {
            return Ok(());
        }
        match self.last {
            Some(last) => Err(Fault::PastEnd(self.from, last)),
            None => Err(Fault::NoEntry(self.from)),
        }
    }
}

impl<V: View> View for Ranged<V> {
    ghost gathered = { λ s. V.gathered s.inner };

    fn line(&mut self, alloc: Global, text: &[u8], line: Line) -> Result<(), NoMemory> {
        if let Some(entry) = entry_of(&line) {
            self.last = Some(entry);
        }
        self.inner.line(alloc, text, line)
    }

    fn end(&mut self, alloc: Global, rest: &[u8], ending: Ending) -> Result<(), NoMemory> {
        if self.is_past_end() {
            return Ok(());
        }
        self.inner.end(alloc, rest, ending)
    }

    fn written(&self) -> &[u8] {
        self.inner.written()
    }

    fn clear(&mut self) {
        let count = self.inner.written().len();
        self.bytes = self.bytes.saturating_add(count as u64);
        self.inner.clear()
    }
}
