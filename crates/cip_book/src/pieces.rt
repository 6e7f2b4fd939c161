//! Text that comes in pieces, line by line.
ghost use Rattle.std.specs.Prelude.{◌≡◌, ◌++◌, [], IfOk};
ghost use Rattle.std.specs.Str.Lines.{strip_carriage_return};

use cip_base::NoMemory;
use std::alloc::Global;

// A line without the one carriage return at its end.
fn without_return(line: &[u8]) -> &[u8]
    ensures { result.now ≡ strip_carriage_return line.now }
{
    match line.strip_suffix(b"\r") {
        Some(rest) => rest,
        None => line,
    }
}

/// The line that is not yet at its end.
#[derive(Drop)]
pub struct Pieces {
    held: Vec<u8>,
}

impl Pieces {
    /// No text came yet.
    pub fn new(alloc: Global) -> Pieces
        ensures { result.held.items ≡ [] }
    {
        Pieces {
            held: Vec::new(alloc),
        }
    }

    /// The text of the line so far.
    pub fn held(&self) -> &[u8]
        ensures { result.now ≡ self.now.held.items }
    {
        self.held.as_slice()
    }

    /// The line, which has come to its end: its text so far without the one carriage return there.
    pub fn line(&self) -> &[u8]
        ensures { result.now ≡ strip_carriage_return self.now.held.items }
    {
        without_return(self.held.as_slice())
    }

    /// More of the line.
    pub fn put(&mut self, part: &[u8]) -> Result<(), NoMemory>
        ensures { IfOk result (λ _. self.new.held.items ≡ self.old.held.items ++ part.now) }
    {
        self.held.extend_from_slice(part)?;
        Ok(())
    }

    /// The next line begins.
    pub fn clear(&mut self)
        ensures { self.new.held.items ≡ [] }
    {
        self.held.clear();
    }
}
