//! What was found in a topology file.

ghost use Rattle.std.specs.Prelude.{◌≡◌, ◌≤◌, IfOk};

use std::alloc::{AllocError, Global};
use std::fmt;

/// Lines, of which so many tell faults; the others are warnings.
#[derive(Drop)]
pub struct Report {
    lines: Vec<String>,
    faults: usize,
}

impl Report {
    /// Nothing was found yet.
    pub fn new(alloc: Global) -> Report
        ensures { result.faults ≡ 0 }
    {
        Report {
            lines: Vec::new(alloc),
            faults: 0,
        }
    }

    /// The lines, in the order in which they were found.
    pub fn lines(&self) -> &[String] {
        self.lines.as_slice()
    }

    /// How many of them are faults.
    pub fn faults(&self) -> usize
        ensures { result ≡ self.now.faults }
    {
        self.faults
    }

    /// A line that tells a fault. AllocError where an allocation is refused: what was found before
    /// stays.
    pub fn fault<T: fmt::Display>(&mut self, alloc: Global, fault: &T) -> Result<(), AllocError>
        ensures told { IfOk result (λ _. 1 ≤ self.new.faults) }
        ensures more { self.old.faults ≤ self.new.faults }
    {
        let mut line = String::new(alloc);
        write!(line, "{fault}")?;
        self.lines.push(line)?;
        self.faults = self.faults.saturating_add(1);
        Ok(())
    }

    /// A line that tells what is strange.
    pub(crate) fn warn<T: fmt::Display>(
        &mut self,
        alloc: Global,
        warning: &T,
    ) -> Result<(), AllocError>
        ensures { self.new.faults ≡ self.old.faults }
    {
        let mut line = String::new(alloc);
        write!(line, "warning: {warning}")?;
        self.lines.push(line)?;
        Ok(())
    }
}
