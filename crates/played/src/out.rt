//! The text that goes out, and the marks in it.
use crate::fault::Fault;
use std::alloc::Global;

/// How much text is kept before it goes out.
const PIECE: usize = 32_768;

/// What goes to the standard output: text in large pieces, and each mark by itself.
#[derive(Drop)]
pub struct Out<'a> {
    rt: &'a HostRuntime,
    text: String,
}

impl Out<'_> {
    /// Nothing went out yet.
    pub fn new(rt: &HostRuntime) -> Out<'_> {
        Out {
            rt,
            text: String::new(rt.alloc()),
        }
    }

    /// The allocator of what goes out.
    pub fn alloc(&self) -> Global {
        self.rt.alloc()
    }

    /// All that was kept goes out.
    pub fn flush(&mut self) -> Result<(), Fault> {
        print!(self.rt; "{}", self.text)?;
        self.text.clear();
        Ok(())
    }

    /// These lines, and an empty one.
    pub fn put(&mut self, lines: &str) -> Result<(), Fault> {
        self.text.push_str(lines)?;
        self.text.push_str("\n")?;
        if self.text.len() >= PIECE {
            self.flush()?;
        }
        Ok(())
    }

    /// A mark, which goes out at once.
    pub fn mark(&mut self, mark: &str) -> Result<(), Fault> {
        print!(self.rt; "{mark}")?;
        Ok(())
    }
}
