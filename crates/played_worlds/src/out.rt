//! The text that goes out, and the marks in it.
use crate::fault::Fault;
use std::alloc::Global;

/// What stands about a call.
#[derive(Clone, Copy)]
pub enum Guard {
    /// The marks between which memory may be refused.
    Marks,
    Nothing,
}

/// What goes to the standard output: the text of a line at once, and each mark by itself.
#[derive(Drop)]
pub struct Out<'a> {
    rt: &'a HostRuntime,
    text: String,
}

impl Out<'_> {
    /// Nothing went out yet.
    pub fn new(rt: &HostRuntime) -> Out<'_> {
        Out {
            rt,
            text: String::new(rt.alloc()),
        }
    }

    /// The allocator of what goes out.
    pub fn alloc(&self) -> Global {
        self.rt.alloc()
    }

    /// All that was kept goes out.
    pub fn flush(&mut self) -> Result<(), Fault> {
        print!(self.rt; "{}", self.text)?;
        self.text.clear();
        Ok(())
    }

    /// Keeps this text.
    pub fn put(&mut self, text: &str) -> Result<(), Fault> {
        Ok(self.text.push_str(text)?)
    }

    /// Keeps this text, which is all ASCII.
    pub fn put_bytes(&mut self, bytes: &[u8]) -> Result<(), Fault> {
        match std::str::from_utf8(bytes) {
            Ok(text) => self.put(text),
            Err(_) => Err(Fault::Line),
        }
    }

    /// Where there are marks, `>` goes out by itself: from here on memory may be refused.
    pub fn begin(&mut self, guard: Guard) -> Result<(), Fault> {
        match guard {
            Guard::Nothing => Ok(()),
            Guard::Marks => {
                self.flush()?;
                print!(self.rt; ">")?;
                Ok(())
            }
        }
    }

    /// Where there are marks, `<` goes out by itself, and ends a line on which they stand alone.
    pub fn end(&mut self, guard: Guard) -> Result<(), Fault> {
        match guard {
            Guard::Nothing => Ok(()),
            Guard::Marks => {
                print!(self.rt; "<")?;
                self.put("\n")
            }
        }
    }
}
