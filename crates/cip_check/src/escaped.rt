//! Names of files as faults tell them.

use std::fmt;

/// A name, each character of it that controls a terminal as its number; quotation marks where it is
/// empty.
#[derive(Clone, Copy)]
pub struct Escaped<'a>(pub &'a str);

impl fmt::Display for Escaped<'_> {
    fn fmt<W: fmt::Write>(&self, f: &mut fmt::Formatter<W>) -> fmt::Result {
        if self.0.is_empty() {
            return f.write_str("\"\"");
        }
        for c in self.0.chars() {
            if c.is_control() {
                write!(f, "\\x{:02X}", u32::from(c))?;
            } else {
                f.write_char(c)?;
            }
        }
        Ok(())
    }
}
