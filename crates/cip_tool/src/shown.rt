//! Words as faults tell them.

use std::fmt;

/// The first 40 bytes of a word, each one that can't be printed as its number.
#[derive(Clone, Copy)]
pub struct Shown<'a>(pub &'a str);

const MOST: usize = 40;

// A byte as it is printed, or as its number.
fn write_byte<W: fmt::Write>(f: &mut fmt::Formatter<W>, byte: u8) -> fmt::Result {
    if (32..127).contains(&byte) {
        f.write_char(char::from(byte))
    } else {
        write!(f, "\\x{byte:02X}")
    }
}

impl fmt::Display for Shown<'_> {
    fn fmt<W: fmt::Write>(&self, f: &mut fmt::Formatter<W>) -> fmt::Result {
        let bytes = self.0.as_bytes();
        for byte in bytes.iter().take(MOST) {
            write_byte(f, *byte)?;
        }
        if bytes.len() > MOST {
            f.write_str("..")?;
        }
        Ok(())
    }
}
