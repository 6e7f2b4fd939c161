//! What came out of a run so far.

use cip_base::{Bytes, ModuleId, Status};
use cip_message::read_reply;
use cip_names::status_name;
use cip_routing::Output;
use cip_world::Entry;
use std::fmt;

/// A general status and an additional one, with their name.
#[derive(Clone, Copy, PartialEq, Eq)]
pub struct Code {
    pub general: u8,
    pub additional: Option<u16>,
}

// The additional status behind the general one, where there is one.
#[derive(Clone, Copy)]
struct Additional(Option<u16>);

impl fmt::Display for Additional {
    fn fmt<W: fmt::Write>(&self, f: &mut fmt::Formatter<W>) -> fmt::Result {
        match self.0 {
            Some(word) => write!(f, "/{word:04X}"),
            None => Ok(()),
        }
    }
}

// A name behind what it names, where there is one.
#[derive(Clone, Copy)]
struct InBrackets(Option<&'static str>);

impl fmt::Display for InBrackets {
    fn fmt<W: fmt::Write>(&self, f: &mut fmt::Formatter<W>) -> fmt::Result {
        match self.0 {
            Some(name) => write!(f, " ({name})"),
            None => Ok(()),
        }
    }
}

impl fmt::Display for Code {
    fn fmt<W: fmt::Write>(&self, f: &mut fmt::Formatter<W>) -> fmt::Result {
        let general = self.general;
        let additional = Additional(self.additional);
        let name = InBrackets(status_name(general, self.additional));
        write!(f, "{general:02X}{additional}{name}")
    }
}

impl Code {
    /// The status of a reply; None where the bytes are no reply.
    pub fn of(reply: &Bytes) -> Option<Code> {
        match read_reply(reply.as_slice()) {
            Ok(view) => {
                let Status { general, extra } = view.status();
                Some(Code {
                    general,
                    additional: extra,
                })
            }
            Err(_) => None,
        }
    }
}

/// Bytes as pairs of hexadecimal digits, a dash for none.
#[derive(Clone, Copy)]
pub struct Pairs<'a>(pub &'a [u8]);

impl fmt::Display for Pairs<'_> {
    fn fmt<W: fmt::Write>(&self, f: &mut fmt::Formatter<W>) -> fmt::Result {
        if self.0.is_empty() {
            return f.write_str("-");
        }
        for byte in self.0 {
            write!(f, "{byte:02X}")?;
        }
        Ok(())
    }
}

// The last datum of these outputs that came back to an op.
fn arrived_in(outputs: &[Output], number: u32) -> Option<&Bytes> {
    for output in outputs.iter().rev() {
        if let Output::Arrived { op, bytes } = output {
            if *op == number {
                return Some(bytes);
            }
        }
    }
    None
}

/// The newest datum that came back to an op of a module.
pub fn newest_arrived(journal: &[Entry], module_: ModuleId, number: u32) -> Option<&Bytes> {
    for entry in journal.iter().rev() {
        if let Entry::Step { at, outputs, .. } = entry {
            if *at == module_ {
                if let Some(bytes) = arrived_in(outputs.as_slice(), number) {
                    return Some(bytes);
                }
            }
        }
    }
    None
}
