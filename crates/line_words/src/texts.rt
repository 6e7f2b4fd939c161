//! What the drivers tell alike.
use cip_base::Triad;
use cip_pending::{Kind, UpSide};
use std::fmt;

/// Two values with a space between them.
#[derive(Clone, Copy)]
pub struct Then<A, B>(pub A, pub B);

impl<A: fmt::Display, B: fmt::Display> fmt::Display for Then<A, B> {
    fn fmt<W: fmt::Write>(&self, f: &mut fmt::Formatter<W>) -> fmt::Result {
        write!(f, "{} {}", self.0, self.1)
    }
}

/// Bytes as upper-case pairs, a dash for none.
#[derive(Clone, Copy)]
pub struct Pairs<'a>(pub &'a [u8]);

impl fmt::Display for Pairs<'_> {
    fn fmt<W: fmt::Write>(&self, f: &mut fmt::Formatter<W>) -> fmt::Result {
        if self.0.is_empty() {
            return f.write_str("-");
        }
        for byte in self.0 {
            write!(f, "{byte:02X}")?;
        }
        Ok(())
    }
}

/// A triad as its three numbers.
#[derive(Clone, Copy)]
pub struct Numbers(pub Triad);

impl fmt::Display for Numbers {
    fn fmt<W: fmt::Write>(&self, f: &mut fmt::Formatter<W>) -> fmt::Result {
        let Triad {
            serial,
            vendor,
            originator,
        } = self.0;
        write!(f, "{serial} {vendor} {originator}")
    }
}

/// Whom the reply to a request goes to.
#[derive(Clone, Copy)]
pub struct Asker<'a>(pub &'a UpSide);

impl fmt::Display for Asker<'_> {
    fn fmt<W: fmt::Write>(&self, f: &mut fmt::Formatter<W>) -> fmt::Result {
        match self.0 {
            UpSide::Link {
                port,
                address,
                number,
            } => write!(f, "{} {} {number}", port.get(), Pairs(address.as_slice())),
            UpSide::Local { op } => write!(f, "op {op}"),
        }
    }
}

/// What was asked.
#[derive(Clone, Copy)]
pub struct Asked(pub Kind);

impl fmt::Display for Asked {
    fn fmt<W: fmt::Write>(&self, f: &mut fmt::Formatter<W>) -> fmt::Result {
        match self.0 {
            Kind::Unconnected => f.write_str("unconnected"),
            Kind::Opening(triad) => write!(f, "opening {}", Numbers(triad)),
            Kind::OpeningLarge(triad) => write!(f, "large {}", Numbers(triad)),
            Kind::Closing(triad) => write!(f, "closing {}", Numbers(triad)),
        }
    }
}
