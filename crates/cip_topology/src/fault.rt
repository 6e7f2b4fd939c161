//! Why a text is no topology.
ghost use Rattle.std.specs.Prelude.{◌≡◌};
ghost use Rattle.cip_topology.specs.declared.fault.LoadFault.TheVariants.{NoMemory};

use crate::found::Found;
use crate::key::{Allowed, Key};
use crate::place::Place;
use cip_base::{Address, Excerpt, MAX_ASSEMBLIES, MAX_PORTS};
use cip_chassis::{MAX_LINKS, MAX_MODULES, Name};
use cip_config::LegalAddresses;
use std::alloc::{AllocError, AllocFailed};
use std::fmt;
use thiserror::Error;

/// Where a text is no TOML, and why. Lines are numbered from 1.
#[derive(Clone, Copy, Debug)]
pub struct Syntax {
    line: usize,
    error: toml::de::Error,
}

impl Syntax {
    /// Of the error that reading the text as TOML gives.
    pub fn of(text: &str, error: toml::de::Error) -> Syntax {
        let start = match error.span() {
            Some(span) => span.start,
            None => 0,
        };
        let line = line_of(text.as_bytes(), start);
        Syntax { line, error }
    }

    /// The line.
    pub fn line(&self) -> usize {
        self.line
    }
}

// The line of a place in a text.
fn line_of(text: &[u8], place: usize) -> usize {
    let mut line = 1usize;
    for byte in text.iter().take(place) {
        if *byte == b'\n' {
            line = line.saturating_add(1);
        }
    }
    line
}

impl fmt::Display for Syntax {
    fn fmt<W: fmt::Write>(&self, f: &mut fmt::Formatter<W>) -> fmt::Result {
        write!(f, "line {}: {}", self.line, self.error.message())
    }
}

/// Why a text is no topology: the first rule that it breaks, in the order in which the rules are
/// looked at, where it breaks it, and what it says there.
#[derive(Debug, Drop, Error)]
pub enum LoadFault {
    /// The text is no TOML.
    #[error("not TOML, {0}")]
    NotToml(Syntax),
    /// The key is not there.
    #[error("{place}: `{key}` is missing")]
    Missing {
        key: Key,
        place: Place,
    },
    /// The key has a value of another type, or out of its range.
    #[error("{place}: `{key}` is {found}; allowed: {}", Allowed(*.key, .place))]
    Range {
        key: Key,
        place: Place,
        found: Found,
    },
    /// A link, or a module, before this one has its name.
    #[error("{place}: `name` is that of a table before it")]
    DoubleName {
        place: Place,
    },
    /// A port before this one has its address on its link.
    #[error("{place}: `address` {} on link {link} is that of a port before it", Pairs(.address))]
    DoubleAddress {
        place: Place,
        link: Name,
        address: Address,
    },
    /// A module before this one has its vendor and its serial number.
    #[error("{place}: `vendor` {vendor} and `serial` {serial} are those of a module before it")]
    DoubleOriginator {
        place: Place,
        vendor: u16,
        serial: u32,
    },
    /// No link has the name.
    #[error("{place}: `link` is \"{name}\", which names no link")]
    UnknownLink {
        place: Place,
        name: Excerpt,
    },
    /// The address is none of those of the link.
    #[error("{place}: `address` {} is not legal on link {link}; \
        allowed: {}", Pairs(.address), Legal(*.legal))]
    AddressNotLegal {
        place: Place,
        link: Name,
        legal: LegalAddresses,
        address: Address,
    },
    /// There are too many tables of a kind.
    #[error("{place}: {count} [[{}]] tables; allowed: at most {}", .key.table(), most(*.key))]
    Limit {
        key: Key,
        place: Place,
        count: usize,
    },
    /// An allocation was refused.
    #[error("out of memory")]
    NoMemory,
}

impl From<AllocError> for LoadFault {
    ghost from_gives = { λ _ e. e ≡ NoMemory };

    fn from(_refused: AllocError) -> LoadFault {
        LoadFault::NoMemory
    }
}

impl<T: Drop> From<AllocFailed<T>> for LoadFault {
    ghost from_gives = { λ _ e. e ≡ NoMemory };

    fn from(_refused: AllocFailed<T>) -> LoadFault {
        LoadFault::NoMemory
    }
}

// The most tables of a kind.
fn most(key: Key) -> usize {
    match key {
        Key::Link => MAX_LINKS,
        Key::Module => MAX_MODULES,
        Key::Port => MAX_PORTS,
        _ => MAX_ASSEMBLIES,
    }
}

// Bytes as pairs of hexadecimal digits.
#[derive(Clone, Copy)]
struct Pairs<'a>(&'a Address);

impl fmt::Display for Pairs<'_> {
    fn fmt<W: fmt::Write>(&self, f: &mut fmt::Formatter<W>) -> fmt::Result {
        for byte in self.0.as_slice() {
            write!(f, "{byte:02X}")?;
        }
        Ok(())
    }
}

#[derive(Clone, Copy)]
struct Legal(LegalAddresses);

impl fmt::Display for Legal {
    fn fmt<W: fmt::Write>(&self, f: &mut fmt::Formatter<W>) -> fmt::Result {
        match self.0 {
            LegalAddresses::Byte { first, last } => {
                write!(f, "one byte from {first:02X} to {last:02X}")
            }
            LegalAddresses::Text { longest } => { write!(f, "1 to {longest} bytes from 21 to 7E") }
        }
    }
}
