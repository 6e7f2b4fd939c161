//! What the table keeps, and why it refuses.
ghost use Rattle.std.specs.Prelude.{◌≡◌};
ghost use Rattle.cip_pending.specs.Pendings.{is_asked};
ghost use Rattle.cip_pending.specs.Kinds.{opened_triad, opening_kind, is_large_kind};

use cip_base::{Address, PortNumber, Triad};
use thiserror::Error;

/// Whom a reply goes to: the node on a link that asked, under the number that it gave, or a command
/// of this module.
#[derive(Debug, Drop, PartialEq, Eq)]
pub enum UpSide {
    Link {
        port: PortNumber,
        address: Address,
        number: u32,
    },
    Local {
        op: u32,
    },
}

/// The service that was sent on (Volume 1, chapter 3): what Unconnected_Send carries, Forward_Open,
/// Large_Forward_Open or Forward_Close.
#[derive(Clone, Copy, Debug, PartialEq, Eq)]
pub enum Kind {
    Unconnected,
    Opening(Triad),
    OpeningLarge(Triad),
    Closing(Triad),
}

impl Kind {
    /// The kind of a request that opens a connection, large or not.
    pub fn opening(large: bool, triad: Triad) -> Kind
        ensures { result ≡ opening_kind large triad }
    {
        if large {
            Kind::OpeningLarge(triad)
        } else {
            Kind::Opening(triad)
        }
    }

    /// Whether the request is a Large_Forward_Open.
    pub fn is_large(self) -> bool
        ensures { result ≡ is_large_kind self }
    {
        matches!(self, Kind::OpeningLarge(_))
    }

    /// The triad of the connection that the request opens; None where it opens none.
    pub fn opened_triad(self) -> Option<Triad>
        ensures { result ≡ opened_triad self }
    {
        match self {
            Kind::Opening(triad) | Kind::OpeningLarge(triad) => Some(triad),
            Kind::Unconnected | Kind::Closing(_) => None,
        }
    }
}

/// A request that was sent on and waits for its reply.
#[derive(Debug, Drop, PartialEq, Eq)]
pub struct Entry {
    /// Where the reply goes.
    pub up: UpSide,
    /// The port by which the request went.
    pub port: PortNumber,
    /// The address to which it went.
    pub address: Address,
    /// The time at which it is given up, in microseconds.
    pub deadline: u64,
    /// The length of its path as it was received, in 16-bit words.
    pub words: u8,
    /// What was asked.
    pub kind: Kind,
}

impl UpSide {
    /// A copy. Takes no memory.
    pub fn copy(&self) -> UpSide
        ensures { result ≡ self.now }
    {
        match self {
            UpSide::Link {
                port,
                address,
                number,
            } => UpSide::Link {
                port: *port,
                address: address.copy(),
                number: *number,
            },
            UpSide::Local { op } => UpSide::Local { op: *op },
        }
    }
}

impl Entry {
    /// A copy. Takes no memory.
    pub fn copy(&self) -> Entry
        ensures { result ≡ self.now }
    {
        Entry {
            up: self.up.copy(),
            port: self.port,
            address: self.address.copy(),
            deadline: self.deadline,
            words: self.words,
            kind: self.kind,
        }
    }

    /// Whether the request went by this port to this address.
    pub fn is_asked(&self, port: PortNumber, address: &Address) -> bool
        ensures { result ≡ is_asked port address.now self.now }
    {
        self.port == port && self.address == *address
    }
}

/// Why an entry is not taken.
#[derive(Clone, Copy, Debug, PartialEq, Eq)]
pub enum AddReason {
    Full,
    NumbersSpent,
}

/// The table refused, and hands the entry back.
#[derive(Debug, Drop, PartialEq, Eq, Error)]
pub enum AddFault {
    #[error("the table is full")]
    Full(Entry),
    #[error("the numbers are spent")]
    NumbersSpent(Entry),
}
