//! A connection that is being opened, and why one is not taken.
ghost use Rattle.std.specs.Prelude.{◌≡◌, ◌+◌, ◌^◌, ◌≤◌};
ghost use Rattle.cip_hops.specs.Sides.{up_is_link, down_is_link, op_of, up_is, ids_drawn, own_ids};

use cip_base::{Address, PortNumber, Triad};
use cip_segment::Path;
use thiserror::Error;

/// Where a connection comes from.
#[derive(Debug, Drop, PartialEq, Eq)]
pub enum HopUp {
    /// A node on a link, which is sent data under its own T to O id.
    Link {
        port: PortNumber,
        address: Address,
        their_id: u32,
    },
    /// A command of this module.
    Local {
        op: u32,
    },
}

/// Where a connection goes to.
#[derive(Debug, Drop, PartialEq, Eq)]
pub enum HopDown {
    /// A node on a link.
    Link {
        port: PortNumber,
        address: Address,
    },
    /// This module, with the instances of its assemblies: configuration, O to T and T to O.
    End {
        config: u32,
        consume: u32,
        produce: u32,
    },
}

/// A connection that is being opened: what Forward_Open or Large_Forward_Open asked (Volume 1,
/// chapter 3).
#[derive(Debug, Drop, PartialEq, Eq)]
pub struct Opening {
    pub triad: Triad,
    pub up: HopUp,
    pub down: HopDown,
    /// The path as it was received.
    pub path: Path,
    /// The sizes of a datum in bytes, O to T and T to O.
    pub ot_size: u16,
    pub to_size: u16,
    /// The requested packet intervals in microseconds, O to T and T to O.
    pub ot_rpi: u32,
    pub to_rpi: u32,
    /// The connection timeout multiplier, 0 to 7 for 4, 8, 16 .. 512 intervals.
    pub multiplier: u8,
    /// The transport class.
    pub class: u8,
    /// Whether a Large_Forward_Open asked.
    pub large: bool,
}

/// The ids under which this module is sent data, of the sides that are links.
#[derive(Clone, Copy, Debug, PartialEq, Eq)]
pub struct OwnIds {
    pub up: Option<u32>,
    pub down: Option<u32>,
}

/// Why an opening is not taken.
#[derive(Clone, Copy, Debug, PartialEq, Eq)]
pub enum BeginReason {
    Duplicate,
    Full,
    IdsSpent,
}

/// The table refused, and hands the opening back.
#[derive(Debug, Drop, PartialEq, Eq, Error)]
pub enum BeginFault {
    #[error("the triad is in use")]
    Duplicate(Opening),
    #[error("the table is full")]
    Full(Opening),
    #[error("the ids are spent")]
    IdsSpent(Opening),
}

impl HopUp {
    /// Whether it is a link.
    pub fn is_link(&self) -> bool
        ensures { result ≡ up_is_link self.now }
    {
        matches!(self, HopUp::Link { .. })
    }

    /// The op of a command.
    pub fn op(&self) -> Option<u32>
        ensures { result ≡ op_of self.now }
    {
        match self {
            HopUp::Link { .. } => None,
            HopUp::Local { op } => Some(*op),
        }
    }

    /// A copy. Takes no memory.
    pub fn copy(&self) -> HopUp
        ensures { result ≡ self.now }
    {
        match self {
            HopUp::Link {
                port,
                address,
                their_id,
            } => HopUp::Link {
                port: *port,
                address: address.copy(),
                their_id: *their_id,
            },
            HopUp::Local { op } => HopUp::Local { op: *op },
        }
    }

    // Whether it is the link by this port to this address.
    pub(crate) fn is_at(&self, by: PortNumber, to: &Address) -> bool
        ensures { result ≡ up_is by to.now self.now }
    {
        match self {
            HopUp::Link { port, address, .. } => *port == by && *address == *to,
            HopUp::Local { .. } => false,
        }
    }
}

impl HopDown {
    ghost use Rattle.cip_hops.specs.Sides.{down_is};

    /// Whether it is a link.
    pub fn is_link(&self) -> bool
        ensures { result ≡ down_is_link self.now }
    {
        matches!(self, HopDown::Link { .. })
    }

    /// A copy. Takes no memory.
    pub fn copy(&self) -> HopDown
        ensures { result ≡ self.now }
    {
        match self {
            HopDown::Link { port, address } => HopDown::Link {
                port: *port,
                address: address.copy(),
            },
            HopDown::End {
                config,
                consume,
                produce,
            } => HopDown::End {
                config: *config,
                consume: *consume,
                produce: *produce,
            },
        }
    }

    // Whether it is the link by this port to this address.
    pub(crate) fn is_at(&self, by: PortNumber, to: &Address) -> bool
        ensures { result ≡ down_is by to.now self.now }
    {
        match self {
            HopDown::Link { port, address } => *port == by && *address == *to,
            HopDown::End { .. } => false,
        }
    }
}

impl Opening {
    /// How many ids it draws: one for each side that is a link.
    pub fn ids_drawn(&self) -> u8
        ensures value { result ≡ ids_drawn self.now }
        ensures few { result ≤ 2 }
    {
        u8::from(self.down.is_link()) + u8::from(self.up.is_link())
    }

    // Its ids from `next` on, that of the down side first.
    pub(crate) fn own_ids(&self, next: u64) -> OwnIds
        requires { next + ids_drawn self.now ≤ 2 ^ 32 }
        ensures { result ≡ own_ids next self.now }
    {
        let mut free = next;
        let mut ids = OwnIds {
            up: None,
            down: None,
        };
        if self.down.is_link() {
            ids.down = Some(free as u32);
            free += 1;
        }
        if self.up.is_link() {
            ids.up = Some(free as u32);
        }
        ids
    }
}
