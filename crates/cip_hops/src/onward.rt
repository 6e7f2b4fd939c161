//! Where a datum goes on that comes in by a side of a hop.
ghost use Rattle.std.specs.Prelude.{◌≡◌};
ghost use Rattle.cip_hops.specs.Onwards.{onward_up, onward_down};

use crate::hop::{Hop, Side};
use crate::opening::{HopDown, HopUp};
use cip_base::{Address, PortNumber};

/// Where a datum goes on: by this port to this address, under this id.
#[derive(Debug, Drop, PartialEq, Eq)]
pub struct Onward {
    pub port: PortNumber,
    pub address: Address,
    pub id: u32,
}

impl HopUp {
    // For a datum that goes out by this side.
    #[inline(always)]
    fn onward(&self) -> Option<Onward>
        ensures { result ≡ onward_up self.now }
    {
        match self {
            HopUp::Link {
                port,
                address,
                their_id,
            } => Some(Onward {
                port: *port,
                address: address.copy(),
                id: *their_id,
            }),
            HopUp::Local { .. } => None,
        }
    }
}

impl HopDown {
    // For a datum that goes out by this side, under this id.
    #[inline(always)]
    fn onward(&self, their_id: Option<u32>) -> Option<Onward>
        ensures { result ≡ onward_down their_id self.now }
    {
        match self {
            HopDown::Link { port, address } => Some(Onward {
                port: *port,
                address: address.copy(),
                id: their_id.unwrap_or(0),
            }),
            HopDown::End { .. } => None,
        }
    }
}

impl Hop {
    ghost use Rattle.cip_hops.specs.Onwards.{side_is, onward_by};

    // Whether that side is the link by this port to this address.
    #[inline(always)]
    pub(crate) fn is_at(&self, side: Side, port: PortNumber, address: &Address) -> bool
        ensures { result ≡ side_is side port address.now self.now }
    {
        match side {
            Side::Up => self.opening.up.is_at(port, address),
            Side::Down => self.opening.down.is_at(port, address),
        }
    }

    // For a datum of so many bytes that comes in by this side; None where it goes no further, or
    // does not have the size of its direction.
    #[inline(always)]
    pub(crate) fn onward(&self, side: Side, size: usize) -> Option<Onward>
        ensures { result ≡ onward_by side size self.now }
    {
        match side {
            Side::Up if size == usize::from(self.opening.ot_size) => {
                self.opening.down.onward(self.their_id)
            }
            Side::Down if size == usize::from(self.opening.to_size) => self.opening.up.onward(),
            _ => None,
        }
    }
}
