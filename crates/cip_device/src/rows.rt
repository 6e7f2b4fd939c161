//! The connections that are open and the requests that wait, in the form in which they cross to C.
ghost use Rattle.std.specs.Prelude.{◌≡◌, length, take};
ghost use Rattle.std.specs.Option.{option_map_or};
ghost use Rattle.cip_device.specs.Rows.{or_zero, kind_of_pending, triad_of_kind, IsLinkSide, IsUp};
ghost use Rattle.cip_device.specs.Rows.{IsDown, IsWaiting, IsConnection, IsPending};

use crate::numbers::{PENDING_CLOSE, PENDING_LARGE_OPEN, PENDING_OPEN, PENDING_SEND};
use crate::output::{padded, short_length};
use cip_base::{Address, Triad};
use cip_hops::{HopDown, HopUp};
use cip_module::{HopRow, PendingRow};
use cip_pending::{Kind, UpSide};

/// Where a connection or a request comes from or goes to.
#[repr(C)]
#[derive(Clone, Copy)]
pub struct CipSide {
    /// Whether it is a node on a link: then by this port at this address; else both are 0.
    pub is_link: u32,
    /// What the node there knows it by, an id or a request number; or the op of an own command; 0
    /// at an end.
    pub number: u32,
    pub port: u16,
    pub address_length: u16,
    pub address: [u8; 16],
}

/// A connection that is open.
#[repr(C)]
#[derive(Clone, Copy)]
pub struct CipConnectionRow {
    /// The originator of the connection.
    pub originator: u32,
    /// The connection serial number and the vendor of its originator.
    pub serial: u16,
    pub vendor: u16,
    /// Towards its originator, and towards its target.
    pub up: CipSide,
    pub down: CipSide,
    /// The ids under which this device is sent data by each side; 0 where that is no link.
    pub up_id: u32,
    pub down_id: u32,
    /// The assemblies of a connection that ends here; else 0.
    pub configuration: u32,
    pub consumed: u32,
    pub produced: u32,
    /// The sizes of a datum in bytes, from and to the originator.
    pub ot_size: u16,
    pub to_size: u16,
    /// The requested packet intervals in microseconds, from and to the originator.
    pub ot_rpi: u32,
    pub to_rpi: u32,
    /// The transport class: the data of class 1 begin with a sequence count of two bytes.
    pub transport_class: u32,
    /// The times in microseconds at which each side has been silent for too long; 0 where that is
    /// no link.
    pub up_deadline: u64,
    pub down_deadline: u64,
}

/// A request that was sent on and waits for its reply.
#[repr(C)]
#[derive(Clone, Copy)]
pub struct CipPendingRow {
    /// The time in microseconds at which it is given up.
    pub deadline: u64,
    /// 1 an Unconnected_Send, 2 a Forward_Open, 3 a Large_Forward_Open, 4 a Forward_Close.
    pub kind: u32,
    /// The connection that it opens or closes; else 0.
    pub originator: u32,
    pub serial: u16,
    pub vendor: u16,
    /// Whom the reply goes to, and where the request went.
    pub up: CipSide,
    pub down: CipSide,
}

const NO_SIDE: CipSide = CipSide {
    is_link: 0,
    number: 0,
    port: 0,
    address_length: 0,
    address: [0; 16],
};

const NO_TRIAD: Triad = Triad {
    serial: 0,
    vendor: 0,
    originator: 0,
};

fn link_side(port: u16, address: &Address, number: u32) -> CipSide
    ensures { IsLinkSide port address.now number result }
{
    CipSide {
        is_link: 1,
        number,
        port,
        address_length: short_length(address),
        address: padded(address),
    }
}

fn or_zero(number: Option<u32>) -> u32
    ensures { result ≡ or_zero number }
{
    match number {
        Some(number) => number,
        None => 0,
    }
}

fn time_or_zero(time: Option<u64>) -> u64
    ensures { result ≡ or_zero time }
{
    match time {
        Some(time) => time,
        None => 0,
    }
}

fn up_of(up: &HopUp) -> CipSide
    ensures { IsUp up.now result }
{
    match up {
        HopUp::Link {
            port,
            address,
            their_id,
        } => link_side(port.get(), address, *their_id),
        HopUp::Local { op } => CipSide {
            number: *op,
            ..NO_SIDE
        },
    }
}

fn down_of(down: &HopDown, their_id: Option<u32>) -> CipSide
    ensures { IsDown down.now their_id result }
{
    match down {
        HopDown::Link { port, address } => link_side(port.get(), address, or_zero(their_id)),
        HopDown::End { .. } => NO_SIDE,
    }
}

fn waiting_of(up: &UpSide) -> CipSide
    ensures { IsWaiting up.now result }
{
    match up {
        UpSide::Link {
            port,
            address,
            number,
        } => link_side(port.get(), address, *number),
        UpSide::Local { op } => CipSide {
            number: *op,
            ..NO_SIDE
        },
    }
}

fn kind_of_pending(kind: Kind) -> u32
    ensures { result ≡ kind_of_pending kind }
{
    match kind {
        Kind::Unconnected => PENDING_SEND,
        Kind::Opening(_) => PENDING_OPEN,
        Kind::OpeningLarge(_) => PENDING_LARGE_OPEN,
        Kind::Closing(_) => PENDING_CLOSE,
    }
}

fn triad_of_kind(kind: Kind) -> Triad
    ensures { result ≡ triad_of_kind kind }
{
    match kind {
        Kind::Unconnected => NO_TRIAD,
        Kind::Opening(triad) | Kind::OpeningLarge(triad) | Kind::Closing(triad) => triad,
    }
}

/// A connection, as it is told.
pub(crate) fn connection_of(row: &HopRow) -> CipConnectionRow
    ensures { IsConnection row.now result }
{
    let (configuration, consumed, produced) = match &row.down {
        HopDown::Link { .. } => (0, 0, 0),
        HopDown::End {
            config,
            consume,
            produce,
        } => (*config, *consume, *produce),
    };
    CipConnectionRow {
        originator: row.triad.originator,
        serial: row.triad.serial,
        vendor: row.triad.vendor,
        up: up_of(&row.up),
        down: down_of(&row.down, row.their_id),
        up_id: or_zero(row.ids.up),
        down_id: or_zero(row.ids.down),
        configuration,
        consumed,
        produced,
        ot_size: row.ot_size,
        to_size: row.to_size,
        ot_rpi: row.ot_rpi,
        to_rpi: row.to_rpi,
        transport_class: u32::from(row.class),
        up_deadline: time_or_zero(row.up_deadline),
        down_deadline: time_or_zero(row.down_deadline),
    }
}

/// A request that waits, as it is told.
pub(crate) fn pending_of(row: &PendingRow) -> CipPendingRow
    ensures { IsPending row.now result }
{
    let entry = &row.entry;
    let triad = triad_of_kind(entry.kind);
    CipPendingRow {
        deadline: entry.deadline,
        kind: kind_of_pending(entry.kind),
        originator: triad.originator,
        serial: triad.serial,
        vendor: triad.vendor,
        up: waiting_of(&entry.up),
        down: link_side(entry.port.get(), &entry.address, row.number),
    }
}
