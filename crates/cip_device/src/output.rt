//! What a device does, in the form in which it crosses to C.
ghost use Rattle.std.specs.Prelude.{◌≡◌, length, take};
ghost use Rattle.cip_device.specs.Outputs.{payload_of, reason_of_refused, reason_of_dropped};
ghost use Rattle.cip_device.specs.Outputs.{IsOutline};

use crate::numbers::{
    DROPPED_LATE, DROPPED_MALFORMED, DROPPED_UNKNOWN_ID, DROPPED_WRONG_SIZE, OUT_ARRIVED,
    OUT_CONSUMED, OUT_DATA, OUT_DONE, OUT_DROPPED, OUT_ENDED, OUT_EXPIRED, OUT_REFUSED, OUT_REPLY,
    OUT_REQUEST, REFUSED_NO_INSTANCE, REFUSED_NOT_OPEN, REFUSED_OP_USED, REFUSED_RESERVED_SERVICE,
    REFUSED_WRONG_SIZE,
};
use cip_base::Address;
use cip_module::{Body, Dropped, Output, Refused};

/// What a device does. Which fields mean something goes by the kind; the others are 0.
#[repr(C)]
#[derive(Clone, Copy)]
pub struct CipOutput {
    /// 1 send a request, 2 send a reply, 3 send a datum, 4 done, 5 refused, 6 consumed, 7 arrived,
    /// 8 expired, 9 dropped.
    pub kind: u32,
    /// Why it is refused or dropped, from 1.
    pub reason: u32,
    /// The number of a request or a reply, the id of a datum, or the op.
    pub number: u32,
    /// The assembly that took a datum.
    pub instance: u32,
    /// The originator of the connection.
    pub originator: u32,
    /// The connection serial number and the vendor of its originator.
    pub serial: u16,
    pub vendor: u16,
    /// Where to send it: a port, and the bytes of an address there.
    pub port: u16,
    pub to_length: u16,
    pub to: [u8; 16],
    /// How many bytes it has, which stand in the caller's buffer.
    pub length: usize,
}

const BLANK: CipOutput = CipOutput {
    kind: 0,
    reason: 0,
    number: 0,
    instance: 0,
    originator: 0,
    serial: 0,
    vendor: 0,
    port: 0,
    to_length: 0,
    to: [0; 16],
    length: 0,
};

/// The bytes of an address, and zeros.
pub(crate) fn padded(address: &Address) -> [u8; 16]
    ensures { take (length address.now) result ≡ address.now }
{
    let mut to = [0; 16];
    let bytes = address.as_slice();
    to[..bytes.len()].copy_from_slice(bytes);
    to
}

/// How many bytes an address has.
pub(crate) fn short_length(address: &Address) -> u16
    ensures { result ≡ length address.now }
{
    let count = address.as_slice().len();
    count as u16
}

fn sent(port: u16, address: &Address, kind: u32, number: u32, count: usize) -> CipOutput
    ensures kind { result.kind ≡ kind }
    ensures number { result.number ≡ number }
    ensures count { result.length ≡ count }
    ensures port { result.port ≡ port }
    ensures to_length { result.to_length ≡ length address.now }
    ensures to { take (length address.now) result.to ≡ address.now }
{
    CipOutput {
        kind,
        number,
        length: count,
        port,
        to_length: short_length(address),
        to: padded(address),
        ..BLANK
    }
}

fn reason_of_refused(reason: Refused) -> u32
    ensures { result ≡ reason_of_refused reason }
{
    match reason {
        Refused::OpUsed => REFUSED_OP_USED,
        Refused::NotOpen => REFUSED_NOT_OPEN,
        Refused::WrongSize => REFUSED_WRONG_SIZE,
        Refused::ReservedService => REFUSED_RESERVED_SERVICE,
        Refused::NoInstance => REFUSED_NO_INSTANCE,
    }
}

fn reason_of_dropped(reason: Dropped) -> u32
    ensures { result ≡ reason_of_dropped reason }
{
    match reason {
        Dropped::Malformed => DROPPED_MALFORMED,
        Dropped::Late => DROPPED_LATE,
        Dropped::UnknownId => DROPPED_UNKNOWN_ID,
        Dropped::WrongSize => DROPPED_WRONG_SIZE,
    }
}

/// The bytes of an output.
pub(crate) fn payload(output: &Output) -> &[u8]
    ensures { result.now ≡ payload_of output.now }
{
    match output {
        Output::Send { body, .. } => match body {
            Body::Request { bytes, .. } => bytes.as_slice(),
            Body::Reply { bytes, .. } => bytes.as_slice(),
            Body::Data { bytes, .. } => bytes.as_slice(),
        },
        Output::Done { reply, .. } => reply.as_slice(),
        Output::Consumed { bytes, .. } => bytes.as_slice(),
        Output::Arrived { bytes, .. } => bytes.as_slice(),
        Output::Refused(_) | Output::Expired { .. } | Output::Ended { .. } | Output::Dropped(_) =>
            &[],
    }
}

/// All of an output but its bytes.
pub(crate) fn outline(output: &Output) -> CipOutput
    ensures { IsOutline output.now result }
{
    match output {
        Output::Send { port, to, body } => match body {
            Body::Request { number, bytes } => sent(
                port.get(),
                to,
                OUT_REQUEST,
                *number,
                bytes.as_slice().len(),
            ),
            Body::Reply { number, bytes } => sent(
                port.get(),
                to,
                OUT_REPLY,
                *number,
                bytes.as_slice().len(),
            ),
            Body::Data { id, bytes } => sent(port.get(), to, OUT_DATA, *id, bytes.as_slice().len()),
        },
        Output::Done { op, reply } => CipOutput {
            kind: OUT_DONE,
            number: *op,
            length: reply.as_slice().len(),
            ..BLANK
        },
        Output::Refused(reason) => CipOutput {
            kind: OUT_REFUSED,
            reason: reason_of_refused(*reason),
            ..BLANK
        },
        Output::Consumed {
            triad,
            instance,
            bytes,
        } => CipOutput {
            kind: OUT_CONSUMED,
            instance: *instance,
            serial: triad.serial,
            vendor: triad.vendor,
            originator: triad.originator,
            length: bytes.as_slice().len(),
            ..BLANK
        },
        Output::Arrived { op, bytes } => CipOutput {
            kind: OUT_ARRIVED,
            number: *op,
            length: bytes.as_slice().len(),
            ..BLANK
        },
        Output::Expired { triad } => CipOutput {
            kind: OUT_EXPIRED,
            serial: triad.serial,
            vendor: triad.vendor,
            originator: triad.originator,
            ..BLANK
        },
        Output::Ended { op } => CipOutput {
            kind: OUT_ENDED,
            number: *op,
            ..BLANK
        },
        Output::Dropped(reason) => CipOutput {
            kind: OUT_DROPPED,
            reason: reason_of_dropped(*reason),
            ..BLANK
        },
    }
}
