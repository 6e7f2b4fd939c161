//! What a module is given, and what it does.
ghost use Rattle.std.specs.Prelude.{◌≡◌, ◌<◌, ◌^◌};
ghost use Rattle.cip_event.specs.Params.{widened};

use cip_base::{Address, Bytes, Ms, PortNumber, Timing, Triad};
use cip_segment::Path;

/// What a frame on a link holds. The receiver of a request repeats its number in the reply.
#[derive(Debug, Drop, PartialEq, Eq)]
pub enum Body {
    /// A Message Router request.
    Request { number: u32, bytes: Bytes },
    /// A Message Router reply.
    Reply { number: u32, bytes: Bytes },
    /// A datum of a connection, under the connection id that its receiver chose.
    Data { id: u32, bytes: Bytes },
}

/// What a command asks of a connection that it opens (Volume 1, chapter 3, Forward_Open).
#[derive(Clone, Copy, Debug, PartialEq, Eq)]
pub struct OpenParams {
    /// The connection serial number; the originator vendor and serial number are those of the
    /// module's identity.
    pub serial: u16,
    /// The connection timeout multiplier.
    pub multiplier: u8,
    /// Transport class and trigger.
    pub transport: u8,
    /// The requested packet intervals, in microseconds, and the network connection parameters of
    /// each direction.
    pub ot_rpi: u32,
    pub ot_params: u16,
    pub to_rpi: u32,
    pub to_params: u16,
}

/// The same with network connection parameters of 32 bits (Volume 1, chapter 3,
/// Large_Forward_Open).
#[derive(Clone, Copy, Debug, PartialEq, Eq)]
pub struct LargeParams {
    /// The connection serial number; the originator vendor and serial number are those of the
    /// module's identity.
    pub serial: u16,
    /// The connection timeout multiplier.
    pub multiplier: u8,
    /// Transport class and trigger.
    pub transport: u8,
    /// The requested packet intervals, in microseconds, and the network connection parameters of
    /// each direction.
    pub ot_rpi: u32,
    pub ot_params: u32,
    pub to_rpi: u32,
    pub to_params: u32,
}

impl OpenParams {
    /// The same parameters, with those of the network connection in 32 bits.
    pub fn widened(&self) -> LargeParams
        ensures value { result ≡ widened self.now }
        ensures width { (result.ot_params < 2 ^ 16) × (result.to_params < 2 ^ 16) }
    {
        LargeParams {
            serial: self.serial,
            multiplier: self.multiplier,
            transport: self.transport,
            ot_rpi: self.ot_rpi,
            ot_params: u32::from(self.ot_params),
            to_rpi: self.to_rpi,
            to_params: u32::from(self.to_params),
        }
    }
}

/// What a module's own application asks for. `op` names what is asked, once for ever; `of` is the
/// op of an Open or a LargeOpen.
#[derive(Debug, Drop, PartialEq, Eq)]
pub enum Command {
    /// Open a connection along a path (Volume 1, chapter 3, Forward_Open).
    Open {
        op: u32,
        timing: Timing,
        path: Path,
        params: OpenParams,
    },
    /// Open a connection along a path, with sizes of up to 65,535 bytes (Volume 1, chapter 3,
    /// Large_Forward_Open).
    LargeOpen {
        op: u32,
        timing: Timing,
        path: Path,
        params: LargeParams,
    },
    /// Close a connection that was opened (Volume 1, chapter 3, Forward_Close).
    Close {
        op: u32,
        of: u32,
        timing: Timing,
    },
    /// Send a request unconnected along a path (Volume 1, chapter 3, Unconnected_Send).
    Send {
        op: u32,
        timing: Timing,
        path: Path,
        request: Bytes,
    },
    /// Send a datum by a connection that was opened.
    Enter {
        of: u32,
        bytes: Bytes,
    },
    /// Write an assembly of this module.
    Set {
        instance: u32,
        bytes: Bytes,
    },
    /// Send an assembly of this module by each connection that takes its data from it.
    Produce {
        instance: u32,
    },
}

/// What a module is given.
#[derive(Debug, Drop)]
pub enum Event {
    Command(Command),
    /// A frame that came in by this port of the module from this address.
    Frame {
        port: PortNumber,
        from: Address,
        body: Body,
    },
    /// So much time went by.
    Tick(Ms),
}

/// Why a command is refused.
#[derive(Clone, Copy, Debug, PartialEq, Eq)]
pub enum Refused {
    /// The op was used before.
    OpUsed,
    /// No connection of that op is open here.
    NotOpen,
    /// The embedded request would have more than 65,535 bytes or the message more than 66,000, or
    /// the datum not the size of the connection or of the assembly.
    WrongSize,
    /// An Unconnected_Send in an Unconnected_Send.
    ReservedService,
    /// The module has no such assembly.
    NoInstance,
}

/// Why a frame is dropped.
#[derive(Clone, Copy, Debug, PartialEq, Eq)]
pub enum Dropped {
    /// It came by a port that the module lacks, is too long, or is no request or reply.
    Malformed,
    /// No request waits for this reply.
    Late,
    /// No connection has this id there.
    UnknownId,
    /// The datum does not have the size of its direction.
    WrongSize,
}

/// What a module does.
#[derive(Debug, Drop, PartialEq, Eq)]
pub enum Output {
    /// Send a frame by this port to this address.
    Send {
        port: PortNumber,
        to: Address,
        body: Body,
    },
    /// The op came to its end with this reply.
    Done {
        op: u32,
        reply: Bytes,
    },
    Refused(Refused),
    /// A datum came to this end: of this connection, to this assembly, its sequence count included.
    Consumed {
        triad: Triad,
        instance: u32,
        bytes: Bytes,
    },
    /// A datum came back to the Open or LargeOpen of this op.
    Arrived {
        op: u32,
        bytes: Bytes,
    },
    /// The connection was silent for too long, and is gone.
    Expired {
        triad: Triad,
    },
    /// The module was reset: what the op asked for, or opened, is gone.
    Ended {
        op: u32,
    },
    Dropped(Dropped),
}
