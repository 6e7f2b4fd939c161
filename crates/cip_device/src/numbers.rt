//! The numbers that stand for something in C.

/// The version of what C sees.
pub const VERSION: u32 = 2;

/// It was done.
pub const DONE: u32 = 0;
/// The handle has no device.
pub const NO_DEVICE: u32 = 1;
/// The handle has a device already.
pub const IN_USE: u32 = 2;
/// Outputs of the step before wait to be read.
pub const UNREAD: u32 = 3;
/// An argument is out of its range.
pub const BAD_ARGUMENT: u32 = 4;
/// An allocation was refused.
pub const NO_MEMORY: u32 = 5;
/// The tick would lead past the last time.
pub const CLOCK_FULL: u32 = 6;
/// There is none: no output waits, or nothing stands there.
pub const NOTHING: u32 = 7;
/// The buffer is too short for the bytes of the output.
pub const SHORT: u32 = 8;

/// The kinds of a device.
pub const PLAIN: u32 = 0;

pub const ADAPTER: u32 = 1;

pub const INDEXED: u32 = 2;

/// The kinds of an output.
pub const OUT_REQUEST: u32 = 1;

pub const OUT_REPLY: u32 = 2;

pub const OUT_DATA: u32 = 3;

pub const OUT_DONE: u32 = 4;

pub const OUT_REFUSED: u32 = 5;

pub const OUT_CONSUMED: u32 = 6;

pub const OUT_ARRIVED: u32 = 7;

pub const OUT_EXPIRED: u32 = 8;

pub const OUT_DROPPED: u32 = 9;

pub const OUT_ENDED: u32 = 10;

/// Why a command is refused.
pub const REFUSED_OP_USED: u32 = 1;

pub const REFUSED_NOT_OPEN: u32 = 2;

pub const REFUSED_WRONG_SIZE: u32 = 3;

pub const REFUSED_RESERVED_SERVICE: u32 = 4;

pub const REFUSED_NO_INSTANCE: u32 = 5;

/// Why a frame is dropped.
pub const DROPPED_MALFORMED: u32 = 1;

pub const DROPPED_LATE: u32 = 2;

pub const DROPPED_UNKNOWN_ID: u32 = 3;

pub const DROPPED_WRONG_SIZE: u32 = 4;

/// The kinds of a request that waits.
pub const PENDING_SEND: u32 = 1;

pub const PENDING_OPEN: u32 = 2;

pub const PENDING_LARGE_OPEN: u32 = 3;

pub const PENDING_CLOSE: u32 = 4;
