//! How long a request may take, and how it ended.

/// The priority/time tick byte and the time-out ticks of a Connection Manager request
/// (Volume 1, chapter 3, time-out of unconnected services). Bits 3 to 0 of `tick` are the exponent
/// t; the time-out is 2^t times `ticks` milliseconds. Bits 7 to 4 of `tick` are passed on as they
/// are.
#[derive(Clone, Copy, Debug, PartialEq, Eq)]
pub struct Timing {
    pub tick: u8,
    pub ticks: u8,
}

/// A general status, with the first word of additional status where there is one (Volume 1,
/// Appendix B).
#[derive(Clone, Copy, Debug, PartialEq, Eq)]
pub struct Status {
    pub general: u8,
    pub extra: Option<u16>,
}
