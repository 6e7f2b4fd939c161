//! The network connection parameters of one direction of a connection.

/// How urgent a connection's data is (Volume 1, chapter 3, network connection parameters,
/// priority).
#[derive(Clone, Copy, Debug, PartialEq, Eq)]
pub enum Priority {
    Low,
    High,
    Scheduled,
    Urgent,
}

/// How many consumers a connection has (Volume 1, chapter 3, network connection parameters,
/// connection type).
#[derive(Clone, Copy, Debug, PartialEq, Eq)]
pub enum ConnectionKind {
    Null,
    Multicast,
    PointToPoint,
    Reserved,
}

/// The parts of the network connection parameters, of a word or of a large open's double word
/// (Volume 1, chapter 3, network connection parameters).
#[derive(Clone, Copy, Debug, PartialEq, Eq)]
pub struct Params {
    /// The most bytes of a datum, its sequence count included: bits 8 to 0, or 15 to 0.
    pub size: u16,
    /// Whether data may be shorter: bit 9, or 25.
    pub variable: bool,
    /// Bits 11 to 10, or 27 to 26.
    pub priority: Priority,
    /// Bits 14 to 13, or 30 to 29.
    pub kind: ConnectionKind,
    /// Whether more than one owner may be connected: bit 15, or 31.
    pub redundant: bool,
}
