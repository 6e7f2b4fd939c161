//! The name that an originator gives to a connection.

/// A connection's name: its connection serial number, and its originator's vendor and serial number
/// (Volume 1, chapter 3, connection triad). Triads are ordered by these fields in turn.
#[derive(Clone, Copy, Debug, PartialEq, Eq, PartialOrd, Ord)]
pub struct Triad {
    pub serial: u16,
    pub vendor: u16,
    pub originator: u32,
}
