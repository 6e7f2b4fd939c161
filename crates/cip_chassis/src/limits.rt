//! The limits of a topology.

/// The most links of a topology.
pub const MAX_LINKS: usize = 32;
/// The most modules of a topology.
pub const MAX_MODULES: usize = 64;
