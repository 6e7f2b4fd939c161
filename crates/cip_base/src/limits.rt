//! The limits of a chassis and of what it carries.

/// The most bytes of a link address.
pub const MAX_ADDRESS: usize = 16;
/// The most bytes of a path: 255 words.
pub const MAX_PATH: usize = 510;
/// The most bytes of a Message Router request or reply.
pub const MAX_MESSAGE: usize = 66_000;
/// The most bytes of a request in an Unconnected_Send: a 16-bit word says its size.
pub const MAX_EMBEDDED: usize = 65_535;
/// The most bytes of an assembly, and of a datum without its sequence count.
pub const MAX_DATUM: usize = 65_535;
/// The most ports of a module.
pub const MAX_PORTS: usize = 8;
/// The most assemblies of a module.
pub const MAX_ASSEMBLIES: usize = 64;
/// A connection id or a request number has a count of 16 bits, from 1, under an incarnation.
pub const COUNTS: u64 = 65_536;
/// The last count of an incarnation: none comes back before the next incarnation.
pub const LAST_COUNT: u64 = 65_535;
/// The last incarnation of a module: no reset follows it.
pub const LAST_INCARNATION: u64 = 65_535;
/// The most requests of one module that wait for their replies.
pub const MAX_PENDINGS: usize = 256;
/// The most connections of one module, open and opening together.
pub const MAX_HOPS: usize = 256;
