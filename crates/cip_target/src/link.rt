//! A connection that ends here.

/// What a connection joins at its end (Volume 1, chapter 3, Forward_Open, connection path): the
/// instances of three assemblies, and the transport class.
#[derive(Clone, Copy, Debug, PartialEq, Eq)]
pub struct EndLink {
    /// The instance for the configuration.
    pub config: u16,
    /// The O→T instance, which takes the data that come.
    pub consume: u16,
    /// The T→O instance, whose bytes are produced.
    pub produce: u16,
    /// The transport class, 0 or 1.
    pub class: u8,
}
