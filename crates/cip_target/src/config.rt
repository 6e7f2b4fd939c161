//! What assemblies a target has.

/// An assembly of a target: its instance, 1 to 65,535, and its size in bytes, at most 65,535.
#[derive(Clone, Copy, Debug, PartialEq, Eq)]
pub struct AssemblyConfig {
    pub instance: u16,
    pub size: u16,
}
