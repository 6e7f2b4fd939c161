//! The unconnected send group.

pub(crate) mod steps;
