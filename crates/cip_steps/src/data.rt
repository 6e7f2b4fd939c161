//! The data group.

pub(crate) mod steps;
