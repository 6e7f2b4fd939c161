//! The reply group.

pub(crate) mod steps;
