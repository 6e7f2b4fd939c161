//! The close group.

pub(crate) mod rows;
pub(crate) mod steps;
