//! The command group.

pub(crate) mod production;
pub(crate) mod rows;
pub(crate) mod steps;
