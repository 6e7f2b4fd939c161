//! The group of any request.

pub(crate) mod steps;
