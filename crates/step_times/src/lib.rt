//! Steps of a bridge between two nodes, many times over, to be timed from outside.
#![tactic(auto)]

mod bridge;
mod cases;
mod fault;
mod frames;

pub use cases::{CASES, Case, case_of};
pub use fault::TimesFault;
