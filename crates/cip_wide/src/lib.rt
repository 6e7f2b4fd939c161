//! Wide scripts: scripts with names for ops, paths in words, frames that are found by their links,
//! links that are down, repeated lines and expectations, and the script of `cipbridge` that each of
//! them is.
#![tactic(auto)]

mod blocks;
mod data;
mod expecting;
mod fault;
mod lines;
mod links;
mod narrowing;
mod plain;
mod reading;

pub use cip_outcomes::{
    Answer, Code, Counted, Differing, DropReason, How, Lengths, Near, OpName, OpenSizes, Order,
    Pairs, Place, Refusal, Sizes, Subject, Unmet,
};
pub use fault::{LineFault, WideFault, WordFault};
pub use narrowing::narrow;
