//! The words of the lines that the drivers of the tests read, and texts that both tell alike.
#![tactic(auto)]

mod texts;
mod words;

pub use texts::{Asked, Asker, Numbers, Pairs, Then};
pub use words::Words;
