//! Transcripts read back: each line as what it shows, or the word of it that is faulty.
#![tactic(auto)]

mod fault;
mod fields;
mod heads;
mod line;
mod notes;
mod outputs;
mod reader;

pub use cip_event::FrameName;
pub use fault::{Expected, LineFault, ReadFault};
pub use line::{CommandWord, Given, Line, Note};
pub use reader::{Reader, read_line};
