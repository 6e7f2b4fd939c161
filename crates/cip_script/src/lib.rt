//! Scripts: the steps of one, or its first faulty line, and what is wrong there.
#![tactic(auto)]

mod explaining;
mod frames;
mod steps;
mod text;
mod words;

pub use explaining::{Explained, WordFault, explain, usage_of};
pub use frames::Frames;
pub use steps::{Mode, Numbered, ScriptFault, Step, StepsFault, read_steps};
