//! What a module is given, and what it does: commands, frames and ticks, and their outputs; and
//! the names of frames.
#![tactic(auto)]

mod copies;
mod event;
mod filled;
mod frame;

pub use event::{Body, Command, Dropped, Event, LargeParams, OpenParams, Output, Refused};
pub use frame::FrameName;
