//! A transcript as a capture: a pcapng file with a packet for each frame.
#![tactic(auto)]

mod addresses;
mod blocks;
mod capture;
mod packets;

pub use capture::CaptureView;
