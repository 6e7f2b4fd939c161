//! Messages to and from a Connection Manager, edited in the buffer in which they came: what a
//! router sends on of a request, and what it sends up of an open's success (Volume 1, chapter 3).
//!
//! Each call leaves exactly the bytes of the message that goes on, as if it had been written anew,
//! reserved and pad bytes 00. None takes memory: what goes on is never longer than what came.
#![tactic(auto)]

mod close;
mod going;
mod open;
mod success;
mod unconnected;

pub use close::forward_close_bytes;
pub use open::forward_open_bytes;
pub use success::success_up_bytes;
pub use unconnected::{forward_unconnected_bytes, unwrap_bytes};
