//! Unconnected_Send: a request that carries another one along a route (Volume 1, chapter 3,
//! Unconnected_Send).
#![tactic(auto)]

mod fault;
mod laws;
mod unconnected;

pub use fault::UnconnectedFault;
pub use laws::{unconnected_is_exact, written_unconnected_is_read};
pub use unconnected::{
    UNCONNECTED_REQUEST, UNCONNECTED_SEND, UNCONNECTED_SIZE, UNCONNECTED_TICKS, UnconnectedView,
    inner, read_unconnected, request_size, route_words, write_unconnected,
};
