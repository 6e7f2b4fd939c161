//! What a device does at each event of the routing table, whatever kind of module it is.
#![tactic(auto)]

mod close;
mod command;
mod data;
mod device;
mod effects;
mod making;
mod open;
mod reaction;
mod reply;
mod request;
mod show;
mod target;
mod tick;
mod unconnected_send;

pub use device::Device;
pub use making::Making;
pub use reaction::{Edit, Reaction};
pub use tick::steps::TickFault;
