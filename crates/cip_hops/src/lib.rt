//! The connections of a module, opening and open: each by its triad, its local op and its own ids.
#![tactic(auto)]

mod hop;
mod onward;
mod opening;
mod records;
mod table;
mod triads;

pub use hop::{Held, Hop, Side};
pub use onward::Onward;
pub use opening::{BeginFault, BeginReason, HopDown, HopUp, Opening, OwnIds};
pub use table::HopTable;
