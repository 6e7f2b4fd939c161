//! A chassis: its links and modules, the rules that they keep, and where frames come in it.
#![tactic(auto)]

mod laws;
mod limits;
mod links;
mod name;
mod seats;
mod topology;

pub use laws::{the_way_back_leads_back, walks_go_by_hops};
pub use limits::{MAX_LINKS, MAX_MODULES};
pub use links::Link;
pub use name::Name;
pub use seats::{Seat, Seats, Spot};
pub use topology::{Arrival, Topology};
