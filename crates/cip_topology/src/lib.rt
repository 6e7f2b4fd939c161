//! Topology files: a chassis read from its text, and the chassis that the program has without one.
#![tactic(auto)]

mod chassis;
mod fault;
mod found;
mod key;
mod laws;
mod link_tables;
mod loading;
mod module_tables;
mod place;
mod port_tables;
mod values;

pub use chassis::CHASSIS;
pub use cip_base::Excerpt;
pub use cip_chassis::{
    Arrival, Link, MAX_LINKS, MAX_MODULES, Name, Topology, the_way_back_leads_back,
    walks_go_by_hops,
};
pub use fault::{LoadFault, Syntax};
pub use found::Found;
pub use key::Key;
pub use laws::what_keeps_every_rule_is_loaded;
pub use loading::load;
pub use place::Place;
