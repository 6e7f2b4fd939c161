//! What a module is: its identity, its ports, its assemblies and its rooms, each in its range.
#![tactic(auto)]

mod config;
mod copies;
mod legal;
mod lists;
mod ports;
mod same;

pub use config::{LegalAddresses, ModuleConfig, ModuleKind, ModuleSettings, PortConfig};
pub use legal::{is_legal, is_name};
pub use lists::{Assemblies, Ports};
pub use ports::port_of;
