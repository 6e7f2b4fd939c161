//! The target: the Identity object and the Assembly objects that a module has itself, and what they
//! answer (Volume 1, chapter 5, object library).
#![tactic(auto)]

mod application;
mod assemblies;
mod assembly;
mod config;
mod connections;
mod ends;
mod identity;
mod laws;
mod link;
mod object;
mod rows;
mod target;

pub use config::AssemblyConfig;
pub use ends::EndRefusal;
pub use identity::{Identity, IdentityFields, is_product_name};
pub use laws::{points_of_an_end, reset_is_as_made, sizes_stay, what_reads_as_reset};
pub use link::EndLink;
pub use object::{ObjectPath, object_path};
pub use rows::TargetRefusal;
pub use target::Target;
