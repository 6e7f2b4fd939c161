//! Modules whose messages go on in the buffer in which they came.
#![tactic(auto)]

mod edited;
mod indexed;
mod new_module;

pub use indexed::IndexedModule;
pub use new_module::{NewModule, new_modules};
