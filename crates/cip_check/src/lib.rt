//! Every fault of a topology file, not the first alone, and what is strange in one without faults.
#![tactic(auto)]

mod bytes;
mod checking;
mod escaped;
mod explaining;
mod lines;
mod names;
mod reached;
mod repairing;
mod report;
mod slots;
mod strangers;
mod tables;
mod telling;
mod unread;

pub use bytes::{NotUtf8, text_of};
pub use checking::check;
pub use escaped::Escaped;
pub use explaining::explain_load;
pub use lines::fault_line;
pub use names::module_names;
pub use report::Report;
pub use telling::explain_file;
pub use unread::{Unread, unread_by};
