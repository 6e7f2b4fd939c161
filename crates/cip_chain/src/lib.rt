//! What the entries of a journal have to do with one another: which command or tick an entry came
//! from, where the request of a command went, and along which modules a connection goes.
#![tactic(auto)]

mod chains;
mod index;
mod laws;
mod roots;
mod seeking;
mod trails;

pub use chains::{ChainEnd, ChainFault, ChainView, Modules, chain};
pub use index::TrailIndex;
pub use laws::answers_exclude_one_another;
pub use roots::root;
pub use trails::trail;
