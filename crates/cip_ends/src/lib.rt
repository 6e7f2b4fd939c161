//! What wide scripts and a look at rooms need of a world: a step of a script played over it, of
//! which nothing is printed, the end of an op in its journal, and the op that a name means. Both
//! are found by an index, so that many questions cost no more than one walk.
#![tactic(auto)]

mod ends;
mod names;
mod silent;

pub use ends::Ends;
pub use names::{Names, Op};
pub use silent::{PlayFault, play_step};
