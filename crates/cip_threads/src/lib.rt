//! A worker thread for each module, and the journal of what they did together.
#![tactic(auto)]

mod book;
mod feed;
mod frames;
mod gate;
mod laws;
mod lists;
mod message;
mod queues;
mod report;
mod run;
mod same;
mod state;
mod views;
mod worker;

pub use book::{Book, Taken};
pub use feed::Feed;
pub use gate::{Gate, OpenGate};
pub use laws::{a_report_tells_what_a_run_tells, the_end_of_a_report_is_true};
pub use lists::Items;
pub use report::{Report, RunFault, Waiting};
pub use run::run_threads;
pub use state::{BookState, CommitFault, Handed, feeds_fit};
