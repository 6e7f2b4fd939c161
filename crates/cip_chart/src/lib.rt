//! A transcript as a sequence chart: a lifeline for each module, an arrow for each frame.
#![tactic(auto)]

mod collect;
mod cut;
mod fold;
mod marks;
mod resets;
mod ticks;

pub use collect::ChartView;
pub use cut::Cut;
