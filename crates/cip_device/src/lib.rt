//! A module of a chassis, for programs in C: `cip_device.h` has the same functions.
#![tactic(auto)]

mod bare;
mod commands;
mod deadlines;
mod frames;
mod handle;
mod held;
mod life;
mod making;
mod numbers;
mod output;
mod rows;
mod settings;
mod turn;
mod walks;
