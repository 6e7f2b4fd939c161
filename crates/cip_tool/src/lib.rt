//! What engineers ask beside a run: paths in words and in bytes, network connection parameters,
//! and the names of statuses.
#![tactic(auto)]

mod answers;
mod fault;
mod hexadecimal;
mod laws;
mod numbers;
mod parameters;
mod reading;
mod route;
mod shown;
mod spelling;
mod words;

pub use answers::{AnswerFault, params_answer, params_of, path_answer, size_of, status_answer};
pub use fault::{RouteFault, WordFault};
pub use hexadecimal::{HexFault, fault_place, hex_fault};
pub use laws::spelled_paths_are_read;
pub use numbers::{digit, number, number_u8, number_u16, number_u32};
pub use parameters::{
    ParamsOptions, kind_name, params_word, priority_name, priority_named, reserved_bits,
};
pub use route::{read_route, route_path};
pub use shown::Shown;
pub use spelling::spell_path;
