//! The names of services and statuses (CIP Networks Library, Volume 1, chapter 3 and Appendices A
//! and B).
#![tactic(auto)]

mod services;
mod statuses;

pub use services::service_name;
pub use statuses::{connection_status, general_status, status_name};
