//! The routing table, as definitions; what decides its rows, what each row answers, what a module
//! shows, and what every kind of module promises.
#![tactic(auto)]

mod answers;
mod close_rows;
mod contract;
mod first;
mod keys;
mod links;
mod messages;
mod open_rows;
mod outputs;
mod refusals;
mod reply_rows;
mod request_rows;
mod room;
mod show;
mod spent;
mod tables;
mod unconnected_rows;

pub use answers::{
    answered, close_failed, failure, open_failed, timed_out_failure, unconnected_failure,
    unread_close, unread_open,
};
pub use cip_config::{
    Assemblies, LegalAddresses, ModuleConfig, ModuleKind, ModuleSettings, PortConfig, Ports,
    is_legal, is_name,
};
pub use cip_event::{Body, Command, Dropped, Event, LargeParams, OpenParams, Output, Refused};
pub use contract::{Module, StepFault};
pub use keys::leading_mismatch;
pub use links::{link_refusal, wait_refusal};
pub use messages::{message_anew, no_bytes, reply_to};
pub use outputs::{Writing, behind_count, datum_down, datum_up, written_of};
pub use refusals::{
    CloseRefusal, KeyPart, LinkRefusal, OpenRefusal, RequestRefusal, UnconnectedRefusal,
    plain_status,
};
pub use reply_rows::{ReplyDecision, reply_row};
pub use request_rows::{RequestDecision, is_malformed, request_row};
pub use room::fitted;
pub use show::{assembly_rows, hop_row, hop_rows, pending_rows};
pub use spent::SpentOps;
pub use tables::{
    AssemblyRow, AssemblyRows, HopRow, HopRows, Ops, PendingRow, PendingRows, Tables,
};
pub use unconnected_rows::{UnconnectedDecision, unconnected_row, unread_row};
