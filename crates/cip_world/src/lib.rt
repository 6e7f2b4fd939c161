//! Modules in boxes, joined by the links of a topology, and the journal of what they did.
#![tactic(auto)]

mod fault;
mod flight;
mod fresh;
mod journal;
mod laws;
mod ledger;
mod names;
mod step;
mod world;

pub use cip_event::FrameName;
pub use fault::WorldFault;
pub use flight::{Coming, Flying, frame_at};
pub use fresh::{NewFault, check_fresh, is_fresh};
pub use journal::{Entry, Input, Outputs};
pub use laws::{
    a_close_has_no_trail, a_loss_has_no_root, a_request_gets_one_reply, a_reset_leaves_no_mirror,
    an_op_has_one_chain, an_op_opens_once, chains_carry_data, hops_are_mirrored,
    replies_answer_their_requests, requests_come_once, runs_are_histories,
    what_arrives_was_produced, what_is_consumed_was_entered, what_is_lost_is_gone,
    what_waits_is_listed,
};
pub use world::{End, Shown, World};
