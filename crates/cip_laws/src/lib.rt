//! What the routing table tells: of each event and its effects, and of all that a module ever did.
#![tactic(auto)]

mod effects;
mod histories;
mod messages;
mod views;

pub use effects::{effects_change_the_tables, effects_tell, outputs_come_from_effects};
pub use histories::{
    a_reset_begins_anew, connections_are_opened_by_successes, ids_are_born_once,
    numbers_are_born_once, ops_are_done_once, ops_end_once, requests_are_replied_once,
    requests_stem_from_turns, tables_stay_in_order,
};
pub use messages::{
    data_go_on, failures_are_read_back, failures_have_a_status,
    no_manager_request_travels_embedded, what_goes_on_is_no_open, what_goes_on_meets_its_group,
};
pub use views::{fresh_tables_are_of_the_first_state, views_tell_states};
