//! Plans and runs at which the laws of runs hold with each of their premises met.
#![tactic(auto)]

mod laws;

pub use laws::{
    a_bridge_is_reset, a_close_is_told_of, a_command_resets, a_connection_is_forgotten,
    a_connection_is_mirrored_no_more, a_datum_is_carried, a_datum_is_told_of,
    a_failure_tells_where, a_lapsed_connection_is_mirrored, a_large_success_tells_where,
    a_late_reply_changes_nothing, a_loss_is_told_of, a_module_resets_itself,
    a_produced_datum_is_told_of, a_reset_is_told_of, a_success_tells_where, a_time_out_tells_where,
    an_answer_is_the_targets, an_end_is_told_of, an_open_connection_ends,
    an_open_draws_its_numbers, bounds_are_met, bounds_in_numbers, chained_run, connected_run,
    failed_open, large_run, late_close, late_reply, one_after_the_other, opened_again,
    plans_are_topologies, stored_run, the_run_is_told_of, timed_out_open,
};
