//! Forward_Open and Large_Forward_Open: opening a connection along a path (Volume 1, chapter 3,
//! Forward_Open and Large_Forward_Open).
#![tactic(auto)]

mod failed;
mod kinds;
mod laws;
mod parameters;
mod request;
mod splitting;
mod success;

pub use failed::{OpenFailure, read_open_failure, write_open_failure};
pub use kinds::{
    FORWARD_OPEN, FORWARD_OPEN_REPLY, LARGE_FORWARD_OPEN, LARGE_FORWARD_OPEN_REPLY,
    open_fixed_part, open_reply_service, open_service, words_place,
};
pub use laws::{
    open_is_exact, open_reply_is_exact, parameters_have_their_parts, services_of_opens,
    written_open_failure_is_read, written_open_is_read, written_open_reply_is_read,
};
pub use parameters::{ConnectionKind, Params, Priority};
pub use request::{
    OPEN_RESERVED, OPEN_TICKS, OPEN_TO_ID, OpenFields, OpenView, large_words_at, open_words_at,
    read_large_open, read_open, read_open_of, triad_at, words_at, write_open,
};
pub use splitting::{large_params, open_params, params};
pub use success::{
    OpenReply, SUCCESS_FIXED_PART, SUCCESS_OT_ID, SUCCESS_RESERVED, SUCCESS_TO_ID, SUCCESS_WORDS,
    read_open_reply, write_open_reply,
};
