//! Forward_Close: closing a connection along the path by which it was opened (Volume 1, chapter 3,
//! Forward_Close).
#![tactic(auto)]

mod failed;
mod laws;
mod request;
mod success;

pub use failed::{CloseFailure, read_close_failure, write_close_failure};
pub use laws::{
    close_is_exact, close_reply_is_exact, written_close_failure_is_read, written_close_is_read,
    written_close_reply_is_read,
};
pub use request::{
    CLOSE_FIXED_PART, CLOSE_RESERVED, CLOSE_TICKS, CLOSE_WORDS, CloseFields, CloseView,
    FORWARD_CLOSE, FORWARD_CLOSE_REPLY, close_triad_at, close_words_at, read_close, write_close,
};
pub use success::{CloseReply, read_close_reply, write_close_reply};
