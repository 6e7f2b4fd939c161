//! Transcripts shown: each line with what its message says, and each entry as JSON.
#![tactic(auto)]

mod json;
mod note_json;
mod note_text;
mod notes;
mod text;

pub use cip_book::{
    BodyText, Book, DatumText, Ending, Kind, Known, Label, NameText, Pieces, ReplyText,
    RequestText, Sent, View, command_word, drop_reason, drop_word, feed, finish, label_of,
    refusal_reason, refusal_word,
};
pub use json::JsonView;
pub use text::TextView;
