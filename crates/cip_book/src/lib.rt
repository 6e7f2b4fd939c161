//! What is known of a transcript while it is read: the frames under way, connections and ops; what
//! a frame is in short; and the trait of a view, which takes line by line.
#![tactic(auto)]

mod book;
mod label;
mod opens;
mod past;
mod pieces;
mod reasons;
mod says;
mod view;

pub use book::{Book, Known, Sent};
pub use label::{Kind, Label, NameText, label_of, put_label};
pub use opens::{MAX_TOLD, Opens, only_op};
pub use past::{Past, Taken};
pub use pieces::Pieces;
pub use reasons::{command_word, drop_reason, drop_word, refusal_reason, refusal_word};
pub use says::{BodyText, DatumText, OfText, ReplyText, RequestText};
pub use view::{Ending, View, feed, finish};
