//! What goes out of a frame that stays in the buffer in which it came.
use cip_event::Output;

/// What goes on of the bytes that came, or goes up.
#[derive(Clone, Copy, Debug, PartialEq, Eq)]
pub enum Edit {
    /// They go as they came.
    AsTheyCame,
    /// The request that an Unconnected_Send carries.
    Unwrapped,
    /// An Unconnected_Send, along what is left of its route.
    SentOn,
    /// An open, large or not, along what is left of its path and with this own id as T→O id.
    OpenedOn { down_id: u32 },
    /// A Forward_Close, along what is left of its path.
    ClosedOn,
    /// The success of an open, large or not, with these ids.
    SuccessUp { up_id: u32, their_id: u32 },
}

/// What a frame puts out.
#[derive(Debug, Drop)]
pub enum Reaction {
    /// An output that is whole.
    Whole(Output),
    /// An output that lacks its bytes: they are those that came, edited so.
    Edited { output: Output, edit: Edit },
    /// Outputs that are whole, in turn.
    Several(Vec<Output>),
}
