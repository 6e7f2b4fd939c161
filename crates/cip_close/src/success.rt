//! The reply of a successful Forward_Close.
ghost use Rattle.std.specs.Prelude.{◌≡◌, ◌≤◌, ◌%◌, length, IfOk};
ghost use Rattle.cip_message.specs.Gives.{Gives};
ghost use Rattle.cip_message.specs.Exact.{IsRead};
ghost use Rattle.cip_close.specs.Success.{ReadsCloseReply, IsCloseReplyFault, close_reply_bytes};
ghost use Rattle.cip_close.specs.SuccessAt.{close_reply_at};
ghost use Rattle.cip_close.specs.Reading.{success_of};

use crate::request::FORWARD_CLOSE_REPLY;
use cip_base::{Bytes, NoMemory, Status, Triad};
use cip_message::{DataFault, REPLY_HEADER, counted_part, put_reply_header, put_triad, triad_at};
use std::alloc::{AllocError, Global};

/// What the data of a successful Forward_Close's reply says (Volume 1, chapter 3, Forward_Close,
/// successful response).
#[derive(Clone, Copy)]
pub struct CloseReply<'a> {
    pub triad: Triad,
    /// The application reply: an even number of bytes, at most 510.
    pub reply: &'a [u8],
}

#[tactic(auto, unfolding(crate::specs::SuccessAt::close_reply_at))]
fn success(data_: &[u8]) -> Result<CloseReply<'_>, DataFault>
    ensures { Gives success_of result (close_reply_at data_.now) }
{
    let reply = counted_part(data_, 8, 10)?;
    Ok(CloseReply {
        triad: triad_at(data_, 0),
        reply,
    })
}

/// What the data of a successful Forward_Close's reply says, all of it; the data is what follows
/// the reply's status (Volume 1, chapter 3, Forward_Close, successful response). The reserved byte
/// has any value. It takes no memory.
///
/// Otherwise the first that fits: Short where bytes are missing, Long where bytes stand after the
/// application reply.
pub fn read_close_reply(data_: &[u8]) -> Result<CloseReply<'_>, DataFault>
    ensures { IsRead success_of close_reply_at ReadsCloseReply IsCloseReplyFault data_.now result }
{
    success(data_)
}

const DONE: Status = Status {
    general: 0,
    extra: None,
};

fn joined(alloc: Global, reply: &CloseReply<'_>) -> Result<Vec<u8>, AllocError>
    requires { length reply.now.reply.now ≤ 510 }
    ensures { IfOk result (λ v. v.items ≡ close_reply_bytes (success_of reply.now)) }
{
    let mut bytes = Vec::with_capacity(alloc, REPLY_HEADER + 10 + reply.reply.len())?;
    put_reply_header(&mut bytes, FORWARD_CLOSE_REPLY, DONE)?;
    put_triad(&mut bytes, reply.triad)?;
    bytes.push((reply.reply.len() / 2) as u8)?;
    bytes.push(0)?;
    bytes.extend_from_slice(reply.reply)?;
    Ok(bytes)
}

/// The whole message of a successful Forward_Close's reply: the reply's header with status 00, the
/// triad, the size of the application reply in words, a reserved 00, the application reply (Volume
/// 1, chapter 3, Forward_Close, successful response). The application reply has an even number of
/// bytes, at most 510.
pub fn write_close_reply(alloc: Global, reply: &CloseReply<'_>) -> Result<Bytes, NoMemory>
    requires even { length reply.now.reply.now % 2 ≡ 0 }
    requires most { length reply.now.reply.now ≤ 510 }
    ensures { IfOk result (λ b. b ≡ close_reply_bytes (success_of reply.now)) }
{
    Ok(Bytes::of(joined(alloc, reply)?))
}
