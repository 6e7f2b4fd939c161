//! The reply of a successful open.
ghost use Rattle.std.specs.Prelude.{◌≡◌, ◌≤◌, ◌%◌, false, length, IfOk};
ghost use Rattle.cip_message.specs.Gives.{Gives};
ghost use Rattle.cip_message.specs.Exact.{IsRead};
ghost use Rattle.cip_open.specs.Success.{ReadsOpenReply, IsOpenReplyFault, open_reply_bytes};
ghost use Rattle.cip_open.specs.SuccessAt.{open_reply_at};
ghost use Rattle.cip_open.specs.Reading.{success_of};

use crate::kinds::open_reply_service;
use cip_base::{Bytes, NoMemory, Status, Triad, put_double};
use cip_message::{
    DataFault, REPLY_HEADER, counted_part, double_at, put_reply_header, put_triad, triad_at,
};
use std::alloc::{AllocError, Global};

/// Where the O→T network connection id stands in the data of a success.
pub const SUCCESS_OT_ID: usize = 0;
/// Where the T→O network connection id stands in the data of a success.
pub const SUCCESS_TO_ID: usize = 4;
/// Where the size of the application reply in words stands in the data of a success.
pub const SUCCESS_WORDS: usize = 24;
/// Where the reserved byte stands in the data of a success.
pub const SUCCESS_RESERVED: usize = 25;
/// The bytes of the data of a success before the application reply.
pub const SUCCESS_FIXED_PART: usize = 26;

/// What the data of a successful open's reply says (Volume 1, chapter 3, Forward_Open and
/// Large_Forward_Open, successful response).
#[derive(Clone, Copy)]
pub struct OpenReply<'a> {
    /// The O→T network connection id.
    pub ot_id: u32,
    /// The T→O network connection id.
    pub to_id: u32,
    pub triad: Triad,
    /// The O→T actual packet interval, in microseconds.
    pub ot_api: u32,
    /// The T→O actual packet interval, in microseconds.
    pub to_api: u32,
    /// The application reply: an even number of bytes, at most 510.
    pub reply: &'a [u8],
    /// Whether the reply is that of a Large_Forward_Open: it picks the service that is written.
    pub large: bool,
}

#[tactic(auto, unfolding(crate::specs::SuccessAt::open_reply_at))]
fn success(data_: &[u8]) -> Result<OpenReply<'_>, DataFault>
    ensures given { Gives success_of result (open_reply_at data_.now) }
    ensures standard { IfOk result (λ r. r.large ≡ false) }
{
    let reply = counted_part(data_, SUCCESS_WORDS, SUCCESS_FIXED_PART)?;
    Ok(OpenReply {
        ot_id: double_at(data_, SUCCESS_OT_ID),
        to_id: double_at(data_, SUCCESS_TO_ID),
        triad: triad_at(data_, 8),
        ot_api: double_at(data_, 16),
        to_api: double_at(data_, 20),
        reply,
        large: false,
    })
}

/// What the data of a successful open's reply says, all of it; the data is what follows the reply's
/// status (Volume 1, chapter 3, Forward_Open and Large_Forward_Open, successful response). The
/// reserved byte has any value. The data does not tell the service: `large` is false. It takes no
/// memory.
///
/// Otherwise the first that fits: Short where bytes are missing, Long where bytes stand after the
/// application reply.
pub fn read_open_reply(data_: &[u8]) -> Result<OpenReply<'_>, DataFault>
    ensures read { IsRead success_of open_reply_at ReadsOpenReply IsOpenReplyFault data_.now
        result }
    ensures standard { IfOk result (λ r. r.large ≡ false) }
{
    success(data_)
}

const DONE: Status = Status {
    general: 0,
    extra: None,
};

fn joined(alloc: Global, reply: &OpenReply<'_>) -> Result<Vec<u8>, AllocError>
    requires { length reply.now.reply.now ≤ 510 }
    ensures { IfOk result (λ v. v.items ≡ open_reply_bytes reply.now.large (success_of reply.now)) }
{
    let room = REPLY_HEADER + SUCCESS_FIXED_PART + reply.reply.len();
    let mut bytes = Vec::with_capacity(alloc, room)?;
    put_reply_header(&mut bytes, open_reply_service(reply.large), DONE)?;
    put_double(&mut bytes, reply.ot_id)?;
    put_double(&mut bytes, reply.to_id)?;
    put_triad(&mut bytes, reply.triad)?;
    put_double(&mut bytes, reply.ot_api)?;
    put_double(&mut bytes, reply.to_api)?;
    bytes.push((reply.reply.len() / 2) as u8)?;
    bytes.push(0)?;
    bytes.extend_from_slice(reply.reply)?;
    Ok(bytes)
}

/// The whole message of a successful open's reply: the reply's header with status 00, the
/// connection ids, the triad, the actual packet intervals, the size of the application reply in
/// words, a reserved 00, the application reply (Volume 1, chapter 3, Forward_Open and
/// Large_Forward_Open, successful response). The application reply has an even number of bytes, at
/// most 510.
pub fn write_open_reply(alloc: Global, reply: &OpenReply<'_>) -> Result<Bytes, NoMemory>
    requires even { length reply.now.reply.now % 2 ≡ 0 }
    requires most { length reply.now.reply.now ≤ 510 }
    ensures { IfOk result (λ b. b ≡ open_reply_bytes reply.now.large (success_of reply.now)) }
{
    Ok(Bytes::of(joined(alloc, reply)?))
}
