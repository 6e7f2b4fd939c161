//! Replies of the Message Router.
ghost use Rattle.std.specs.Prelude.{◌≡◌, ◌<◌, ◌≤◌, ◌↔◌, length, IfOk, IsErrOf, OnOk, ◌++◌};
ghost use Rattle.cip_message.specs.Gives.{Gives};
ghost use Rattle.cip_message.specs.Exact.{IsRead};
ghost use Rattle.cip_message.specs.Reply.{ReadsReply, IsReplyFault, reply_bytes, reply_with};
ghost use Rattle.cip_message.specs.Reply.{reply_header, status_of};
ghost use Rattle.cip_message.specs.ReplyAt.{reply_from, reply_at};
ghost use Rattle.cip_message.specs.Reading.{reply_of};

use crate::fault::{ReplyFault, WriteFault};
use byteorder::{ByteOrder, LittleEndian};
use cip_base::{Bytes, MAX_MESSAGE, Status, put_word};
use std::alloc::{AllocError, Global};

/// Where the reserved byte of a reply stands.
pub const REPLY_RESERVED: usize = 1;
/// The bytes of a reply before its additional status.
pub const REPLY_HEADER: usize = 4;

/// A reply whose additional status and data are borrowed (Volume 1, chapter 2, Message Router reply
/// format).
#[derive(Clone, Copy)]
pub struct ReplyView<'a> {
    /// The service, whose bit 7 is set in what was read.
    pub service: u8,
    /// The general status.
    pub general: u8,
    /// The bytes of the additional status: 16-bit words, the lowest byte first.
    pub extra: &'a [u8],
    /// What follows the additional status.
    pub data_: &'a [u8],
}

impl<'a> ReplyView<'a> {
    /// The service.
    pub fn service(self) -> u8
        ensures { result ≡ self.entry.service }
    {
        self.service
    }

    /// The general status, and the first word of additional status where there is one (Volume 1,
    /// Appendix B).
    pub fn status(self) -> Status
        ensures { result ≡ status_of (reply_of self.entry) }
    {
        let extra = match self.extra {
            [_, _, ..] => Some(LittleEndian::read_u16(self.extra)),
            _ => None,
        };
        Status {
            general: self.general,
            extra,
        }
    }

    /// The data: every byte after the additional status.
    pub fn data_(self) -> &'a [u8]
        ensures { result.now ≡ self.entry.data_.now }
    {
        self.data_
    }
}

// The additional status and the data are parted by the size in words.
fn parts(service: u8, general: u8, words: u8, rest: &[u8]) -> Result<ReplyView<'_>, ReplyFault>
    ensures { Gives reply_of result (reply_from service general words rest.now) }
{
    if service < 128 {
        return Err(ReplyFault::NotReply);
    }
    let len = 2 * usize::from(words);
    if rest.len() < len {
        return Err(ReplyFault::ExtraSize);
    }
    let (extra, data_) = rest.split_at(len);
    Ok(ReplyView {
        service,
        general,
        extra,
        data_,
    })
}

#[tactic(auto, unfolding(crate::specs::ReplyAt::reply_at))]
fn reply(bytes: &[u8]) -> Result<ReplyView<'_>, ReplyFault>
    ensures { Gives reply_of result (reply_at bytes.now) }
{
    match bytes {
        [service, _, general, words, rest @ ..] => parts(*service, *general, *words, rest),
        _ => Err(ReplyFault::TooShort),
    }
}

/// The reply that the bytes are, all of them: service, a reserved byte of any value, general
/// status, size of the additional status in 16-bit words, additional status, data (Volume 1,
/// chapter 2, Message Router reply format). It takes no memory.
///
/// Otherwise the first that fits: TooShort under 4 bytes, NotReply where bit 7 of the service is
/// clear, ExtraSize where the additional status passes the end.
pub fn read_reply(bytes: &[u8]) -> Result<ReplyView<'_>, ReplyFault>
    ensures { IsRead reply_of reply_at ReadsReply IsReplyFault bytes.now result }
{
    reply(bytes)
}

/// Appends the header of a reply with at most one word of additional status: the service, a
/// reserved 00, the general status, the size of the additional status in words, the additional
/// status (Volume 1, chapter 2, Message Router reply format). The data follows.
pub fn put_reply_header(out: &mut Vec<u8>, service: u8, status: Status) -> Result<(), AllocError>
    ensures { OnOk result (out.new.items ≡ out.old.items ++ reply_header service status) }
{
    out.extend_from_slice(&[service, 0, status.general])?;
    match status.extra {
        None => {
            out.push(0)?;
            Ok(())
        }
        Some(word) => {
            out.push(1)?;
            put_word(out, word)
        }
    }
}

fn joined(alloc: Global, service: u8, status: Status, data_: &[u8]) -> Result<Vec<u8>, AllocError>
    ensures { IfOk result (λ v. v.items ≡ reply_bytes (reply_with service status data_.now)) }
{
    let mut bytes = Vec::with_capacity(alloc, 6 + data_.len())?;
    put_reply_header(&mut bytes, service, status)?;
    bytes.extend_from_slice(data_)?;
    Ok(bytes)
}

/// The bytes of a reply with at most one word of additional status, the reserved byte 00 (Volume 1,
/// chapter 2, Message Router reply format). The condition is that bit 7 of the service is set, so
/// that what is written is read back.
///
/// TooLong past 66,000 bytes in all, NoMemory where an allocation is refused.
pub fn write_reply(
    alloc: Global,
    service: u8,
    status: Status,
    data_: &[u8],
) -> Result<Bytes, WriteFault>
    requires { 128 ≤ service }
    ensures ok { IfOk result (λ b. b ≡ reply_bytes (reply_with service status data_.now)) }
    ensures reads { IfOk result (λ b. ReadsReply b (reply_with service status data_.now)) }
    ensures too_long { IsErrOf result WriteFault.TooLong
        ↔ (MAX_MESSAGE < length (reply_bytes (reply_with service status data_.now))) }
{
    let head = match status.extra {
        None => 4,
        Some(_) => 6,
    };
    if data_.len() > MAX_MESSAGE - head {
        return Err(WriteFault::TooLong);
    }
    match joined(alloc, service, status, data_) {
        Ok(bytes) => Ok(Bytes::of(bytes)),
        Err(_) => Err(WriteFault::NoMemory),
    }
}
