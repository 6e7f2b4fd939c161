//! The replies that rows answer: each failure, by its status and what it tells of the request. Each
//! call gives NoMemory where an allocation is refused.
ghost use Rattle.std.specs.Prelude.{◌≡◌, ◌≤◌, ◌<◌, ◌+◌, length, IfOk};
ghost use Rattle.cip_routing.specs.Answers.{answered, failure_bytes, unconnected_failed};
ghost use Rattle.cip_routing.specs.Answers.{unconnected_failure, open_failed, close_failed};
ghost use Rattle.cip_routing.specs.Effects.{timed_out_bytes};
ghost use Rattle.cip_routing.specs.Table.{unread_open_bytes, unread_close_bytes};

use crate::refusals::{LinkRefusal, UnconnectedRefusal};
use crate::{close_rows, open_rows};
use cip_base::{Bytes, MAX_MESSAGE, NoMemory, Status, Triad};
use cip_close::{
    CLOSE_FIXED_PART, CloseFailure, close_triad_at, close_words_at, write_close_failure,
};
use cip_message::{DataFault, WriteFault, write_reply};
use cip_open::{OpenFailure, open_fixed_part, open_words_at, triad_at, write_open_failure};
use cip_pending::Kind;
use cip_unconnected::UNCONNECTED_SEND;
use std::alloc::Global;

/// The reply of a service, which is below 80 and is answered with bit 7 set; NoMemory where an
/// allocation is refused. With a head of four bytes and one additional word the data fit into 1,400
/// bytes.
pub fn answered(alloc: Global, service: u8, status: Status, bytes: &[u8]) -> Result<Bytes, NoMemory>
    requires service { service < 128 }
    requires room { 6 + length bytes.now ≤ MAX_MESSAGE }
    ensures { IfOk result (λ b. b ≡ answered service status bytes.now) }
{
    match write_reply(alloc, 128 + service, status, bytes) {
        Ok(reply) => Ok(reply),
        Err(WriteFault::NoMemory) => Err(NoMemory),
        Err(WriteFault::TooLong) => unreachable!(),
    }
}

/// The failure of a request of a service below 80: its status, and no data; NoMemory where an
/// allocation is refused.
pub fn failure(alloc: Global, service: u8, status: Status) -> Result<Bytes, NoMemory>
    requires { service < 128 }
    ensures { IfOk result (λ b. b ≡ failure_bytes service status) }
{
    answered(alloc, service, status, &[])
}

/// The failure of an Unconnected_Send: its status, and the words of the path as received, where
/// they are known (Volume 1, chapter 3, Unconnected_Send's unsuccessful response).
pub(crate) fn unconnected_failed(
    alloc: Global,
    status: Status,
    words: Option<u8>,
) -> Result<Bytes, NoMemory>
    ensures { IfOk result (λ b. b ≡ unconnected_failed status words) }
{
    match words {
        None => answered(alloc, UNCONNECTED_SEND, status, &[]),
        Some(words) => answered(alloc, UNCONNECTED_SEND, status, &[words]),
    }
}

/// The failure of an Unconnected_Send by the row that refuses it (Volume 1, chapter 3,
/// Unconnected_Send's unsuccessful response); NoMemory where an allocation is refused.
pub fn unconnected_failure(
    alloc: Global,
    refusal: UnconnectedRefusal,
    words: Option<u8>,
) -> Result<Bytes, NoMemory>
    ensures { IfOk result (λ b. b ≡ unconnected_failure refusal words) }
{
    unconnected_failed(alloc, refusal.status(), words)
}

/// The failure of an open, large or not, that was read: its triad, and the words of its path as
/// received (Volume 1, chapter 3, Forward_Open's unsuccessful response); NoMemory where an
/// allocation is refused.
pub fn open_failed(
    alloc: Global,
    large: bool,
    status: Status,
    triad: Triad,
    words: u8,
) -> Result<Bytes, NoMemory>
    ensures { IfOk result (λ b. b ≡ open_failed large status triad words) }
{
    let failure = OpenFailure {
        triad: Some(triad),
        words: Some(words),
        large,
    };
    write_open_failure(alloc, status, &failure)
}

/// The failure of an open, large or not, that cannot be read: nothing where its fixed part is cut,
/// else its triad and its path size; NoMemory where an allocation is refused.
pub fn unread_open(
    alloc: Global,
    large: bool,
    data_: &[u8],
    fault: DataFault,
) -> Result<Bytes, NoMemory>
    ensures { IfOk result (λ b. b ≡ unread_open_bytes large data_.now fault) }
{
    let status = open_rows::unread_row(large, data_, fault).status();
    let failure = if data_.len() < open_fixed_part(large) {
        OpenFailure {
            triad: None,
            words: None,
            large,
        }
    } else {
        OpenFailure {
            triad: triad_at(data_),
            words: open_words_at(large, data_),
            large,
        }
    };
    write_open_failure(alloc, status, &failure)
}

/// The failure of a Forward_Close that was read: its triad, and the words of its path as received
/// (Volume 1, chapter 3, Forward_Close's unsuccessful response); NoMemory where an allocation is
/// refused.
pub fn close_failed(
    alloc: Global,
    status: Status,
    triad: Triad,
    words: u8,
) -> Result<Bytes, NoMemory>
    ensures { IfOk result (λ b. b ≡ close_failed status triad words) }
{
    let failure = CloseFailure {
        triad: Some(triad),
        words: Some(words),
    };
    write_close_failure(alloc, status, &failure)
}

/// The failure of a Forward_Close that cannot be read: nothing where its fixed part is cut, else
/// its triad and its path size; NoMemory where an allocation is refused.
pub fn unread_close(alloc: Global, data_: &[u8], fault: DataFault) -> Result<Bytes, NoMemory>
    ensures { IfOk result (λ b. b ≡ unread_close_bytes data_.now fault) }
{
    let status = close_rows::unread_row(data_, fault).status();
    let failure = if data_.len() < CLOSE_FIXED_PART {
        CloseFailure {
            triad: None,
            words: None,
        }
    } else {
        CloseFailure {
            triad: close_triad_at(data_),
            words: close_words_at(data_),
        }
    };
    write_close_failure(alloc, status, &failure)
}

/// The failure of a request whose answer did not come in time, which tells the words of its path;
/// NoMemory where an allocation is refused.
pub fn timed_out_failure(alloc: Global, kind: Kind, words: u8) -> Result<Bytes, NoMemory>
    ensures { IfOk result (λ b. b ≡ timed_out_bytes kind words) }
{
    let status = LinkRefusal::TicksSpent.status();
    match kind {
        Kind::Unconnected => unconnected_failed(alloc, status, Some(words)),
        Kind::Opening(triad) => open_failed(alloc, false, status, triad, words),
        Kind::OpeningLarge(triad) => open_failed(alloc, true, status, triad, words),
        Kind::Closing(triad) => close_failed(alloc, status, triad, words),
    }
}
