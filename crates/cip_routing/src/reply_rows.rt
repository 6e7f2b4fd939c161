//! Which row of the reply group a reply meets.
ghost use Rattle.std.specs.Prelude.{◌≡◌, Option, None, Some};
ghost use Rattle.cip_message.specs.Reading.{reply_of};
ghost use Rattle.cip_message.specs.ReplyAt.{reply_at};
ghost use Rattle.cip_message.specs.Failure.{failure_at};
ghost use Rattle.cip_open.specs.SuccessAt.{open_reply_at};
ghost use Rattle.cip_close.specs.SuccessAt.{close_reply_at};
ghost use Rattle.cip_routing.specs.ReplyRows.{failure_row, opened_row, closed_row};
ghost use Rattle.cip_routing.specs.ReplyRows.{opening_row, open_kind_row, closing_row, kind_row};
ghost use Rattle.cip_routing.specs.ReplyRows.{read_row};
ghost use Rattle.cip_base.specs.declared.triad.Triad.{Triad as Triads};
ghost use Rattle.cip_pending.specs.Kinds.{opened_triad};
ghost use Rattle.cip_routing.specs.Code.Decisions.{reply_row_of, ReplyLeads};

use cip_base::Triad;
use cip_close::{FORWARD_CLOSE_REPLY, read_close_reply};
use cip_message::{ReplyView, read_failure, read_reply};
use cip_open::{OpenReply, open_reply_service, read_open_reply};
use cip_pending::Kind;

/// What a reply that was waited for says.
#[derive(Clone, Copy)]
pub enum ReplyDecision<'a> {
    /// It is none to a request of its kind.
    Malformed,
    /// The connection of this triad is open.
    OpenSucceeded(Triad, OpenReply<'a>),
    /// It goes up as it came.
    PassedUp,
}

// A failure carries no triad, or the request's.
fn failed(triad: Triad, data_: &[u8]) -> ReplyDecision<'_>
    ensures row { reply_row_of result ≡ failure_row triad (failure_at data_.entry.now) }
    ensures leads { (asked : Option Triads) → ReplyLeads asked result }
{
    match read_failure(data_) {
        Err(_) => ReplyDecision::Malformed,
        Ok(failure) => match failure.triad {
            None => ReplyDecision::PassedUp,
            Some(told) => {
                if told == triad {
                    ReplyDecision::PassedUp
                } else {
                    ReplyDecision::Malformed
                }
            }
        },
    }
}

fn opened(triad: Triad, data_: &[u8]) -> ReplyDecision<'_>
    ensures row { reply_row_of result ≡ opened_row triad (open_reply_at data_.entry.now) }
    ensures leads { ReplyLeads (Some triad) result }
{
    match read_open_reply(data_) {
        Err(_) => ReplyDecision::Malformed,
        Ok(success) => {
            if success.triad == triad {
                ReplyDecision::OpenSucceeded(triad, success)
            } else {
                ReplyDecision::Malformed
            }
        }
    }
}

fn closed(triad: Triad, data_: &[u8]) -> ReplyDecision<'_>
    ensures row { reply_row_of result ≡ closed_row triad (close_reply_at data_.entry.now) }
    ensures leads { (asked : Option Triads) → ReplyLeads asked result }
{
    match read_close_reply(data_) {
        Err(_) => ReplyDecision::Malformed,
        Ok(success) => {
            if success.triad == triad {
                ReplyDecision::PassedUp
            } else {
                ReplyDecision::Malformed
            }
        }
    }
}

// A success has no additional status and exactly its layout.
fn opening<'a>(triad: Triad, reply: ReplyView<'a>) -> ReplyDecision<'a>
    ensures row { reply_row_of result ≡ opening_row triad (reply_of reply.entry) }
    ensures leads { ReplyLeads (Some triad) result }
{
    if reply.general != 0 {
        failed(triad, reply.data_)
    } else if reply.status().extra.is_some() {
        ReplyDecision::Malformed
    } else {
        opened(triad, reply.data_)
    }
}

// One of the service of the open, large or not.
fn of_open<'a>(large: bool, triad: Triad, reply: ReplyView<'a>) -> ReplyDecision<'a>
    ensures row { reply_row_of result ≡ open_kind_row large triad (reply_of reply.entry) }
    ensures leads { ReplyLeads (Some triad) result }
{
    if reply.service == open_reply_service(large) {
        opening(triad, reply)
    } else {
        ReplyDecision::Malformed
    }
}

fn closing<'a>(triad: Triad, reply: ReplyView<'a>) -> ReplyDecision<'a>
    ensures row { reply_row_of result ≡ closing_row triad (reply_of reply.entry) }
    ensures leads { ReplyLeads None result }
{
    if reply.general != 0 {
        failed(triad, reply.data_)
    } else if reply.status().extra.is_some() {
        ReplyDecision::Malformed
    } else {
        closed(triad, reply.data_)
    }
}

fn by_kind<'a>(kind: Kind, reply: ReplyView<'a>) -> ReplyDecision<'a>
    ensures row { reply_row_of result ≡ kind_row kind (reply_of reply.entry) }
    ensures leads { ReplyLeads (opened_triad kind) result }
{
    match kind {
        Kind::Unconnected => ReplyDecision::PassedUp,
        Kind::Opening(triad) => of_open(false, triad, reply),
        Kind::OpeningLarge(triad) => of_open(true, triad, reply),
        Kind::Closing(triad) => {
            if reply.service == FORWARD_CLOSE_REPLY {
                closing(triad, reply)
            } else {
                ReplyDecision::Malformed
            }
        }
    }
}

/// The row of a reply to a request of this kind.
pub fn reply_row(kind: Kind, bytes: &[u8]) -> ReplyDecision<'_>
    ensures row { reply_row_of result ≡ read_row kind (reply_at bytes.entry.now) }
    ensures leads { ReplyLeads (opened_triad kind) result }
{
    match read_reply(bytes) {
        Err(_) => ReplyDecision::Malformed,
        Ok(reply) => by_kind(kind, reply),
    }
}
