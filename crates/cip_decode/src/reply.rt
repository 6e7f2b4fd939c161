//! Replies: what they answer, and what their data says.
ghost use Rattle.std.specs.Prelude.{◌≡◌, ◌==◌, IfOk, true, false};
ghost use Rattle.cip_message.specs.Gives.{Gives};
ghost use Rattle.cip_message.specs.ReplyAt.{reply_at};
ghost use Rattle.cip_message.specs.Reading.{reply_of};
ghost use Rattle.cip_message.specs.Failure.{failure_at};
ghost use Rattle.cip_open.specs.SuccessAt.{open_reply_at};
ghost use Rattle.cip_close.specs.SuccessAt.{close_reply_at};
ghost use Rattle.cip_decode.specs.Answers.{AnswersOpen, AnswersClose, AnswersFailure, AnswersRoute};
ghost use Rattle.cip_decode.specs.Answers.{Answers, IsDecodedReply};

use crate::request::{Asked, asked_by};
use cip_close::{CloseReply, read_close_reply};
use cip_message::{ConnectionFailure, DataFault, ReplyFault, ReplyView, read_failure, read_reply};
use cip_open::{OpenReply, read_open_reply};

/// What the data of a reply says: what reading it gave.
#[derive(Clone, Copy)]
pub enum Answer<'a> {
    /// That of a successful open.
    Opened(OpenReply<'a>),
    /// That of a successful close.
    Closed(CloseReply<'a>),
    /// That of a failed open or close.
    Failed(ConnectionFailure),
    /// That of a failed Unconnected_Send: the words of the route that were left.
    RouteLeft(u8),
    /// That of an open or a close, which can't be read.
    Unread(DataFault),
    /// That of another reply: bytes.
    Data,
}

/// A reply, and what its data says.
#[derive(Clone, Copy)]
pub struct Reply<'a> {
    pub view: ReplyView<'a>,
    pub asked: Asked,
    pub answer: Answer<'a>,
}

fn open_answer(data_: &[u8]) -> Answer<'_>
    ensures { AnswersOpen (open_reply_at data_.now) result }
{
    match read_open_reply(data_) {
        Ok(reply) => Answer::Opened(reply),
        Err(fault) => Answer::Unread(fault),
    }
}

fn close_answer(data_: &[u8]) -> Answer<'_>
    ensures { AnswersClose (close_reply_at data_.now) result }
{
    match read_close_reply(data_) {
        Ok(reply) => Answer::Closed(reply),
        Err(fault) => Answer::Unread(fault),
    }
}

fn failure_answer(data_: &[u8]) -> Answer<'_>
    ensures { AnswersFailure (failure_at data_.now) result }
{
    match read_failure(data_) {
        Ok(failure) => Answer::Failed(failure),
        Err(fault) => Answer::Unread(fault),
    }
}

fn route_answer(data_: &[u8]) -> Answer<'_>
    ensures { AnswersRoute data_.now result }
{
    match data_ {
        [words] => Answer::RouteLeft(*words),
        _ => Answer::Data,
    }
}

// What the data of a success says, of what was asked for.
fn success_of(asked: Asked, data_: &[u8]) -> Answer<'_>
    ensures { Answers asked true data_.now result }
{
    match asked {
        Asked::ForwardOpen => open_answer(data_),
        Asked::LargeForwardOpen => open_answer(data_),
        Asked::ForwardClose => close_answer(data_),
        Asked::UnconnectedSend => Answer::Data,
        Asked::Other => Answer::Data,
    }
}

// What the data of a failure says, of what was asked for.
fn failure_of(asked: Asked, data_: &[u8]) -> Answer<'_>
    ensures { Answers asked false data_.now result }
{
    match asked {
        Asked::ForwardOpen => failure_answer(data_),
        Asked::LargeForwardOpen => failure_answer(data_),
        Asked::ForwardClose => failure_answer(data_),
        Asked::UnconnectedSend => route_answer(data_),
        Asked::Other => Answer::Data,
    }
}

/// The reply that the bytes are, and what its data says: the record that `read_reply` gives, and
/// behind it that of the service's own reader where the Connection Manager answered, by the service
/// alone (Volume 1, chapters 2 and 3). The fault is that of `read_reply`. It takes no memory.
pub fn decode_reply(bytes: &[u8]) -> Result<Reply<'_>, ReplyFault>
    ensures read { Gives (λ reply. reply_of reply.view) result (reply_at bytes.now) }
    ensures means { IfOk result IsDecodedReply }
{
    match read_reply(bytes) {
        Ok(view) => {
            let asked = asked_by(view.service % 128);
            let answer = if view.general == 0 {
                success_of(asked, view.data_)
            } else {
                failure_of(asked, view.data_)
            };
            Ok(Reply {
                view,
                asked,
                answer,
            })
        }
        Err(fault) => Err(fault),
    }
}
