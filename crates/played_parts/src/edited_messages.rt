//! Questions about messages that are edited in the buffer in which they came.
ghost use Rattle.std.specs.Prelude.{◌≡◌, ◌<◌, ◌≤◌, IfSome, IsTrue, Some, length};
ghost use Rattle.cip_segment.specs.Reading.{HopAt, hop_of};
ghost use Rattle.cip_message.specs.Received.{IsReceived};
ghost use Rattle.cip_unconnected.specs.Unconnected.{Unconnected as Sent};
ghost use Rattle.cip_unconnected.specs.GoesOn.{IsSendGoingOn};
ghost use Rattle.cip_open.specs.Open.{Open};
ghost use Rattle.cip_open.specs.Success.{OpenSuccess};
ghost use Rattle.cip_open.specs.GoesOn.{IsOpenGoingOn, IsOpenSuccess};
ghost use Rattle.cip_close.specs.Close.{Close};
ghost use Rattle.cip_close.specs.GoesOn.{IsCloseGoingOn};

use crate::texts::{PairsOrCount, text};
use cip_close::{FORWARD_CLOSE, read_close};
use cip_message::{CONNECTION_MANAGER, read_reply, read_request};
use cip_open::{open_reply_service, open_service, read_open_of, read_open_reply};
use cip_rewrite::{
    forward_close_bytes, forward_open_bytes, forward_unconnected_bytes, success_up_bytes,
    unwrap_bytes,
};
use cip_segment::{FirstHop, PathView, first_hop, rest};
use cip_target::object_path;
use cip_unconnected::{UNCONNECTED_SEND, read_unconnected};
use line_words::Words;

// ---- what the edits ask for

// The data of a request for this service of the Connection Manager.
fn received(bytes: &[u8], service: u8) -> Option<&[u8]>
    ensures { IfSome result (λ found. IsReceived service found.now bytes.now) }
{
    match read_request(bytes) {
        Ok(request) => match object_path(request.path) {
            Some(object) => {
                if object.class_ == CONNECTION_MANAGER
                    && object.instance == 1
                    && request.service == service
                {
                    Some(request.data_)
                } else {
                    None
                }
            }
            None => None,
        },
        Err(_) => None,
    }
}

// What is left of a path behind its hop, if it has one.
fn left(path: PathView<'_>) -> Option<PathView<'_>>
    ensures { IfSome result (λ left. (hop : HopAt) × (hop_of path.entry.bytes.now ≡ Some hop)
        × (left.bytes.now ≡ hop.rest)) }
{
    match first_hop(path) {
        FirstHop::Hop { .. } => Some(rest(path)),
        FirstHop::End => None,
    }
}

// An open, large or not, that can go on.
fn is_open(large: bool, bytes: &[u8]) -> bool
    ensures { IsTrue result → ((o : Open) × (hop : HopAt) × IsOpenGoingOn bytes.now o hop
        × (1 ≤ o.fields.timing.ticks)) }
{
    match received(bytes, open_service(large)) {
        Some(found) => match read_open_of(large, found) {
            Ok(view) => match left(view.path) {
                Some(_) => view.fields.timing.ticks >= 1,
                None => false,
            },
            Err(_) => false,
        },
        None => false,
    }
}

// A Forward_Close that can go on.
fn is_close(bytes: &[u8]) -> bool
    ensures { IsTrue result → ((c : Close) × (hop : HopAt) × IsCloseGoingOn bytes.now c hop
        × (1 ≤ c.fields.timing.ticks)) }
{
    match received(bytes, FORWARD_CLOSE) {
        Some(found) => match read_close(found) {
            Ok(view) => match left(view.path) {
                Some(_) => view.fields.timing.ticks >= 1,
                None => false,
            },
            Err(_) => false,
        },
        None => false,
    }
}

// How many bytes of route are left of an Unconnected_Send that can go on.
fn send_left(bytes: &[u8]) -> Option<usize>
    ensures { IfSome result (λ n. (u : Sent) × (hop : HopAt) × IsSendGoingOn bytes.now u hop
        × (1 ≤ u.timing.ticks) × (n ≡ length hop.rest)) }
{
    match received(bytes, UNCONNECTED_SEND) {
        Some(found) => match read_unconnected(found) {
            Ok(view) => match left(view.route) {
                Some(left) => {
                    if view.timing.ticks >= 1 {
                        Some(left.bytes.len())
                    } else {
                        None
                    }
                }
                None => None,
            },
            Err(_) => None,
        },
        None => None,
    }
}

// The reply of a successful open, large or not.
fn is_success(large: bool, bytes: &[u8]) -> bool
    ensures { IsTrue result → ((s : OpenSuccess) × IsOpenSuccess large bytes.now s) }
{
    match read_reply(bytes) {
        Ok(reply) => match read_open_reply(reply.data_) {
            Ok(_) => {
                if reply.service != open_reply_service(large) || reply.general != 0 {
                    return false;
                }
                reply.extra.is_empty()
            }
            Err(_) => false,
        },
        Err(_) => false,
    }
}

// ---- the edits

// `ID BYTES`: an open, large or not, as it goes on with this id.
fn open_on(large: bool, words: &mut Words) -> Option<Vec<u8>> {
    let id = words.u32()?;
    let mut bytes = words.bytes()?;
    if !is_open(large, bytes.as_slice()) {
        return None;
    }
    forward_open_bytes(&mut bytes, id);
    Some(bytes)
}

// `UP_ID THEIR_ID BYTES`: a success of an open, large or not, as it goes up with these ids.
fn success_up(large: bool, words: &mut Words) -> Option<Vec<u8>> {
    let up_id = words.u32()?;
    let their_id = words.u32()?;
    let mut bytes = words.bytes()?;
    if !is_success(large, bytes.as_slice()) {
        return None;
    }
    success_up_bytes(&mut bytes, up_id, their_id);
    Some(bytes)
}

// `BYTES`: a close as it goes on.
fn close_on(words: &mut Words) -> Option<Vec<u8>> {
    let mut bytes = words.bytes()?;
    if !is_close(bytes.as_slice()) {
        return None;
    }
    forward_close_bytes(&mut bytes);
    Some(bytes)
}

// `BYTES`: what goes on of an Unconnected_Send.
fn send_on(words: &mut Words) -> Option<Vec<u8>> {
    let mut bytes = words.bytes()?;
    if send_left(bytes.as_slice())? == 0 {
        unwrap_bytes(&mut bytes);
    } else {
        forward_unconnected_bytes(&mut bytes);
    }
    Some(bytes)
}

/// The answer to a question of this name.
pub fn answer(name: &str, words: &mut Words) -> Option<String> {
    let bytes = match name {
        "open_on" => open_on(false, words),
        "large_open_on" => open_on(true, words),
        "success_up" => success_up(false, words),
        "large_success_up" => success_up(true, words),
        "close_on" => close_on(words),
        "send_on" => send_on(words),
        _ => None,
    };
    text(words.alloc, PairsOrCount(bytes?.as_slice()))
}
