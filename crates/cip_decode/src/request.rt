//! Requests: what they ask for, and what their data says.
ghost use Rattle.std.specs.Prelude.{◌≡◌, IfOk};
ghost use Rattle.cip_message.specs.Gives.{Gives};
ghost use Rattle.cip_message.specs.RequestAt.{request_at};
ghost use Rattle.cip_message.specs.Reading.{request_of};
ghost use Rattle.cip_segment.specs.Reading.{segments_of};
ghost use Rattle.cip_target.specs.Object.{object_of};
ghost use Rattle.cip_unconnected.specs.UnconnectedAt.{unconnected_at};
ghost use Rattle.cip_open.specs.OpenAt.{open_at};
ghost use Rattle.cip_close.specs.CloseAt.{close_at};
ghost use Rattle.cip_decode.specs.Asks.{is_manager, asked_at, asked_by};
ghost use Rattle.cip_decode.specs.Means.{Means, MeansUnconnected, MeansOpen, MeansClose, IsDecoded};

use cip_close::{CloseView, FORWARD_CLOSE, read_close};
use cip_message::{DataFault, RequestFault, RequestView, read_request};
use cip_open::{FORWARD_OPEN, LARGE_FORWARD_OPEN, OpenView, read_open_of};
use cip_segment::PathView;
use cip_target::{ObjectPath, object_path};
use cip_unconnected::{UNCONNECTED_SEND, UnconnectedFault, UnconnectedView, read_unconnected};

/// What a request asks the Connection Manager for.
#[derive(Clone, Copy, PartialEq, Eq)]
pub enum Asked {
    UnconnectedSend,
    ForwardOpen,
    LargeForwardOpen,
    ForwardClose,
    /// Another service, or one of another object.
    Other,
}

/// What the data of a request says: what reading it gave.
#[derive(Clone, Copy)]
pub enum Meaning<'a> {
    /// That of an Unconnected_Send.
    Unconnected(UnconnectedView<'a>),
    /// That of a Forward_Open or a Large_Forward_Open.
    Open(OpenView<'a>),
    /// That of a Forward_Close.
    Close(CloseView<'a>),
    /// That of an Unconnected_Send, which can't be read.
    UnreadUnconnected(UnconnectedFault),
    /// That of an open or a close, which can't be read.
    Unread(DataFault),
    /// That of another request: bytes.
    Data,
}

/// A request, and what its data says.
#[derive(Clone, Copy)]
pub struct Request<'a> {
    pub view: RequestView<'a>,
    pub asked: Asked,
    pub meaning: Meaning<'a>,
}

// Whether a path names instance 1 of the Connection Manager and no attribute.
fn is_manager(path: PathView<'_>) -> bool
    ensures { result ≡ is_manager (object_of (segments_of path.entry.bytes.now)) }
{
    match object_path(path) {
        Some(
            ObjectPath {
                class_,
                instance,
                attribute,
            },
        ) => class_ == 6 && instance == 1 && attribute.is_none(),
        None => false,
    }
}

/// What a service asks the Connection Manager for, of a request as of its reply.
pub(crate) fn asked_by(service: u8) -> Asked
    ensures { result ≡ asked_by service }
{
    if service == UNCONNECTED_SEND {
        Asked::UnconnectedSend
    } else if service == FORWARD_OPEN {
        Asked::ForwardOpen
    } else if service == LARGE_FORWARD_OPEN {
        Asked::LargeForwardOpen
    } else if service == FORWARD_CLOSE {
        Asked::ForwardClose
    } else {
        Asked::Other
    }
}

// What a request asks for, by its service and path.
fn asked_at(service: u8, path: PathView<'_>) -> Asked
    ensures { result ≡ asked_at service path.entry.bytes.now }
{
    if is_manager(path) {
        asked_by(service)
    } else {
        Asked::Other
    }
}

fn unconnected_meaning(data_: &[u8]) -> Meaning<'_>
    ensures { MeansUnconnected (unconnected_at data_.now) result }
{
    match read_unconnected(data_) {
        Ok(view) => Meaning::Unconnected(view),
        Err(fault) => Meaning::UnreadUnconnected(fault),
    }
}

fn open_meaning(large: bool, data_: &[u8]) -> Meaning<'_>
    ensures { MeansOpen (open_at large data_.now) result }
{
    match read_open_of(large, data_) {
        Ok(view) => Meaning::Open(view),
        Err(fault) => Meaning::Unread(fault),
    }
}

fn close_meaning(data_: &[u8]) -> Meaning<'_>
    ensures { MeansClose (close_at data_.now) result }
{
    match read_close(data_) {
        Ok(view) => Meaning::Close(view),
        Err(fault) => Meaning::Unread(fault),
    }
}

// What data says, of a request that asks for this.
fn meaning_of(asked: Asked, data_: &[u8]) -> Meaning<'_>
    ensures { Means asked data_.now result }
{
    match asked {
        Asked::UnconnectedSend => unconnected_meaning(data_),
        Asked::ForwardOpen => open_meaning(false, data_),
        Asked::LargeForwardOpen => open_meaning(true, data_),
        Asked::ForwardClose => close_meaning(data_),
        Asked::Other => Meaning::Data,
    }
}

/// The request that the bytes are, and what its data says: the record that `read_request` gives,
/// and behind it that of the service's own reader where the Connection Manager is asked (Volume 1,
/// chapters 2 and 3). The fault is that of `read_request`. It takes no memory.
pub fn decode_request(bytes: &[u8]) -> Result<Request<'_>, RequestFault>
    ensures read { Gives (λ request. request_of request.view) result (request_at bytes.now) }
    ensures means { IfOk result IsDecoded }
{
    match read_request(bytes) {
        Ok(view) => {
            let asked = asked_at(view.service, view.path);
            Ok(Request {
                view,
                asked,
                meaning: meaning_of(asked, view.data_),
            })
        }
        Err(fault) => Err(fault),
    }
}
