//! Which row of the request group answers.
ghost use Rattle.std.specs.Prelude.{◌≡◌, ◌≤◌, ◌<◌, ◌+◌, length};
ghost use Rattle.cip_segment.specs.Reading.{segments_of};
ghost use Rattle.cip_message.specs.Reading.{request_of};
ghost use Rattle.cip_target.specs.Object.{object_of};
ghost use Rattle.cip_routing.specs.Object.{begins_with_manager};
ghost use Rattle.cip_routing.specs.RequestRows.{Refuses, is_malformed, manager_row, object_row};
ghost use Rattle.cip_routing.specs.RequestRows.{request_row};
ghost use Rattle.cip_routing.specs.Code.Decisions.{request_row_of, RequestLeads};

use crate::refusals::RequestRefusal;
use cip_base::{MAX_MESSAGE, PortNumber};
use cip_close::FORWARD_CLOSE;
use cip_config::{ModuleSettings, port_of};
use cip_message::{CONNECTION_MANAGER, RequestFault, RequestView, read_request};
use cip_open::{FORWARD_OPEN, LARGE_FORWARD_OPEN};
use cip_segment::{PathView, SegmentView, split_first};
use cip_target::{ObjectPath, object_path};
use cip_unconnected::UNCONNECTED_SEND;

/// The row that answers a request, and of what is to be read its data.
#[derive(Clone, Copy)]
pub enum RequestDecision<'a> {
    /// It is dropped.
    UnknownPortOrTooLong,
    /// It is dropped.
    NotARequest,
    /// It is answered with a failure.
    Refuses {
        service: u8,
        refusal: RequestRefusal,
    },
    /// The data of an Unconnected_Send, which are to be read.
    UnconnectedSend(&'a [u8]),
    /// The data of an open, large or not, which are to be read.
    ForwardOpen {
        large: bool,
        data_: &'a [u8],
    },
    /// The data of a Forward_Close, which are to be read.
    ForwardClose(&'a [u8]),
    /// A request to an object of the module.
    Target(RequestView<'a>),
}

/// Whether a path begins with the Connection Manager's class.
pub(crate) fn begins_with_manager(path: PathView<'_>) -> bool
    ensures { result ≡ begins_with_manager (segments_of path.entry.bytes.now) }
{
    match split_first(path) {
        None => false,
        Some((first, _)) => match first {
            SegmentView::Class(class_) => class_ == CONNECTION_MANAGER,
            _ => false,
        },
    }
}

/// Whether a message came by a port that the module lacks, or is too long.
pub fn is_malformed(settings: &ModuleSettings, port: PortNumber, bytes: &[u8]) -> bool
    ensures { result ≡ is_malformed settings.now port bytes.now }
{
    port_of(settings, port).is_none() || bytes.len() > MAX_MESSAGE
}

fn refuses<'a>(service: u8, refusal: RequestRefusal) -> RequestDecision<'a>
    requires { service < 128 }
    ensures row { request_row_of result ≡ Refuses service refusal }
    ensures leads { RequestLeads result }
{
    RequestDecision::Refuses { service, refusal }
}

// A request to the Connection Manager: its instance first, then its services.
fn manager_row<'a>(request: RequestView<'a>, object: ObjectPath) -> RequestDecision<'a>
    requires service { request.service < 128 }
    requires fits { 6 + length request.data_.now ≤ MAX_MESSAGE }
    ensures row { request_row_of result ≡ manager_row (request_of request.entry) object }
    ensures leads { RequestLeads result }
{
    let service = request.service;
    if object.instance != 1 {
        return refuses(service, RequestRefusal::NoSuchManagerInstance);
    }
    match service {
        UNCONNECTED_SEND => RequestDecision::UnconnectedSend(request.data_),
        FORWARD_OPEN => RequestDecision::ForwardOpen {
            large: false,
            data_: request.data_,
        },
        LARGE_FORWARD_OPEN => RequestDecision::ForwardOpen {
            large: true,
            data_: request.data_,
        },
        FORWARD_CLOSE => RequestDecision::ForwardClose(request.data_),
        _ => refuses(service, RequestRefusal::ServiceNotSupported),
    }
}

// A request that was read, by the object that its path names.
fn object_row(request: RequestView<'_>) -> RequestDecision<'_>
    requires service { request.service < 128 }
    requires fits { 2 + length request.path.bytes.now + length request.data_.now ≤ MAX_MESSAGE }
    ensures row { request_row_of result ≡ object_row (request_of request.entry)
        (object_of (segments_of request.entry.path.bytes.now)) }
    ensures leads { RequestLeads result }
{
    let Some(object) = object_path(request.path) else {
        return refuses(request.service, RequestRefusal::PathFormNotSupported);
    };
    if object.class_ == CONNECTION_MANAGER {
        manager_row(request, object)
    } else {
        RequestDecision::Target(request)
    }
}

/// The row that answers a request which came in by a port.
#[tactic(auto, unfolding(crate::specs::RequestRows::request_row))]
pub fn request_row<'a>(
    settings: &ModuleSettings,
    port: PortNumber,
    bytes: &'a [u8],
) -> RequestDecision<'a>
    ensures row { request_row_of result ≡ request_row settings.now port bytes.entry.now }
    ensures leads { RequestLeads result }
{
    if is_malformed(settings, port, bytes) {
        return RequestDecision::UnknownPortOrTooLong;
    }
    match read_request(bytes) {
        Ok(request) => object_row(request),
        Err(RequestFault::TooShort) => RequestDecision::NotARequest,
        Err(RequestFault::NotRequest) => RequestDecision::NotARequest,
        Err(RequestFault::PathSize) => refuses(bytes[0], RequestRefusal::PathPastTheEnd),
        Err(RequestFault::Path(_)) => refuses(bytes[0], RequestRefusal::PathUnreadable),
    }
}
