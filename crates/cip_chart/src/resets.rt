//! Which replies tell that a module was reset.
ghost use Rattle.std.specs.Prelude.{◌≡◌, ◌==◌, ◌&&◌};

use cip_book::{Kind, Label};
use cip_decode::decode_reply;

// The service of the reply to an Identity Reset.
const RESET: u8 = 0x85;

// Whether a reply of this service and general status tells of a reset.
fn tells_of_reset(service: u8, general: u8) -> bool
    ensures { result ≡ (service == 133) && (general == 0) }
{
    service == RESET && general == 0
}

/// Whether a frame is the reply of a module that was reset.
pub(crate) fn is_reset(label: &Label) -> bool {
    match (label.kind, label.service, label.status) {
        (Kind::Reply, Some(service), Some(status)) => tells_of_reset(service, status.general),
        _ => false,
    }
}

/// Whether the reply to an op tells of a reset.
pub(crate) fn ends_in_reset(reply: &[u8]) -> bool {
    match decode_reply(reply) {
        Ok(reply) => tells_of_reset(reply.view.service, reply.view.general),
        Err(_) => false,
    }
}
