//! Bodies and outputs with other bytes.
ghost use Rattle.std.specs.Prelude.{◌≡◌};
ghost use Rattle.cip_event.specs.Filled.{bytes_in, filled_body, filled};

use crate::event::{Body, Output};
use cip_base::Bytes;

impl Body {
    /// Its bytes.
    pub fn into_bytes(self) -> Bytes
        ensures { result ≡ bytes_in self }
    {
        match self {
            Body::Request { number: _, bytes } => bytes,
            Body::Reply { number: _, bytes } => bytes,
            Body::Data { id: _, bytes } => bytes,
        }
    }

    /// The same body with these bytes.
    #[inline(always)]
    pub fn filled(self, bytes: Bytes) -> Body
        ensures { result ≡ filled_body self bytes }
    {
        match self {
            Body::Request { number, bytes: _ } => Body::Request { number, bytes },
            Body::Reply { number, bytes: _ } => Body::Reply { number, bytes },
            Body::Data { id, bytes: _ } => Body::Data { id, bytes },
        }
    }
}

impl Output {
    /// The same output with these bytes, where it has bytes.
    #[inline(always)]
    pub fn filled(self, bytes: Bytes) -> Output
        ensures { result ≡ filled self bytes }
    {
        match self {
            Output::Send { port, to, body } => Output::Send {
                port,
                to,
                body: body.filled(bytes),
            },
            Output::Done { op, reply: _ } => Output::Done { op, reply: bytes },
            Output::Consumed {
                triad,
                instance,
                bytes: _,
            } => Output::Consumed {
                triad,
                instance,
                bytes,
            },
            Output::Arrived { op, bytes: _ } => Output::Arrived { op, bytes },
            Output::Refused(fault) => Output::Refused(fault),
            Output::Expired { triad } => Output::Expired { triad },
            Output::Ended { op } => Output::Ended { op },
            Output::Dropped(reason) => Output::Dropped(reason),
        }
    }
}
