//! What messages say, in words.
use crate::book::Known;
use cip_base::Triad;
use cip_decode::{Pairs, decode_reply, decode_request};
use cip_event::Body;
use std::fmt;

/// A request, decoded, or why it can't be.
#[derive(Clone, Copy)]
pub struct RequestText<'a>(pub &'a [u8]);

impl fmt::Display for RequestText<'_> {
    fn fmt<W: fmt::Write>(&self, f: &mut fmt::Formatter<W>) -> fmt::Result {
        match decode_request(self.0) {
            Ok(request) => write!(f, "{request}"),
            Err(fault) => write!(f, "unreadable request: {fault}"),
        }
    }
}

/// A reply, decoded, or why it can't be.
#[derive(Clone, Copy)]
pub struct ReplyText<'a>(pub &'a [u8]);

impl fmt::Display for ReplyText<'_> {
    fn fmt<W: fmt::Write>(&self, f: &mut fmt::Formatter<W>) -> fmt::Result {
        match decode_reply(self.0) {
            Ok(reply) => write!(f, "{reply}"),
            Err(fault) => write!(f, "unreadable reply: {fault}"),
        }
    }
}

/// A datum, with its sequence count where its connection is known to have one.
#[derive(Clone, Copy)]
pub struct DatumText<'a> {
    pub known: Known,
    pub bytes: &'a [u8],
}

impl fmt::Display for DatumText<'_> {
    fn fmt<W: fmt::Write>(&self, f: &mut fmt::Formatter<W>) -> fmt::Result {
        match (self.known.class_, self.bytes) {
            (Some(1), [low, high, rest @ ..]) => {
                let count = u16::from_le_bytes([*low, *high]);
                let length = rest.len();
                write!(f, "count {count}, {length} bytes {}", Pairs(rest))
            }
            _ => {
                let length = self.bytes.len();
                write!(f, "{length} bytes {}", Pairs(self.bytes))
            }
        }
    }
}

/// The connection of a datum, where it is known.
#[derive(Clone, Copy)]
pub struct OfText(pub Known);

impl fmt::Display for OfText {
    fn fmt<W: fmt::Write>(&self, f: &mut fmt::Formatter<W>) -> fmt::Result {
        match self.0.triad {
            Some(
                Triad {
                    serial,
                    vendor,
                    originator,
                },
            ) => write!(f, " of triad {serial} {vendor} {originator}"),
            None => Ok(()),
        }
    }
}

/// What a frame holds; of a datum also what is known of its connection.
#[derive(Clone, Copy)]
pub struct BodyText<'a> {
    pub body: &'a Body,
    pub known: Known,
}

impl fmt::Display for BodyText<'_> {
    fn fmt<W: fmt::Write>(&self, f: &mut fmt::Formatter<W>) -> fmt::Result {
        match self.body {
            Body::Request { bytes, .. } => write!(f, "{}", RequestText(bytes.as_slice())),
            Body::Reply { bytes, .. } => write!(f, "{}", ReplyText(bytes.as_slice())),
            Body::Data { bytes, .. } => {
                let known = self.known;
                let bytes = bytes.as_slice();
                let of = OfText(known);
                write!(f, "datum{of}: {}", DatumText { known, bytes })
            }
        }
    }
}
