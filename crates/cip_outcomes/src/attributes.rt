//! The attributes in a reply (Volume 1, chapter 5, Identity object).

use crate::refusals::command_in;
use cip_base::{Bytes, ModuleId};
use cip_message::{ReplyView, read_request};
use cip_routing::Command;
use cip_target::{ObjectPath, object_path};
use cip_world::Entry;

// The services, as a request and its reply have them.
const GET_ALL: u8 = 0x01;

const GET_SINGLE: u8 = 0x0E;

// The bit that a reply has in its service.
const REPLY: u8 = 0x80;

const IDENTITY: u16 = 1;

// The bytes from a place on, so many.
fn part(bytes: &[u8], from: usize, count: usize) -> Option<&[u8]> {
    let (_, rest) = bytes.split_at_checked(from)?;
    let (part, _) = rest.split_at_checked(count)?;
    Some(part)
}

// The bytes of an attribute among all of them of the Identity object.
fn identity_part(bytes: &[u8], attribute: u16) -> Option<&[u8]> {
    match attribute {
        1 => part(bytes, 0, 2),
        2 => part(bytes, 2, 2),
        3 => part(bytes, 4, 2),
        4 => part(bytes, 6, 2),
        5 => part(bytes, 8, 2),
        6 => part(bytes, 10, 4),
        7 => part(bytes, 14, bytes.len().saturating_sub(14)),
        _ => None,
    }
}

// The request of an op of a module, where the entry is its Send.
fn request_in(entry: &Entry, at: ModuleId, number: u32) -> Option<&Bytes> {
    let found = command_in(entry)?;
    match found.command {
        Command::Send { op, request, .. } if *op == number => {
            if found.at == at && found.refused.is_none() {
                Some(request)
            } else {
                None
            }
        }
        _ => None,
    }
}

// The request of an op of a module.
fn request_of(journal: &[Entry], at: ModuleId, number: u32) -> Option<&Bytes> {
    for entry in journal.iter().rev() {
        if let Some(request) = request_in(entry, at, number) {
            return Some(request);
        }
    }
    None
}

// The object that the request of an op names.
fn object_of(journal: &[Entry], at: ModuleId, number: u32) -> Option<ObjectPath> {
    let request = request_of(journal, at, number)?;
    let view = read_request(request.as_slice()).ok()?;
    object_path(view.path)
}

/// The bytes of an attribute in the successful reply to an op of a module: of one attribute alone,
/// or of all those of the Identity object.
pub fn attribute_of<'a>(
    journal: &[Entry],
    at: ModuleId,
    number: u32,
    reply: ReplyView<'a>,
    attribute: u16,
) -> Option<&'a [u8]> {
    let object = object_of(journal, at, number)?;
    if reply.service == (GET_SINGLE | REPLY) && object.attribute == Some(attribute) {
        return Some(reply.data_);
    }
    if reply.service == (GET_ALL | REPLY) && object.class_ == IDENTITY {
        return identity_part(reply.data_, attribute);
    }
    None
}
