//! What a frame holds, in short.
ghost use Rattle.std.specs.Prelude.{◌≡◌};
ghost use Rattle.cip_message.specs.RequestAt.{request_at};
ghost use Rattle.cip_message.specs.ReplyAt.{reply_at};
ghost use Rattle.cip_book.specs.Labels.{label_of, request_label, reply_label};
ghost use Rattle.cip_book.specs.Labels.{is_failure, is_unreadable};

use cip_base::{NoMemory, Status};
use cip_decode::{decode_reply, decode_request};
use cip_event::Body;
use cip_names::service_name;
use cip_text::Draft;
use std::fmt;

/// What kind of frame it is.
#[derive(Clone, Copy, PartialEq, Eq)]
pub enum Kind {
    Request,
    Reply,
    Data,
}

/// A frame in short: its kind, its number or connection id, and where it can be read its service
/// and status.
#[derive(Clone, Copy)]
pub struct Label {
    pub kind: Kind,
    pub number: u32,
    pub service: Option<u8>,
    pub status: Option<Status>,
}

impl Label {
    /// Whether it is a reply that tells of a failure.
    pub fn is_failure(&self) -> bool
        ensures { result ≡ is_failure self.now }
    {
        match self.status {
            Some(status) => status.general != 0,
            None => false,
        }
    }

    /// Whether it is a request or a reply that can't be read.
    pub fn is_unreadable(&self) -> bool
        ensures { result ≡ is_unreadable self.now }
    {
        self.kind != Kind::Data && self.service.is_none()
    }
}

fn request_label(number: u32, bytes: &[u8]) -> Label
    ensures { result ≡ request_label number (request_at bytes.now) }
{
    let service = match decode_request(bytes) {
        Ok(request) => Some(request.view.service),
        Err(_) => None,
    };
    Label {
        kind: Kind::Request,
        number,
        service,
        status: None,
    }
}

fn reply_label(number: u32, bytes: &[u8]) -> Label
    ensures { result ≡ reply_label number (reply_at bytes.now) }
{
    let (service, status) = match decode_reply(bytes) {
        Ok(reply) => (Some(reply.view.service), Some(reply.view.status())),
        Err(_) => (None, None),
    };
    Label {
        kind: Kind::Reply,
        number,
        service,
        status,
    }
}

/// What a frame holds, in short.
pub fn label_of(body: &Body) -> Label
    ensures { result ≡ label_of body.now }
{
    match body {
        Body::Request { number, bytes } => request_label(*number, bytes.as_slice()),
        Body::Reply { number, bytes } => reply_label(*number, bytes.as_slice()),
        Body::Data { id, .. } => Label {
            kind: Kind::Data,
            number: *id,
            service: None,
            status: None,
        },
    }
}

// A service by its name, or by its number; without one, that it can't be read.
#[derive(Clone, Copy)]
struct ServiceText(Option<u8>);

impl fmt::Display for ServiceText {
    fn fmt<W: fmt::Write>(&self, f: &mut fmt::Formatter<W>) -> fmt::Result {
        let Some(service) = self.0 else {
            return f.write_str("unreadable");
        };
        let plain = service % 128;
        match service_name(service) {
            Some(name) => f.write_str(name),
            None => write!(f, "service {plain:02X}"),
        }
    }
}

// The digits of a status, or `ok`.
#[derive(Clone, Copy)]
struct ShortStatus(Status);

impl fmt::Display for ShortStatus {
    fn fmt<W: fmt::Write>(&self, f: &mut fmt::Formatter<W>) -> fmt::Result {
        let Status { general, extra } = self.0;
        match extra {
            Some(word) if general == 1 => write!(f, "{word:04X}"),
            _ if general == 0 => f.write_str("ok"),
            _ => write!(f, "{general:02X}"),
        }
    }
}

impl fmt::Display for Label {
    fn fmt<W: fmt::Write>(&self, f: &mut fmt::Formatter<W>) -> fmt::Result {
        let service = ServiceText(self.service);
        match (self.kind, self.status) {
            (Kind::Data, _) => write!(f, "data {}", self.number),
            (Kind::Request, _) => write!(f, "{service}"),
            (Kind::Reply, Some(status)) => write!(f, "{service} {}", ShortStatus(status)),
            (Kind::Reply, None) => write!(f, "{service} reply"),
        }
    }
}

// What `ServiceText` shows.
fn put_service(text: &mut Draft, service: Option<u8>) -> Result<(), NoMemory> {
    let Some(service) = service else {
        return text.put("unreadable");
    };
    match service_name(service) {
        Some(name) => text.put(name),
        None => {
            text.put("service ")?;
            text.put_pairs(&[service % 128])
        }
    }
}

// What `ShortStatus` shows.
fn put_status(text: &mut Draft, status: Status) -> Result<(), NoMemory> {
    match status.extra {
        Some(word) if status.general == 1 => text.put_pairs(&word.to_be_bytes()),
        _ if status.general == 0 => text.put("ok"),
        _ => text.put_pairs(&[status.general]),
    }
}

/// Puts a frame in short behind a text, as it is shown. NoMemory where an allocation is refused.
pub fn put_label(text: &mut Draft, label: Label) -> Result<(), NoMemory> {
    if label.kind == Kind::Data {
        text.put("data ")?;
        return text.put_number(u64::from(label.number));
    }
    put_service(text, label.service)?;
    match (label.kind, label.status) {
        (Kind::Reply, Some(status)) => {
            text.put(" ")?;
            put_status(text, status)
        }
        (Kind::Reply, None) => text.put(" reply"),
        _ => Ok(()),
    }
}

// Each byte as a character.
fn write_each<W: fmt::Write>(bytes: &[u8], f: &mut fmt::Formatter<W>) -> fmt::Result {
    for byte in bytes {
        write!(f, "{}", char::from(*byte))?;
    }
    Ok(())
}

/// The name of a module, of ASCII characters.
#[derive(Clone, Copy)]
pub struct NameText<'a>(pub &'a [u8]);

impl fmt::Display for NameText<'_> {
    fn fmt<W: fmt::Write>(&self, f: &mut fmt::Formatter<W>) -> fmt::Result {
        match std::str::from_utf8(self.0) {
            Ok(text) if text.is_ascii() => f.write_str(text),
            _ => write_each(self.0, f),
        }
    }
}
