//! A request as a text: a function of the record that reading gave.
use crate::bytes::Rest;
use crate::fields::{OpenText, TimingText, TriadText};
use crate::request::{Asked, Meaning, Request};
use crate::segments::PathText;
use cip_close::CloseView;
use cip_message::{RequestView, read_request};
use cip_names::service_name;
use cip_open::OpenView;
use cip_unconnected::{UnconnectedView, inner};
use std::fmt::{self, Display};

/// A service by its name, or by its number.
#[derive(Clone, Copy)]
pub(crate) struct ServiceText(pub u8);

impl fmt::Display for ServiceText {
    fn fmt<W: fmt::Write>(&self, f: &mut fmt::Formatter<W>) -> fmt::Result {
        let service = self.0 % 128;
        match service_name(service) {
            Some(name) => f.write_str(name),
            None => write!(f, "service {service:02X}"),
        }
    }
}

// A request whose data is no more than bytes.
#[derive(Clone, Copy)]
struct PlainText<'a>(RequestView<'a>);

impl fmt::Display for PlainText<'_> {
    fn fmt<W: fmt::Write>(&self, f: &mut fmt::Formatter<W>) -> fmt::Result {
        let service = ServiceText(self.0.service);
        let path = PathText(self.0.path);
        let data = Rest(self.0.data_);
        write!(f, "{service} to {path}{data}")
    }
}

// Why what a request carries can't be read.
fn write_unreadable<W: fmt::Write, T: fmt::Display + Copy>(
    fault: T,
    f: &mut fmt::Formatter<W>,
) -> fmt::Result {
    write!(f, "unreadable: {fault}")
}

// The request that an Unconnected_Send carries.
#[derive(Clone, Copy)]
struct EmbeddedText<'a>(&'a [u8]);

impl fmt::Display for EmbeddedText<'_> {
    fn fmt<W: fmt::Write>(&self, f: &mut fmt::Formatter<W>) -> fmt::Result {
        match read_request(self.0) {
            Ok(view) => PlainText(view).fmt(f),
            Err(fault) => write_unreadable(fault, f),
        }
    }
}

#[derive(Clone, Copy)]
struct UnconnectedText<'a>(UnconnectedView<'a>);

impl fmt::Display for UnconnectedText<'_> {
    fn fmt<W: fmt::Write>(&self, f: &mut fmt::Formatter<W>) -> fmt::Result {
        let timing = TimingText(self.0.timing);
        let route = PathText(self.0.route);
        let embedded = EmbeddedText(inner(&self.0));
        write!(f, "route {route}; {timing}; carries {embedded}")
    }
}

#[derive(Clone, Copy)]
struct ConnectionText<'a>(OpenView<'a>);

impl fmt::Display for ConnectionText<'_> {
    fn fmt<W: fmt::Write>(&self, f: &mut fmt::Formatter<W>) -> fmt::Result {
        let triad = TriadText(self.0.fields.triad);
        let path = PathText(self.0.path);
        let fields = OpenText(&self.0.fields);
        write!(f, "{triad}; path {path}; {fields}")
    }
}

#[derive(Clone, Copy)]
struct CloseText<'a>(CloseView<'a>);

impl fmt::Display for CloseText<'_> {
    fn fmt<W: fmt::Write>(&self, f: &mut fmt::Formatter<W>) -> fmt::Result {
        let triad = TriadText(self.0.fields.triad);
        let path = PathText(self.0.path);
        let timing = TimingText(self.0.fields.timing);
        write!(f, "{triad}; path {path}; {timing}")
    }
}

// What the data of a request says.
fn write_meaning<W: fmt::Write>(meaning: &Meaning<'_>, f: &mut fmt::Formatter<W>) -> fmt::Result {
    match meaning {
        Meaning::Unconnected(view) => UnconnectedText(*view).fmt(f),
        Meaning::Open(view) => ConnectionText(*view).fmt(f),
        Meaning::Close(view) => CloseText(*view).fmt(f),
        Meaning::UnreadUnconnected(fault) => write_unreadable(*fault, f),
        Meaning::Unread(fault) => write_unreadable(*fault, f),
        Meaning::Data => Ok(()),
    }
}

impl fmt::Display for Request<'_> {
    fn fmt<W: fmt::Write>(&self, f: &mut fmt::Formatter<W>) -> fmt::Result {
        if self.asked == Asked::Other {
            return PlainText(self.view).fmt(f);
        }
        let service = ServiceText(self.view.service);
        write!(f, "{service}: ")?;
        write_meaning(&self.meaning, f)
    }
}
