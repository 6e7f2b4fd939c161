//! A reply as a text: a function of the record that reading gave.
use crate::bytes::Rest;
use crate::fields::TriadText;
use crate::reply::{Answer, Reply};
use crate::request_text::ServiceText;
use cip_base::Status;
use cip_close::CloseReply;
use cip_message::ConnectionFailure;
use cip_names::status_name;
use cip_open::OpenReply;
use std::fmt::{self, Display};

/// A status by its digits and its name: two digits of a general status, four of an additional
/// status beside the general status 01; `success` alone.
#[derive(Clone, Copy)]
pub struct StatusText(pub Status);

// The digits of a status.
#[derive(Clone, Copy)]
struct Digits(Status);

impl fmt::Display for Digits {
    fn fmt<W: fmt::Write>(&self, f: &mut fmt::Formatter<W>) -> fmt::Result {
        let Status { general, extra } = self.0;
        match extra {
            Some(word) if general == 1 => write!(f, "{word:04X}"),
            Some(word) => write!(f, "{general:02X} with {word:04X}"),
            None => write!(f, "{general:02X}"),
        }
    }
}

impl fmt::Display for StatusText {
    fn fmt<W: fmt::Write>(&self, f: &mut fmt::Formatter<W>) -> fmt::Result {
        let Status { general, extra } = self.0;
        let digits = Digits(self.0);
        match status_name(general, extra) {
            Some(name) if general == 0 => f.write_str(name),
            Some(name) => write!(f, "{digits} {name}"),
            None => write!(f, "status {digits}"),
        }
    }
}

#[derive(Clone, Copy)]
struct OpenedText<'a>(OpenReply<'a>);

impl fmt::Display for OpenedText<'_> {
    fn fmt<W: fmt::Write>(&self, f: &mut fmt::Formatter<W>) -> fmt::Result {
        let triad = TriadText(self.0.triad);
        let data = Rest(self.0.reply);
        let (ot_id, ot_api) = (self.0.ot_id, self.0.ot_api);
        let (to_id, to_api) = (self.0.to_id, self.0.to_api);
        write!(
            f,
            "; {triad}; O→T id {ot_id}, API {ot_api} us; T→O id {to_id}, API {to_api} us{data}"
        )
    }
}

#[derive(Clone, Copy)]
struct ClosedText<'a>(CloseReply<'a>);

impl fmt::Display for ClosedText<'_> {
    fn fmt<W: fmt::Write>(&self, f: &mut fmt::Formatter<W>) -> fmt::Result {
        let triad = TriadText(self.0.triad);
        let data = Rest(self.0.reply);
        write!(f, "; {triad}{data}")
    }
}

// How many words of a path were left.
#[derive(Clone, Copy)]
struct WordsText(u8);

impl fmt::Display for WordsText {
    fn fmt<W: fmt::Write>(&self, f: &mut fmt::Formatter<W>) -> fmt::Result {
        match self.0 {
            1 => f.write_str("; 1 word left"),
            words => write!(f, "; {words} words left"),
        }
    }
}

#[derive(Clone, Copy)]
struct FailureText(ConnectionFailure);

impl fmt::Display for FailureText {
    fn fmt<W: fmt::Write>(&self, f: &mut fmt::Formatter<W>) -> fmt::Result {
        if let Some(triad) = self.0.triad {
            write!(f, "; {}", TriadText(triad))?;
        }
        if let Some(words) = self.0.words {
            write!(f, "{}", WordsText(words))?;
        }
        Ok(())
    }
}

// What the data of a reply says.
fn write_answer<W: fmt::Write>(reply: &Reply<'_>, f: &mut fmt::Formatter<W>) -> fmt::Result {
    match reply.answer {
        Answer::Opened(opened) => OpenedText(opened).fmt(f),
        Answer::Closed(closed) => ClosedText(closed).fmt(f),
        Answer::Failed(failure) => FailureText(failure).fmt(f),
        Answer::RouteLeft(words) => WordsText(words).fmt(f),
        Answer::Unread(fault) => write!(f, "; unreadable: {fault}"),
        Answer::Data => Rest(reply.view.data_).fmt(f),
    }
}

impl fmt::Display for Reply<'_> {
    fn fmt<W: fmt::Write>(&self, f: &mut fmt::Formatter<W>) -> fmt::Result {
        let service = ServiceText(self.view.service);
        let status = StatusText(self.view.status());
        write!(f, "{service} reply: {status}")?;
        write_answer(self, f)
    }
}
