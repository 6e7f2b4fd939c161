//! Questions about messages that are read.
use crate::texts::{Digits, PairsOrCount, Perhaps, name as name_of, text};
use cip_base::Status;
use cip_close::{close_triad_at, close_words_at, read_close, read_close_failure, read_close_reply};
use cip_message::{DataFault, counted_path, read_reply, read_request};
use cip_open::{
    OpenView, large_words_at, read_large_open, read_open, read_open_failure, read_open_reply,
    words_at,
};
use cip_unconnected::{inner, read_unconnected, route_words};
use line_words::{Numbers, Then, Words};
use std::alloc::Global;

// The fields and the path.
fn open(alloc: Global, found: Result<OpenView<'_>, DataFault>) -> Option<String> {
    match found {
        Ok(OpenView { fields, path }) => {
            let ticks = Then(fields.timing.tick, fields.timing.ticks);
            let ids = Then(fields.ot_id, fields.to_id);
            let front = Then(ticks, Then(ids, Numbers(fields.triad)));
            let ot = Then(fields.ot_rpi, Digits(fields.ot_params));
            let to = Then(fields.to_rpi, Digits(fields.to_params));
            let watched = Then(fields.multiplier, Then(ot, to));
            let more = Then(fields.transport, PairsOrCount(path.bytes()));
            text(alloc, Then(front, Then(watched, more)))
        }
        Err(fault) => name_of(alloc, fault),
    }
}

// What is read as data of a connection's request or reply.
fn of_connection(alloc: Global, name: &str, bytes: &[u8]) -> Option<String> {
    match name {
        "open" => open(alloc, read_open(bytes)),
        "large_open" => open(alloc, read_large_open(bytes)),
        "open_triad" => text(alloc, Perhaps(cip_open::triad_at(bytes).map(Numbers))),
        "open_words" => text(alloc, Perhaps(words_at(bytes))),
        "large_words" => text(alloc, Perhaps(large_words_at(bytes))),
        // the ids, the triad, the intervals and the application reply
        "open_reply" => match read_open_reply(bytes) {
            Ok(reply) => {
                let ids = Then(reply.ot_id, reply.to_id);
                let intervals = Then(reply.ot_api, reply.to_api);
                let more = Then(intervals, PairsOrCount(reply.reply));
                text(alloc, Then(ids, Then(Numbers(reply.triad), more)))
            }
            Err(fault) => name_of(alloc, fault),
        },
        "open_failure" => match read_open_failure(bytes) {
            Ok(found) => {
                let triad = Perhaps(found.triad.map(Numbers));
                text(alloc, Then(Perhaps(found.words), triad))
            }
            Err(fault) => name_of(alloc, fault),
        },
        // tick, ticks, the triad and the path
        "close" => match read_close(bytes) {
            Ok(view) => {
                let timing = view.fields.timing;
                let ticks = Then(timing.tick, timing.ticks);
                let more = Then(Numbers(view.fields.triad), PairsOrCount(view.path.bytes()));
                text(alloc, Then(ticks, more))
            }
            Err(fault) => name_of(alloc, fault),
        },
        "close_triad" => text(alloc, Perhaps(close_triad_at(bytes).map(Numbers))),
        "close_words" => text(alloc, Perhaps(close_words_at(bytes))),
        // the triad and the application reply
        "close_reply" => match read_close_reply(bytes) {
            Ok(reply) => text(alloc, Then(Numbers(reply.triad), PairsOrCount(reply.reply))),
            Err(fault) => name_of(alloc, fault),
        },
        "close_failure" => match read_close_failure(bytes) {
            Ok(found) => {
                let triad = Perhaps(found.triad.map(Numbers));
                text(alloc, Then(Perhaps(found.words), triad))
            }
            Err(fault) => name_of(alloc, fault),
        },
        _ => None,
    }
}

/// `BYTES`: what they are read as.
pub fn read(alloc: Global, name: &str, bytes: &[u8]) -> Option<String> {
    match name {
        // a service, its path and its data
        "request" => match read_request(bytes) {
            Ok(request) => {
                let head = Then(request.service(), PairsOrCount(request.path().bytes()));
                text(alloc, Then(head, PairsOrCount(request.data_())))
            }
            Err(fault) => name_of(alloc, fault),
        },
        // a service and its path alone
        "request_head" => match read_request(bytes) {
            Ok(request) => {
                let path = PairsOrCount(request.path().bytes());
                text(alloc, Then(request.service(), path))
            }
            Err(fault) => name_of(alloc, fault),
        },
        // a service, its general status, the first word of its additional status, and its data
        "reply" => match read_reply(bytes) {
            Ok(reply) => {
                let Status { general, extra } = reply.status();
                let more = Then(Perhaps(extra), PairsOrCount(reply.data_()));
                text(alloc, Then(reply.service(), Then(general, more)))
            }
            Err(fault) => name_of(alloc, fault),
        },
        "counted_path" => match counted_path(bytes, 0, 1) {
            Ok(path) => text(alloc, PairsOrCount(path.bytes())),
            Err(fault) => name_of(alloc, fault),
        },
        // tick, ticks, the embedded request and the route
        "unconnected" => match read_unconnected(bytes) {
            Ok(view) => {
                let request = PairsOrCount(inner(&view));
                let sent = Then(request, PairsOrCount(view.route.bytes()));
                let ticks = Then(view.timing.tick, view.timing.ticks);
                text(alloc, Then(ticks, sent))
            }
            Err(fault) => name_of(alloc, fault),
        },
        "route_words" => text(alloc, Perhaps(route_words(bytes))),
        _ => of_connection(alloc, name, bytes),
    }
}

/// `FROM TO NAME BYTES`: what each front of the bytes is read as that has a length from FROM on and
/// below TO, where it is the same.
pub fn cut(words: &mut Words) -> Option<String> {
    let alloc = words.alloc;
    let from = usize::from(words.u16()?);
    let to = usize::from(words.u16()?);
    let name = words.word()?;
    let bytes = words.bytes()?;
    if from > bytes.len() || to > bytes.len() {
        return None;
    }
    let first = read(alloc, name, &bytes.as_slice()[..from])?;
    for len in from..to {
        if read(alloc, name, &bytes.as_slice()[..len])?.as_str() != first.as_str() {
            return None;
        }
    }
    Some(first)
}

/// `NAME BYTES`: what the bytes are read as with one more behind them, where it is the same
/// whichever that is.
pub fn over(words: &mut Words) -> Option<String> {
    let alloc = words.alloc;
    let name = words.word()?;
    let mut longer = words.bytes()?;
    longer.push(0).ok()?;
    let first = read(alloc, name, longer.as_slice())?;
    for last in 1..=255u8 {
        let _before = longer.pop();
        longer.push(last).ok()?;
        if read(alloc, name, longer.as_slice())?.as_str() != first.as_str() {
            return None;
        }
    }
    Some(first)
}
