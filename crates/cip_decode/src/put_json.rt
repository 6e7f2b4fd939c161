//! Messages as JSON behind a text: functions of the records that reading gave, without a tree of
//! values between. Members stand in alphabetical order.
use crate::fields::{intervals, kind_name, priority_name, tick_length, trigger_name};
use crate::reply::{Answer, Reply};
use crate::request::{Meaning, Request};
use cip_base::{KeyFields, NoMemory, Status, Timing, Triad};
use cip_close::{CloseReply, CloseView};
use cip_message::{ConnectionFailure, RequestView, read_request};
use cip_names::{service_name, status_name};
use cip_open::{OpenFields, OpenReply, OpenView, open_params};
use cip_segment::{PathView, SegmentView, split_first};
use cip_text::Draft;
use cip_unconnected::{UnconnectedView, inner};
use std::fmt;

// What is shown, as a JSON string.
fn put_told<T: fmt::Display + Drop>(text: &mut Draft, shown: T) -> Result<(), NoMemory> {
    let alloc = text.allocator();
    let told = format!(in alloc; "{shown}")?;
    text.put_quoted(told.as_str())
}

// An object with the fault of what can't be read.
fn put_fault<T: fmt::Display + Drop>(text: &mut Draft, fault: T) -> Result<(), NoMemory> {
    text.put("{\"unreadable\":")?;
    put_told(text, fault)?;
    text.put("}")
}

// Bytes as pairs between what stands before them and behind them, with the quotation marks.
fn put_bytes(text: &mut Draft, before: &str, bytes: &[u8], behind: &str) -> Result<(), NoMemory> {
    text.put(before)?;
    text.put_pairs(bytes)?;
    text.put(behind)
}

fn put_bool(text: &mut Draft, is_so: bool) -> Result<(), NoMemory> {
    if is_so {
        text.put("true")
    } else {
        text.put("false")
    }
}

// A number, or null.
fn put_optional(text: &mut Draft, before: &str, number: Option<u16>) -> Result<(), NoMemory> {
    match number {
        Some(number) => text.put_count(before, u64::from(number)),
        None => {
            text.put(before)?;
            text.put("null")
        }
    }
}

// A word between what stands before it and behind it, with the quotation marks.
fn put_word(
    text: &mut Draft,
    before: &str,
    word: &'static str,
    behind: &str,
) -> Result<(), NoMemory> {
    text.put(before)?;
    text.put(word)?;
    text.put(behind)
}

// A name, or null, as the last member of an object.
fn put_name(text: &mut Draft, before: &str, name: Option<&'static str>) -> Result<(), NoMemory> {
    text.put(before)?;
    match name {
        Some(name) => put_word(text, "\"", name, "\"}"),
        None => text.put("null}"),
    }
}

/// Puts a triad: `serial`, `vendor`, `originator`. NoMemory where an allocation is refused.
pub fn put_triad_json(text: &mut Draft, triad: Triad) -> Result<(), NoMemory> {
    text.put_count("{\"originator\":", u64::from(triad.originator))?;
    text.put_count(",\"serial\":", u64::from(triad.serial))?;
    text.put_count(",\"vendor\":", u64::from(triad.vendor))?;
    text.put("}")
}

// A triad as the last member of an object, which is the one member of another.
fn put_last_triad(text: &mut Draft, triad: Triad) -> Result<(), NoMemory> {
    text.put(",\"triad\":")?;
    put_triad_json(text, triad)?;
    text.put("}}")
}

fn put_key(text: &mut Draft, key: KeyFields) -> Result<(), NoMemory> {
    text.put("{\"key\":{\"compatible\":")?;
    put_bool(text, 128 <= key.major)?;
    text.put_count(",\"device_type\":", u64::from(key.device_type))?;
    text.put_count(",\"major\":", u64::from(key.major % 128))?;
    text.put_count(",\"minor\":", u64::from(key.minor))?;
    text.put_count(",\"product\":", u64::from(key.product))?;
    text.put_count(",\"vendor\":", u64::from(key.vendor))?;
    text.put("}}")
}

fn put_port(text: &mut Draft, port: u16, address: &[u8]) -> Result<(), NoMemory> {
    put_bytes(text, "{\"address\":\"", address, "\",\"port\":")?;
    text.put_number(u64::from(port))?;
    text.put("}")
}

// An object with one number.
fn put_one(text: &mut Draft, before: &str, number: u32) -> Result<(), NoMemory> {
    text.put_count(before, u64::from(number))?;
    text.put("}")
}

fn put_segment(text: &mut Draft, segment: SegmentView<'_>) -> Result<(), NoMemory> {
    match segment {
        SegmentView::Port(port, address) => put_port(text, port.get(), address),
        SegmentView::Class(number) => put_one(text, "{\"class\":", u32::from(number)),
        SegmentView::Instance(number) => put_one(text, "{\"instance\":", number),
        SegmentView::Member(number) => put_one(text, "{\"member\":", u32::from(number)),
        SegmentView::Point(number) => put_one(text, "{\"point\":", number),
        SegmentView::Attribute(number) => put_one(text, "{\"attribute\":", u32::from(number)),
        SegmentView::Key(key) => put_key(text, key),
        SegmentView::Words(bytes) => put_bytes(text, "{\"data\":\"", bytes, "\"}"),
        SegmentView::Symbol(name) => put_bytes(text, "{\"symbol\":\"", name, "\"}"),
        SegmentView::Inhibit(time) => put_one(text, "{\"inhibit_ms\":", u32::from(time)),
    }
}

/// Puts a path: an array with an object for each segment. NoMemory where an allocation is refused.
pub fn put_path_json(text: &mut Draft, path: PathView<'_>) -> Result<(), NoMemory> {
    text.put("[")?;
    let mut rest = path;
    while let Some((first, after)) = split_first(rest) {
        if rest.bytes.len() < path.bytes.len() {
            text.put(",")?;
        }
        put_segment(text, first)?;
        rest = after;
    }
    text.put("]")
}

fn put_timing(text: &mut Draft, before: &str, timing: Timing) -> Result<(), NoMemory> {
    text.put(before)?;
    text.put_count("{\"tick\":", u64::from(timing.tick))?;
    text.put_count(",\"tick_ms\":", u64::from(tick_length(timing)))?;
    text.put_count(",\"ticks\":", u64::from(timing.ticks))?;
    text.put("}")
}

// A request's service, path and data.
fn put_plain(text: &mut Draft, view: RequestView<'_>) -> Result<(), NoMemory> {
    text.put_count("{\"code\":", u64::from(view.service))?;
    put_bytes(text, ",\"data\":\"", view.data_, "\",\"path\":")?;
    put_path_json(text, view.path)?;
    put_name(text, ",\"service\":", service_name(view.service))
}

// The request that an Unconnected_Send carries.
fn put_embedded(text: &mut Draft, bytes: &[u8]) -> Result<(), NoMemory> {
    match read_request(bytes) {
        Ok(view) => put_plain(text, view),
        Err(fault) => put_fault(text, fault),
    }
}

fn put_unconnected(text: &mut Draft, view: &UnconnectedView<'_>) -> Result<(), NoMemory> {
    text.put("{\"unconnected_send\":{\"carries\":")?;
    put_embedded(text, inner(view))?;
    text.put(",\"route\":")?;
    put_path_json(text, view.route)?;
    put_timing(text, ",\"timing\":", view.timing)?;
    text.put("}}")
}

/// One direction of an open.
#[derive(Clone, Copy)]
struct Direction {
    id: u32,
    rpi: u32,
    params: u32,
}

fn put_direction(
    text: &mut Draft,
    before: &str,
    large: bool,
    direction: Direction,
) -> Result<(), NoMemory> {
    let Direction { id, rpi, params } = direction;
    let parts = open_params(large, params);
    text.put_count(before, u64::from(id))?;
    text.put_count(",\"params\":", u64::from(params))?;
    let priority = priority_name(parts.priority);
    put_word(text, ",\"priority\":\"", priority, "\",\"redundant\":")?;
    put_bool(text, parts.redundant)?;
    text.put_count(",\"rpi_us\":", u64::from(rpi))?;
    text.put_count(",\"size\":", u64::from(parts.size))?;
    let kind = kind_name(parts.kind);
    put_word(text, ",\"type\":\"", kind, "\",\"variable\":")?;
    put_bool(text, parts.variable)?;
    text.put("}")
}

fn put_transport(text: &mut Draft, transport: u8) -> Result<(), NoMemory> {
    text.put_count(",\"transport\":{\"byte\":", u64::from(transport))?;
    text.put_count(",\"class\":", u64::from(transport % 16))?;
    text.put(",\"server\":")?;
    put_bool(text, 128 <= transport)?;
    put_word(text, ",\"trigger\":\"", trigger_name(transport), "\"}")
}

fn put_multiplier(text: &mut Draft, multiplier: u8) -> Result<(), NoMemory> {
    text.put_count(",\"multiplier\":{\"code\":", u64::from(multiplier))?;
    put_optional(text, ",\"intervals\":", intervals(multiplier))?;
    text.put("}")
}

// The members of an open before its path.
fn put_open_front(text: &mut Draft, fields: &OpenFields) -> Result<(), NoMemory> {
    let ot = Direction {
        id: fields.ot_id,
        rpi: fields.ot_rpi,
        params: fields.ot_params,
    };
    text.put("{\"open\":{\"large\":")?;
    put_bool(text, fields.large)?;
    put_multiplier(text, fields.multiplier)?;
    put_direction(text, ",\"ot\":{\"id\":", fields.large, ot)
}

// The members of an open behind its path.
fn put_open_end(text: &mut Draft, fields: &OpenFields) -> Result<(), NoMemory> {
    let to = Direction {
        id: fields.to_id,
        rpi: fields.to_rpi,
        params: fields.to_params,
    };
    put_timing(text, ",\"timing\":", fields.timing)?;
    put_direction(text, ",\"to\":{\"id\":", fields.large, to)?;
    put_transport(text, fields.transport)?;
    put_last_triad(text, fields.triad)
}

fn put_open(text: &mut Draft, view: &OpenView<'_>) -> Result<(), NoMemory> {
    put_open_front(text, &view.fields)?;
    text.put(",\"path\":")?;
    put_path_json(text, view.path)?;
    put_open_end(text, &view.fields)
}

fn put_close(text: &mut Draft, view: &CloseView<'_>) -> Result<(), NoMemory> {
    text.put("{\"close\":{\"path\":")?;
    put_path_json(text, view.path)?;
    put_timing(text, ",\"timing\":", view.fields.timing)?;
    put_last_triad(text, view.fields.triad)
}

fn put_meaning(text: &mut Draft, meaning: &Meaning<'_>) -> Result<(), NoMemory> {
    match meaning {
        Meaning::Unconnected(view) => put_unconnected(text, view),
        Meaning::Open(view) => put_open(text, view),
        Meaning::Close(view) => put_close(text, view),
        Meaning::UnreadUnconnected(fault) => put_fault(text, *fault),
        Meaning::Unread(fault) => put_fault(text, *fault),
        Meaning::Data => text.put("null"),
    }
}

/// Puts a request: `code` and `service`, `path`, `data`, and in `means` what its data says: an
/// object with `unconnected_send`, `open` or `close`, one with the fault in `unreadable`, or null.
/// NoMemory where an allocation is refused.
pub fn put_request_json(text: &mut Draft, request: &Request<'_>) -> Result<(), NoMemory> {
    let view = request.view;
    text.put_count("{\"code\":", u64::from(view.service))?;
    put_bytes(text, ",\"data\":\"", view.data_, "\",\"means\":")?;
    put_meaning(text, &request.meaning)?;
    text.put(",\"path\":")?;
    put_path_json(text, view.path)?;
    put_name(text, ",\"service\":", service_name(view.service))
}

// What an open was answered of one direction.
fn put_interval(text: &mut Draft, before: &str, api: u32, id: u32) -> Result<(), NoMemory> {
    text.put_count(before, u64::from(api))?;
    text.put_count(",\"id\":", u64::from(id))?;
    text.put("}")
}

fn put_opened(text: &mut Draft, reply: &OpenReply<'_>) -> Result<(), NoMemory> {
    put_interval(
        text,
        "{\"opened\":{\"ot\":{\"api_us\":",
        reply.ot_api,
        reply.ot_id,
    )?;
    put_bytes(text, ",\"reply\":\"", reply.reply, "\",\"to\":")?;
    put_interval(text, "{\"api_us\":", reply.to_api, reply.to_id)?;
    put_last_triad(text, reply.triad)
}

fn put_closed(text: &mut Draft, reply: &CloseReply<'_>) -> Result<(), NoMemory> {
    put_bytes(
        text,
        "{\"closed\":{\"reply\":\"",
        reply.reply,
        "\",\"triad\":",
    )?;
    put_triad_json(text, reply.triad)?;
    text.put("}}")
}

fn put_failure(text: &mut Draft, failure: ConnectionFailure) -> Result<(), NoMemory> {
    text.put("{\"failed\":{\"triad\":")?;
    match failure.triad {
        Some(triad) => put_triad_json(text, triad)?,
        None => text.put("null")?,
    }
    put_optional(text, ",\"words_left\":", failure.words.map(u16::from))?;
    text.put("}}")
}

fn put_answer(text: &mut Draft, answer: &Answer<'_>) -> Result<(), NoMemory> {
    match answer {
        Answer::Opened(reply) => put_opened(text, reply),
        Answer::Closed(reply) => put_closed(text, reply),
        Answer::Failed(failure) => put_failure(text, *failure),
        Answer::RouteLeft(words) => {
            text.put_count("{\"failed\":{\"words_left\":", u64::from(*words))?;
            text.put("}}")
        }
        Answer::Unread(fault) => put_fault(text, *fault),
        Answer::Data => text.put("null"),
    }
}

fn put_status(text: &mut Draft, status: Status) -> Result<(), NoMemory> {
    put_optional(text, ",\"status\":{\"extra\":", status.extra)?;
    text.put_count(",\"general\":", u64::from(status.general))?;
    put_name(
        text,
        ",\"name\":",
        status_name(status.general, status.extra),
    )
}

// The service of a reply, or null.
fn put_service(text: &mut Draft, name: Option<&'static str>) -> Result<(), NoMemory> {
    match name {
        Some(name) => put_word(text, ",\"service\":\"", name, "\""),
        None => text.put(",\"service\":null"),
    }
}

/// Puts a reply: `code` and `service`, `status`, `data`, and in `means` what its data says: an
/// object with `opened`, `closed` or `failed`, one with the fault in `unreadable`, or null.
/// NoMemory where an allocation is refused.
pub fn put_reply_json(text: &mut Draft, reply: &Reply<'_>) -> Result<(), NoMemory> {
    let view = reply.view;
    text.put_count("{\"code\":", u64::from(view.service))?;
    put_bytes(text, ",\"data\":\"", view.data_, "\",\"means\":")?;
    put_answer(text, &reply.answer)?;
    put_service(text, service_name(view.service))?;
    put_status(text, view.status())?;
    text.put("}")
}
