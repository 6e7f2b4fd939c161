//! Questions about messages: what bytes are read as, and what is written.
ghost use Rattle.std.specs.Prelude.{◌≡◌, ◌<◌, ◌^◌, false, IfSome};
ghost use Rattle.cip_open.specs.Open.{FitWidth};
ghost use Rattle.cip_message.specs.Failure.{HasTriadForWords};

use crate::read_messages::{cut, over, read};
use crate::texts::{Named, PairsOrCount, explained, text};
use cip_base::{Bytes, NoMemory, Status, put_double, put_word};
use cip_close::{CloseFields, CloseReply, write_close, write_close_failure, write_close_reply};
use cip_message::{
    ConnectionFailure, WriteFault, put_failure, put_manager_header, put_reply_header, put_triad,
    write_failure, write_reply, write_request,
};
use cip_open::{
    OpenFailure, OpenFields, OpenReply, large_params, params, write_open, write_open_failure,
    write_open_reply,
};
use cip_segment::view_path;
use cip_unconnected::write_unconnected;
use line_words::{Numbers, Then, Words};
use std::alloc::AllocError;

// The bytes of a message that a guarded call gave, or its fault.
fn written(words: &mut Words, written: Result<Bytes, WriteFault>) -> Option<String> {
    let alloc = words.alloc;
    words.close(matches!(written, Err(WriteFault::NoMemory)));
    match written {
        Ok(bytes) => text(alloc, PairsOrCount(bytes.as_slice())),
        Err(fault) => explained(alloc, fault),
    }
}

// The same of a call that fails only where it is refused memory.
fn made(words: &mut Words, made: Result<Bytes, NoMemory>) -> Option<String> {
    let bytes = words.had(made)?;
    text(words.alloc, PairsOrCount(bytes.as_slice()))
}

// `SERVICE PATH DATA`
fn new_request(words: &mut Words) -> Option<String> {
    let service = words.u8()?;
    let path = words.bytes()?;
    let data_ = words.bytes()?;
    if service >= 128 {
        return None;
    }
    let path = view_path(path.as_slice()).ok()?;
    words.open();
    let message = write_request(words.alloc, service, path, data_.as_slice());
    written(words, message)
}

// `GENERAL EXTRA`
fn status(words: &mut Words) -> Option<Status> {
    Some(Status {
        general: words.u8()?,
        extra: words.u16_or_dash()?,
    })
}

// `SERVICE GENERAL EXTRA DATA`
fn new_reply(words: &mut Words) -> Option<String> {
    let service = words.u8()?;
    let status = status(words)?;
    let data_ = words.bytes()?;
    if service < 128 {
        return None;
    }
    words.open();
    let message = write_reply(words.alloc, service, status, data_.as_slice());
    written(words, message)
}

// `TIMING REQUEST ROUTE`
fn new_unconnected(words: &mut Words) -> Option<String> {
    let timing = words.timing()?;
    let request = words.bytes()?;
    let route = words.bytes()?;
    let route = view_path(route.as_slice()).ok()?;
    words.open();
    let message = write_unconnected(words.alloc, timing, request.as_slice(), route);
    written(words, message)
}

// The network connection parameters of one direction, of an open that is large or not.
fn params_word(large: bool, words: &mut Words) -> Option<u32>
    ensures { IfSome result (λ p. large ≡ false → p < 2 ^ 16) }
{
    if large {
        words.u32()
    } else {
        Some(u32::from(words.u16()?))
    }
}

// The fixed fields of an open, large or not.
fn open_fields(large: bool, words: &mut Words) -> Option<OpenFields>
    ensures { IfSome result FitWidth }
{
    Some(OpenFields {
        timing: words.timing()?,
        ot_id: words.u32()?,
        to_id: words.u32()?,
        triad: words.triad()?,
        multiplier: words.u8()?,
        ot_rpi: words.u32()?,
        ot_params: params_word(large, words)?,
        to_rpi: words.u32()?,
        to_params: params_word(large, words)?,
        transport: words.u8()?,
        large,
    })
}

// `FIELDS PATH`
fn new_open(large: bool, words: &mut Words) -> Option<String> {
    let fields = open_fields(large, words)?;
    let path = words.bytes()?;
    let path = view_path(path.as_slice()).ok()?;
    words.open();
    let message = write_open(words.alloc, &fields, path);
    made(words, message)
}

// `OT_ID TO_ID TRIAD OT_API TO_API REPLY`
fn new_open_reply(large: bool, words: &mut Words) -> Option<String> {
    let ot_id = words.u32()?;
    let to_id = words.u32()?;
    let triad = words.triad()?;
    let ot_api = words.u32()?;
    let to_api = words.u32()?;
    let more = words.bytes()?;
    if more.len() > 510 || more.len() % 2 != 0 {
        return None;
    }
    let reply = OpenReply {
        ot_id,
        to_id,
        triad,
        ot_api,
        to_api,
        reply: more.as_slice(),
        large,
    };
    words.open();
    let message = write_open_reply(words.alloc, &reply);
    made(words, message)
}

// `WORDS TRIAD`, or a dash for neither.
fn told(words: &mut Words) -> Option<ConnectionFailure>
    ensures { IfSome result HasTriadForWords }
{
    let failure = match words.u16_or_dash()? {
        Some(left) => ConnectionFailure {
            triad: Some(words.triad()?),
            words: Some(u8::try_from(left).ok()?),
        },
        None => ConnectionFailure {
            triad: None,
            words: None,
        },
    };
    Some(failure)
}

// `SERVICE GENERAL EXTRA`, and what a failure tells.
fn new_failure(words: &mut Words) -> Option<String> {
    let service = words.u8()?;
    let status = status(words)?;
    let failure = told(words)?;
    words.open();
    let message = write_failure(words.alloc, service, status, &failure);
    made(words, message)
}

// `GENERAL EXTRA`, and what a failed close, or a failed open, large or not, tells.
fn new_manager_failure(name: &str, words: &mut Words) -> Option<String> {
    let status = status(words)?;
    let failure = told(words)?;
    let large = name == "write_large_failure";
    let ConnectionFailure { triad, words: left } = failure;
    let open_failure = OpenFailure {
        triad,
        words: left,
        large,
    };
    words.open();
    let message = if name == "write_close_failure" {
        write_close_failure(words.alloc, status, &failure)
    } else {
        write_open_failure(words.alloc, status, &open_failure)
    };
    made(words, message)
}

// `TIMING TRIAD PATH`
fn new_close(words: &mut Words) -> Option<String> {
    let fields = CloseFields {
        timing: words.timing()?,
        triad: words.triad()?,
    };
    let path = words.bytes()?;
    let path = view_path(path.as_slice()).ok()?;
    words.open();
    let message = write_close(words.alloc, &fields, path);
    made(words, message)
}

// `TRIAD REPLY`
fn new_close_reply(words: &mut Words) -> Option<String> {
    let triad = words.triad()?;
    let more = words.bytes()?;
    if more.len() > 510 || more.len() % 2 != 0 {
        return None;
    }
    let reply = CloseReply {
        triad,
        reply: more.as_slice(),
    };
    words.open();
    let message = write_close_reply(words.alloc, &reply);
    made(words, message)
}

// What is put behind these bytes: whether there was the memory for it.
fn put_behind(out: &mut Vec<u8>, name: &str, words: &mut Words) -> Option<Result<(), AllocError>> {
    match name {
        "put_word" => {
            let number = words.u16()?;
            words.open();
            Some(put_word(out, number))
        }
        "put_double" => {
            let number = words.u32()?;
            words.open();
            Some(put_double(out, number))
        }
        "put_triad" => {
            let triad = words.triad()?;
            words.open();
            Some(put_triad(out, triad))
        }
        "put_manager_header" => {
            let service = words.u8()?;
            words.open();
            Some(put_manager_header(out, service))
        }
        "put_reply_header" => {
            let service = words.u8()?;
            let status = status(words)?;
            words.open();
            Some(put_reply_header(out, service, status))
        }
        "put_failure" => {
            let failure = told(words)?;
            words.open();
            Some(put_failure(out, &failure))
        }
        _ => None,
    }
}

// `BYTES`, and what is put behind them. A call that is refused may leave a part of it there.
fn put(name: &str, words: &mut Words) -> Option<String> {
    let alloc = words.alloc;
    let front = words.bytes()?;
    let mut out = Vec::from_slice(alloc, front.as_slice()).ok()?;
    let put = put_behind(&mut out, name, words)?;
    if words.had(put).is_none() {
        words.same = Some(out.as_slice().get(..front.len()) == Some(front.as_slice()));
    }
    text(alloc, PairsOrCount(out.as_slice()))
}

// `SERVICE TRIAD`: a header of the Connection Manager and a triad.
fn manager_front(words: &mut Words) -> Option<String> {
    let mut out = Vec::new(words.alloc);
    put_manager_header(&mut out, words.u8()?).ok()?;
    put_triad(&mut out, words.triad()?).ok()?;
    text(words.alloc, PairsOrCount(out.as_slice()))
}

// `AT BYTES`: the triad that stands there.
fn triad_there(words: &mut Words) -> Option<String> {
    let at = usize::from(words.u16()?);
    let bytes = words.bytes()?;
    if bytes.len() < 8 || at > bytes.len() - 8 {
        return None;
    }
    text(
        words.alloc,
        Numbers(cip_message::triad_at(bytes.as_slice(), at)),
    )
}

/// The answer to a question of this name.
pub fn answer(name: &str, words: &mut Words) -> Option<String> {
    let alloc = words.alloc;
    match name {
        "cut" => cut(words),
        "over" => over(words),
        "write_request" => new_request(words),
        "write_reply" => new_reply(words),
        "write_failure" => new_failure(words),
        "manager_front" => manager_front(words),
        "triad_at" => triad_there(words),
        "write_unconnected" => new_unconnected(words),
        "write_open" => new_open(false, words),
        "write_large_open" => new_open(true, words),
        "write_open_reply" => new_open_reply(false, words),
        "write_large_reply" => new_open_reply(true, words),
        "write_open_failure" | "write_large_failure" | "write_close_failure" => {
            new_manager_failure(name, words)
        }
        "write_close" => new_close(words),
        "write_close_reply" => new_close_reply(words),
        // the parts of network connection parameters
        "params" | "large_params" => {
            let found = if name == "params" {
                params(words.u16()?)
            } else {
                large_params(words.u32()?)
            };
            let kind = Then(Named(found.priority), Named(found.kind));
            let more = Then(found.variable, found.redundant);
            text(alloc, Then(found.size, Then(kind, more)))
        }
        _ if name.starts_with("put_") => put(name, words),
        _ => read(alloc, name, words.bytes()?.as_slice()),
    }
}
