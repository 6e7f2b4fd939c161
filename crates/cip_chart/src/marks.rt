//! What an entry does beside sending, as marks beside the lifeline.
use cip_base::NoMemory;
use cip_book::{drop_word, refusal_word};
use cip_decode::decode_reply;
use cip_event::Output;
use std::alloc::{AllocError, Global};

// The end of an op: how it ended.
fn done_text(alloc: Global, op: u32, reply: &[u8]) -> Result<(String, bool), AllocError> {
    match decode_reply(reply) {
        Ok(reply) => {
            let status = cip_decode::StatusText(reply.view.status());
            let is_bad = reply.view.general != 0;
            Ok((format!(in alloc; "op {op} done: {status}")?, is_bad))
        }
        Err(_) => Ok((format!(in alloc; "op {op} done: unreadable")?, true)),
    }
}

// A datum that was consumed, and whether it was written.
fn consumed_text(
    alloc: Global,
    instance: u32,
    count: usize,
    is_repeated: bool,
) -> Result<String, AllocError> {
    let behind = if is_repeated {
        ", repeated: not written"
    } else {
        ""
    };
    format!(in alloc; "consumed {instance} ({count} bytes){behind}")
}

/// The text of a mark, and whether it tells of something bad; None for a frame that goes out. Of a
/// datum that was consumed is told whether it repeats the one before.
pub(crate) fn mark_of(
    alloc: Global,
    output: &Output,
    is_repeated: bool,
) -> Result<Option<(String, bool)>, NoMemory> {
    let found = match output {
        Output::Send { .. } => return Ok(None),
        Output::Done { op, reply } => done_text(alloc, *op, reply.as_slice())?,
        Output::Refused(fault) => {
            let word = refusal_word(*fault);
            (format!(in alloc; "refused {word}")?, true)
        }
        Output::Consumed {
            instance,
            bytes,
            ..
        } => {
            let count = bytes.as_slice().len();
            (consumed_text(alloc, *instance, count, is_repeated)?, false)
        }
        Output::Arrived { op, bytes } => {
            let count = bytes.as_slice().len();
            (format!(in alloc; "arrived {op} ({count} bytes)")?, false)
        }
        Output::Expired { triad } => {
            let serial = triad.serial;
            (format!(in alloc; "expired, serial {serial}")?, true)
        }
        Output::Ended { op } => (format!(in alloc; "op {op} ended by the reset")?, true),
        Output::Dropped(reason) => {
            let word = drop_word(*reason);
            (format!(in alloc; "dropped {word}")?, true)
        }
    };
    Ok(Some(found))
}
