//! The lines of the standard input.
//!
//! - `fresh` makes the modules anew; `opened` too, and then the scanner opens a connection to
//!   the adapter.
//! - `M EVENT ..` gives an event to the module of this name. No frame is carried from one module to
//! another: each that arrives has a line. `M send OP TICK TICKS PATH REQUEST`, `M open OP TICK
//! TICKS PATH SERIAL MULT TRANSPORT OT_RPI OT_PARAMS TO_RPI TO_PARAMS`, `M large ..` with the words
//! of `open`, `M close OP OF TICK TICKS`, `M enter OF BYTES`, `M set INSTANCE BYTES` and `M produce
//! INSTANCE` are the commands, `M request PORT FROM NUMBER BYTES`, `M reply PORT FROM NUMBER BYTES`
//! and `M data PORT FROM ID BYTES` the frames, and `M tick MS` is the tick.
//! - `M tables` has for its outputs the lines of the module's tables.
//! - `M with SETTING NUMBER ..` makes the module anew, with these settings: `clock`, `first_id`,
//! `first_number`, `pending_room`, `hop_room`; `kind`, which is 0 for a plain module, 1 for an
//! indexed one and 2 for an adapter; `sizes`, which is 0 for the adapter's own, 1 for some of odd
//! sizes and 2 for its own and one of 600 bytes.
//! - `! M EVENT ..` is an event that is guarded (`guarded.rt`).
//! - `in ROOM M EVENT ..` is a datum or an Enter whose bytes come in so much room
//! (`little_room.rt`).
//!
//! Numbers are decimal, or hexadecimal after `0x`. Bytes are pairs of hexadecimal digits, `-` for
//! none; `_` between them means nothing, and a plus and a number after them stand for so many
//! zeros.
//!
//! What comes of a line is a line for each output, as in a transcript, and then an empty one. A
//! step that did not happen has `clock full` or `no memory` in its place.
use crate::chassis::Kinds;
use crate::fault::Fault;
use crate::guarded::guarded;
use crate::harness::Harness;
use crate::little_room;
use crate::out::Out;
use std::alloc::Global;
use std::io::{BufRead, BufReader};

// New modules.
fn fresh(alloc: Global, kinds: Kinds) -> Result<Harness, Fault> {
    Harness::new(alloc, kinds).ok_or(Fault::NoMemory)
}

// New modules along which a connection is open.
fn opened(alloc: Global, kinds: Kinds) -> Result<Harness, Fault> {
    let mut harness = fresh(alloc, kinds)?;
    harness.open().ok_or(Fault::NoMemory)?;
    Ok(harness)
}

// What comes of a line.
fn obey(out: &mut Out, harness: &mut Harness, kinds: Kinds, line: &str) -> Result<(), Fault> {
    if line == "fresh" {
        *harness = fresh(out.alloc(), kinds)?;
    } else if line == "opened" {
        *harness = opened(out.alloc(), kinds)?;
    } else if let Some(line) = line.strip_prefix("! ") {
        guarded(out, harness, line)?;
    } else if let Some(words) = line.strip_prefix("in ") {
        little_room::play(out.alloc(), harness, words).ok_or(Fault::Line)?;
    } else {
        harness.obey(line).ok_or(Fault::Line)?;
    }
    out.put(harness.given())?;
    harness.forget();
    Ok(())
}

/// Plays the lines of the standard input on modules of these kinds.
pub fn play(rt: &HostRuntime, kinds: Kinds) -> Result<(), Fault> {
    let alloc = rt.alloc();
    let mut out = Out::new(rt);
    let mut harness = fresh(alloc, kinds)?;
    for line in BufReader::new(alloc, rt.reader())?.lines(alloc) {
        obey(&mut out, &mut harness, kinds, line?.as_str())?;
    }
    out.flush()
}
