//! The lines of outputs.
ghost use Rattle.std.specs.Prelude.{◌≡◌, ◌<◌, ◌≤◌, length, map, Option};
ghost use Rattle.cip_read.specs.Fields.{Gives, nth, texts, of_words};
ghost use Rattle.cip_read.specs.Outputs.{send_of, done_of, refused_of, consumed_of, arrived_of};
ghost use Rattle.cip_read.specs.Outputs.{expired_of, ended_of, dropped_of, output_of, body_of};
ghost use Rattle.cip_read.specs.Outputs.{refusal_of};
ghost use Rattle.cip_read.specs.Outputs.{drop_of, triad_of};

use crate::fault::{Expected, LineFault};
use crate::fields::{address_at, bytes_at, nth, port_at, u16_at, u32_at};
use cip_base::{Bytes, Triad};
use cip_event::{Body, Dropped, Output, Refused};
use std::alloc::Global;

// What a frame holds, by the word at place 6.
fn body_of(kind: &str, number: u32, bytes: Bytes) -> Result<Body, LineFault>
    ensures { Gives result (body_of kind.now number bytes) }
{
    if kind == "request" {
        Ok(Body::Request { number, bytes })
    } else if kind == "reply" {
        Ok(Body::Reply { number, bytes })
    } else if kind == "data" {
        Ok(Body::Data { id: number, bytes })
    } else {
        let expected = Expected::Words("request, reply or data");
        Err(LineFault::Word(6, expected))
    }
}

// `K send PORT ADDRESS request NUMBER BYTES`, and with `reply` or `data`
fn send_output(alloc: Global, words: &[&str]) -> Result<Output, LineFault>
    ensures { Gives result (of_words 9 (texts words.now) (send_of (texts words.now))) }
{
    if words.len() != 9 {
        let usage = "K send PORT ADDRESS request|reply|data NUMBER BYTES";
        return Err(LineFault::Word(words.len(), Expected::Usage(usage)));
    }
    let port = match port_at(words, 4) {
        Ok(port) => port,
        Err(fault) => return Err(fault),
    };
    let to = address_at(alloc, words, 5)?;
    let number = u32_at(words, 7)?;
    let bytes = bytes_at(alloc, words, 8)?;
    let body = body_of(nth(words, 6), number, bytes)?;
    Ok(Output::Send { port, to, body })
}

// `K done OP BYTES`
fn done_output(alloc: Global, words: &[&str]) -> Result<Output, LineFault>
    ensures { Gives result (of_words 6 (texts words.now) (done_of (texts words.now))) }
{
    if words.len() != 6 {
        return Err(LineFault::Word(words.len(), Expected::Usage("K done OP BYTES")));
    }
    let op = u32_at(words, 4)?;
    let reply = bytes_at(alloc, words, 5)?;
    Ok(Output::Done { op, reply })
}

fn refusal_of(word: &str) -> Result<Refused, LineFault>
    ensures { Gives result (refusal_of word.now) }
{
    if word == "OpUsed" {
        Ok(Refused::OpUsed)
    } else if word == "NotOpen" {
        Ok(Refused::NotOpen)
    } else if word == "WrongSize" {
        Ok(Refused::WrongSize)
    } else if word == "ReservedService" {
        Ok(Refused::ReservedService)
    } else if word == "NoInstance" {
        Ok(Refused::NoInstance)
    } else {
        let allowed = "OpUsed, NotOpen, WrongSize, ReservedService or NoInstance";
        Err(LineFault::Word(4, Expected::Words(allowed)))
    }
}

// `K refused FAULT`
fn refused_output(words: &[&str]) -> Result<Output, LineFault>
    ensures { Gives result (of_words 5 (texts words.now) (refused_of (texts words.now))) }
{
    if words.len() != 5 {
        return Err(LineFault::Word(words.len(), Expected::Usage("K refused FAULT")));
    }
    let fault = refusal_of(nth(words, 4))?;
    Ok(Output::Refused(fault))
}

// Serial number, vendor and originator's serial number, from place 4 on.
fn triad_at(words: &[&str]) -> Result<Triad, LineFault>
    requires { 7 ≤ length words.now }
    ensures { Gives result (triad_of (texts words.now)) }
{
    let serial = u16_at(words, 4)?;
    let vendor = u16_at(words, 5)?;
    let originator = u32_at(words, 6)?;
    Ok(Triad {
        serial,
        vendor,
        originator,
    })
}

// `K consumed TRIAD INSTANCE BYTES`
fn consumed_output(alloc: Global, words: &[&str]) -> Result<Output, LineFault>
    ensures { Gives result (of_words 9 (texts words.now) (consumed_of (texts words.now))) }
{
    if words.len() != 9 {
        let usage = "K consumed SERIAL VENDOR ORIGINATOR INSTANCE BYTES";
        return Err(LineFault::Word(words.len(), Expected::Usage(usage)));
    }
    let triad = triad_at(words)?;
    let instance = u32_at(words, 7)?;
    let bytes = bytes_at(alloc, words, 8)?;
    Ok(Output::Consumed {
        triad,
        instance,
        bytes,
    })
}

// `K arrived OP BYTES`
fn arrived_output(alloc: Global, words: &[&str]) -> Result<Output, LineFault>
    ensures { Gives result (of_words 6 (texts words.now) (arrived_of (texts words.now))) }
{
    if words.len() != 6 {
        return Err(LineFault::Word(words.len(), Expected::Usage("K arrived OP BYTES")));
    }
    let op = u32_at(words, 4)?;
    let bytes = bytes_at(alloc, words, 5)?;
    Ok(Output::Arrived { op, bytes })
}

// `K expired TRIAD`
fn expired_output(words: &[&str]) -> Result<Output, LineFault>
    ensures { Gives result (of_words 7 (texts words.now) (expired_of (texts words.now))) }
{
    if words.len() != 7 {
        let usage = "K expired SERIAL VENDOR ORIGINATOR";
        return Err(LineFault::Word(words.len(), Expected::Usage(usage)));
    }
    let triad = triad_at(words)?;
    Ok(Output::Expired { triad })
}

// `K ended OP`
fn ended_output(words: &[&str]) -> Result<Output, LineFault>
    ensures { Gives result (of_words 5 (texts words.now) (ended_of (texts words.now))) }
{
    if words.len() != 5 {
        return Err(LineFault::Word(words.len(), Expected::Usage("K ended OP")));
    }
    let op = u32_at(words, 4)?;
    Ok(Output::Ended { op })
}

fn drop_of(word: &str) -> Result<Dropped, LineFault>
    ensures { Gives result (drop_of word.now) }
{
    if word == "Malformed" {
        Ok(Dropped::Malformed)
    } else if word == "Late" {
        Ok(Dropped::Late)
    } else if word == "UnknownId" {
        Ok(Dropped::UnknownId)
    } else if word == "WrongSize" {
        Ok(Dropped::WrongSize)
    } else {
        let allowed = "Malformed, Late, UnknownId or WrongSize";
        Err(LineFault::Word(4, Expected::Words(allowed)))
    }
}

// `K dropped REASON`
fn dropped_output(words: &[&str]) -> Result<Output, LineFault>
    ensures { Gives result (of_words 5 (texts words.now) (dropped_of (texts words.now))) }
{
    if words.len() != 5 {
        return Err(LineFault::Word(words.len(), Expected::Usage("K dropped REASON")));
    }
    let reason = drop_of(nth(words, 4))?;
    Ok(Output::Dropped(reason))
}

/// The output of a line, by its word at place 3. Two empty words stand before its number, for the
/// two spaces.
pub(crate) fn output_at(alloc: Global, words: &[&str]) -> Result<Output, LineFault>
    requires { 4 ≤ length words.now }
    ensures { Gives result (output_of (texts words.now)) }
{
    let word = nth(words, 3);
    if word == "send" {
        send_output(alloc, words)
    } else if word == "done" {
        done_output(alloc, words)
    } else if word == "refused" {
        refused_output(words)
    } else if word == "consumed" {
        consumed_output(alloc, words)
    } else if word == "arrived" {
        arrived_output(alloc, words)
    } else if word == "expired" {
        expired_output(words)
    } else if word == "ended" {
        ended_output(words)
    } else if word == "dropped" {
        dropped_output(words)
    } else {
        let allowed = "send, done, refused, consumed, arrived, expired, ended or dropped";
        Err(LineFault::Word(3, Expected::Words(allowed)))
    }
}
