//! The lines of a transcript.
ghost use Rattle.std.specs.Prelude.{◌≡◌, ◌+◌, ◌≤◌, ◌++◌, OnOk, IfOk, Ok, codes, decimal};
ghost use Rattle.std.specs.Prelude.{length, take};
ghost use Rattle.cip_transcript.specs.Show.{bytes_text, body_text, triad_text, refusal_text};
ghost use Rattle.cip_transcript.specs.Show.{drop_text, output_text, output_line, outputs_text};
ghost use Rattle.cip_transcript.specs.Show.{frame_text, command_text, input_text};
ghost use Rattle.cip_transcript.specs.Show.{name_of, numbers_text, trail_text, names_text};
ghost use Rattle.cip_transcript.specs.Show.{chain_text, head_text, lost_text, entry_text};

use crate::pieces::{put, put_bytes, put_number};
use cip_base::{Address, Bytes, ModuleId, NoMemory, PortNumber, Triad};
use cip_chain::ChainView;
use cip_routing::{Body, Command, Dropped, Output, Refused};
use cip_text::line::{ROOM, byte, number, number_then, pairs, put_front, room_for, word};
use cip_world::{Entry, FrameName, Input};

// Bytes that the room has no place for, and the end of the line.
fn put_long_end(
    text: &mut Vec<u8>,
    room: &mut [u8; ROOM],
    at: usize,
    bytes: &[u8],
) -> Result<usize, NoMemory>
    requires { at ≤ 256 }
    ensures most { IfOk result (λ next. next ≤ 256) }
    ensures text { IfOk result (λ next. text.new.items ++ take next room.new
        ≡ text.old.items ++ take at room.old ++ bytes_text bytes.now ++ codes "\n") }
{
    put_front(text, &room[..at])?;
    put_bytes(text, bytes)?;
    Ok(byte(room, 0, b'\n'))
}

// Bytes behind the line, and its end.
fn put_end(
    text: &mut Vec<u8>,
    room: &mut [u8; ROOM],
    at: usize,
    bytes: &Bytes,
) -> Result<usize, NoMemory>
    requires { at ≤ 250 }
    ensures most { IfOk result (λ next. next ≤ 256) }
    ensures text { IfOk result (λ next. text.new.items ++ take next room.new
        ≡ text.old.items ++ take at room.old ++ bytes_text bytes.now ++ codes "\n") }
{
    let bytes = bytes.as_slice();
    if bytes.len() > 120 {
        return put_long_end(text, room, at, bytes);
    }
    let from = room_for(text, room, at, 2 * bytes.len() + 2)?;
    let next = pairs(room, from, bytes);
    Ok(byte(room, next, b'\n'))
}

// A word, a number, bytes, and the end of the line.
#[inline(always)]
fn put_message(
    text: &mut Vec<u8>,
    room: &mut [u8; ROOM],
    at: usize,
    name: &[u8],
    number: u32,
    bytes: &Bytes,
) -> Result<usize, NoMemory>
    requires { at + length name.now ≤ 229 }
    ensures most { IfOk result (λ next. next ≤ 256) }
    ensures text { IfOk result (λ next. text.new.items ++ take next room.new
        ≡ text.old.items ++ take at room.old ++ name.now ++ decimal number ++ codes " "
        ++ bytes_text bytes.now ++ codes "\n") }
{
    let next = word(room, at, name);
    let last = number_then(room, next, u64::from(number), b' ');
    put_end(text, room, last, bytes)
}

// A body behind a space, and the end of the line.
fn put_body(
    text: &mut Vec<u8>,
    room: &mut [u8; ROOM],
    at: usize,
    body: &Body,
) -> Result<usize, NoMemory>
    requires { at ≤ 215 }
    ensures most { IfOk result (λ next. next ≤ 256) }
    ensures text { IfOk result (λ next. text.new.items ++ take next room.new
        ≡ text.old.items ++ take at room.old ++ codes " " ++ body_text body.now ++ codes "\n") }
{
    match body {
        Body::Request { number, bytes } => {
            put_message(text, room, at, b" request ", *number, bytes)
        }
        Body::Reply { number, bytes } => put_message(text, room, at, b" reply ", *number, bytes),
        Body::Data { id, bytes } => put_message(text, room, at, b" data ", *id, bytes),
    }
}

/// A triad by its serial number, vendor, and originator's serial number.
pub(crate) fn put_triad(text: &mut Vec<u8>, triad: &Triad) -> Result<(), NoMemory>
    ensures { OnOk result (text.new.items ≡ text.old.items ++ triad_text triad.now) }
{
    put_number(text, u64::from(triad.serial))?;
    put(text, b" ")?;
    put_number(text, u64::from(triad.vendor))?;
    put(text, b" ")?;
    put_number(text, u64::from(triad.originator))
}

// The same in a line.
fn triad_at(room: &mut [u8; ROOM], at: usize, triad: &Triad) -> usize
    requires { at + 62 ≤ 256 }
    ensures most { result ≤ at + 62 }
    ensures text { take result room.new ≡ take at room.old ++ triad_text triad.now }
{
    let vendor = number_then(room, at, u64::from(triad.serial), b' ');
    let originator = number_then(room, vendor, u64::from(triad.vendor), b' ');
    number(room, originator, u64::from(triad.originator))
}

fn refusal_text(fault: Refused) -> &'static str
    ensures { result.now ≡ refusal_text fault }
{
    match fault {
        Refused::OpUsed => "OpUsed",
        Refused::NotOpen => "NotOpen",
        Refused::WrongSize => "WrongSize",
        Refused::ReservedService => "ReservedService",
        Refused::NoInstance => "NoInstance",
    }
}

fn drop_text(reason: Dropped) -> &'static str
    ensures { result.now ≡ drop_text reason }
{
    match reason {
        Dropped::Malformed => "Malformed",
        Dropped::Late => "Late",
        Dropped::UnknownId => "UnknownId",
        Dropped::WrongSize => "WrongSize",
    }
}

fn put_send(
    text: &mut Vec<u8>,
    room: &mut [u8; ROOM],
    at: usize,
    port: PortNumber,
    to: &Address,
    body: &Body,
) -> Result<usize, NoMemory>
    requires { at ≤ 153 }
    ensures most { IfOk result (λ next. next ≤ 256) }
    ensures text { IfOk result (λ next. text.new.items ++ take next room.new
        ≡ text.old.items ++ take at room.old ++ output_text (Output.Send port to.now body.now)
        ++ codes "\n") }
{
    let port_at = word(room, at, b"send ");
    let to_at = number_then(room, port_at, u64::from(port.get()), b' ');
    let body_at = pairs(room, to_at, to.as_slice());
    put_body(text, room, body_at, body)
}

fn put_consumed(
    text: &mut Vec<u8>,
    room: &mut [u8; ROOM],
    at: usize,
    triad: &Triad,
    instance: u32,
    bytes: &Bytes,
) -> Result<usize, NoMemory>
    requires { at ≤ 153 }
    ensures most { IfOk result (λ next. next ≤ 256) }
    ensures text { IfOk result (λ next. text.new.items ++ take next room.new
        ≡ text.old.items ++ take at room.old
        ++ output_text (Output.Consumed triad.now instance bytes.now) ++ codes "\n") }
{
    let triad_from = word(room, at, b"consumed ");
    let instance_at = triad_at(room, triad_from, triad);
    put_message(text, room, instance_at, b" ", instance, bytes)
}

fn expired_at(room: &mut [u8; ROOM], at: usize, triad: &Triad) -> usize
    requires { at ≤ 153 }
    ensures most { result ≤ 256 }
    ensures text { take result room.new
        ≡ take at room.old ++ output_text (Output.Expired triad.now) ++ codes "\n" }
{
    let triad_from = word(room, at, b"expired ");
    let next = triad_at(room, triad_from, triad);
    byte(room, next, b'\n')
}

// A word, a word of its own, and the end of the line.
fn named(room: &mut [u8; ROOM], at: usize, kind: &[u8], name: &str) -> usize
    requires { at + length kind.now + length name.now ≤ 255 }
    ensures most { result ≤ 256 }
    ensures text { take result room.new
        ≡ take at room.old ++ kind.now ++ name.now ++ codes "\n" }
{
    let name_at = word(room, at, kind);
    let next = word(room, name_at, name.as_bytes());
    byte(room, next, b'\n')
}

// The text of an output, and the end of the line.
fn put_output(
    text: &mut Vec<u8>,
    room: &mut [u8; ROOM],
    at: usize,
    output: &Output,
) -> Result<usize, NoMemory>
    requires { at ≤ 153 }
    ensures most { IfOk result (λ next. next ≤ 256) }
    ensures text { IfOk result (λ next. text.new.items ++ take next room.new
        ≡ text.old.items ++ take at room.old ++ output_text output.now ++ codes "\n") }
{
    match output {
        Output::Send { port, to, body } => put_send(text, room, at, *port, to, body),
        Output::Done { op, reply } => put_message(text, room, at, b"done ", *op, reply),
        Output::Refused(fault) => Ok(named(room, at, b"refused ", refusal_text(*fault))),
        Output::Consumed {
            triad,
            instance,
            bytes,
        } => put_consumed(text, room, at, triad, *instance, bytes),
        Output::Arrived { op, bytes } => put_message(text, room, at, b"arrived ", *op, bytes),
        Output::Expired { triad } => Ok(expired_at(room, at, triad)),
        Output::Ended { op } => Ok(numbered(room, at, b"ended ", u64::from(*op))),
        Output::Dropped(reason) => Ok(named(room, at, b"dropped ", drop_text(*reason))),
    }
}

// The line of an output, numbered from 0 within its entry.
fn put_line(
    text: &mut Vec<u8>,
    room: &mut [u8; ROOM],
    at: usize,
    index: usize,
    output: &Output,
) -> Result<usize, NoMemory>
    requires { at ≤ 256 }
    ensures most { IfOk result (λ next. next ≤ 256) }
    ensures text { IfOk result (λ next. text.new.items ++ take next room.new
        ≡ text.old.items ++ take at room.old ++ output_line index output.now) }
{
    let from = room_for(text, room, at, 126)?;
    let index_at = word(room, from, b"  ");
    let next = number_then(room, index_at, index as u64, b' ');
    put_output(text, room, next, output)
}

// The lines of all outputs of an entry.
fn put_outputs(
    text: &mut Vec<u8>,
    room: &mut [u8; ROOM],
    at: usize,
    outputs: &[Output],
) -> Result<usize, NoMemory>
    requires { at ≤ 256 }
    ensures most { IfOk result (λ next. next ≤ 256) }
    ensures text { IfOk result (λ next. text.new.items ++ take next room.new
        ≡ text.old.items ++ take at room.old ++ outputs_text 0 outputs.now) }
{
    let mut end = at;
    for (index, output) in outputs.iter().enumerate() {
        end = put_line(text, room, end, index, output)?;
    }
    Ok(end)
}

// A frame by its name behind a word, and the end of the line.
fn frame_at(room: &mut [u8; ROOM], at: usize, kind: &[u8], name: FrameName) -> usize
    requires { at + length kind.now ≤ 100 }
    ensures most { result ≤ at + length kind.now + 42 }
    ensures text { take result room.new
        ≡ take at room.old ++ kind.now ++ frame_text name ++ codes "\n" }
{
    let entry_at = word(room, at, kind);
    let output_at = number_then(room, entry_at, name.entry as u64, b'.');
    number_then(room, output_at, name.output as u64, b'\n')
}

// A word, a number, and the end of the line.
#[inline(always)]
fn numbered(room: &mut [u8; ROOM], at: usize, kind: &[u8], number: u64) -> usize
    requires { at + length kind.now ≤ 200 }
    ensures most { result ≤ at + length kind.now + 21 }
    ensures text { take result room.new
        ≡ take at room.old ++ kind.now ++ decimal number ++ codes "\n" }
{
    let next = word(room, at, kind);
    number_then(room, next, number, b'\n')
}

// A command behind a space, and the end of the line.
fn command_at(room: &mut [u8; ROOM], at: usize, command: &Command) -> usize
    requires { at ≤ 60 }
    ensures most { result ≤ 256 }
    ensures text { take result room.new
        ≡ take at room.old ++ codes " " ++ command_text command.now ++ codes "\n" }
{
    match command {
        Command::Open { op, .. } => numbered(room, at, b" open ", u64::from(*op)),
        Command::LargeOpen { op, .. } => numbered(room, at, b" large ", u64::from(*op)),
        Command::Close { op, .. } => numbered(room, at, b" close ", u64::from(*op)),
        Command::Send { op, .. } => numbered(room, at, b" send ", u64::from(*op)),
        Command::Enter { of, .. } => numbered(room, at, b" enter ", u64::from(*of)),
        Command::Set { instance, .. } => numbered(room, at, b" set ", u64::from(*instance)),
        Command::Produce { instance } => numbered(room, at, b" produce ", u64::from(*instance)),
    }
}

// What a module was given, behind a space, and the end of the line: a command or a tick by what it
// asks for, a frame by its name.
fn input_at(room: &mut [u8; ROOM], at: usize, input: &Input) -> usize
    requires { at ≤ 60 }
    ensures most { result ≤ 256 }
    ensures text { take result room.new
        ≡ take at room.old ++ codes " " ++ input_text input.now ++ codes "\n" }
{
    match input {
        Input::Command(command) => command_at(room, at, command),
        Input::Tick(by) => numbered(room, at, b" tick ", u64::from(by.get())),
        Input::Frame { name, .. } => frame_at(room, at, b" frame ", *name),
    }
}

/// The name of the module at this place of a topology, from 0; no byte where there is none.
pub fn name_in(names: &[Bytes], place: usize) -> &[u8]
    ensures { result.now ≡ name_of names.now place }
{
    match names.get(place) {
        Some(name) => name.as_slice(),
        None => &[],
    }
}

// A name, 32 bytes at most: one letter is not worth a copy by the library.
#[inline(always)]
fn name_at(room: &mut [u8; ROOM], at: usize, name: &[u8]) -> usize
    requires { (at ≤ 21) × (length name.now ≤ 32) }
    ensures most { result ≤ 60 }
    ensures text { take result room.new ≡ take at room.old ++ name.now }
{
    match name {
        [letter] => byte(room, at, *letter),
        _ => word(room, at, name),
    }
}

// The first line of an entry whose module has a long name.
fn put_long_head(
    text: &mut Vec<u8>,
    room: &mut [u8; ROOM],
    at: usize,
    name: &[u8],
    input: &Input,
) -> Result<usize, NoMemory>
    requires { at ≤ 21 }
    ensures most { IfOk result (λ next. next ≤ 256) }
    ensures text { IfOk result (λ next. text.new.items ++ take next room.new
        ≡ text.old.items ++ take at room.old ++ name.now ++ codes " " ++ input_text input.now
        ++ codes "\n") }
{
    put_front(text, &room[..at])?;
    put(text, name)?;
    Ok(input_at(room, 0, input))
}

// The first line of an entry.
fn put_head(
    text: &mut Vec<u8>,
    room: &mut [u8; ROOM],
    number: usize,
    name: &[u8],
    input: &Input,
) -> Result<usize, NoMemory>
    ensures most { IfOk result (λ next. next ≤ 256) }
    ensures text { IfOk result (λ next. text.new.items ++ take next room.new
        ≡ text.old.items ++ head_text number name.now (input_text input.now)) }
{
    let at = number_then(room, 0, number as u64, b' ');
    if name.len() > 32 {
        return put_long_head(text, room, at, name, input);
    }
    let next = name_at(room, at, name);
    Ok(input_at(room, next, input))
}

fn lost_at(room: &mut [u8; ROOM], entry: usize, frame: FrameName) -> usize
    ensures most { result ≤ 256 }
    ensures text { take result room.new ≡ lost_text entry frame }
{
    let at = number(room, 0, entry as u64);
    frame_at(room, at, b" lost ", frame)
}

/// Puts an entry of a journal, with its number from 0, behind a text: its own line, and one for
/// each output. The names are those of the modules. NoMemory where an allocation is refused: then
/// a part may stand there.
pub fn put_entry(
    text: &mut Vec<u8>,
    names: &[Bytes],
    number: usize,
    entry: &Entry,
) -> Result<(), NoMemory>
    ensures { OnOk result (text.new.items
        ≡ text.old.items ++ entry_text names.now number entry.now) }
{
    let mut room = [0; ROOM];
    match entry {
        Entry::Step { at, input, outputs } => {
            let next = put_head(text, &mut room, number, name_in(names, at.0), input)?;
            let end = put_outputs(text, &mut room, next, outputs.as_slice())?;
            put_front(text, &room[..end])
        }
        Entry::Lost { frame } => {
            let end = lost_at(&mut room, number, *frame);
            put_front(text, &room[..end])
        }
    }
}

// Numbers, each behind a space.
fn put_numbers(text: &mut Vec<u8>, numbers: &[usize]) -> Result<(), NoMemory>
    ensures { OnOk result (text.new.items ≡ text.old.items ++ numbers_text numbers.now) }
{
    for number in numbers {
        put(text, b" ")?;
        put_number(text, *number as u64)?;
    }
    Ok(())
}

/// Puts the numbers of the entries that a request went through behind a text, in one line.
/// NoMemory where an allocation is refused: then a part may stand there.
pub fn put_trail(text: &mut Vec<u8>, entries: &[usize]) -> Result<(), NoMemory>
    ensures { OnOk result (text.new.items ≡ text.old.items ++ trail_text entries.now) }
{
    put(text, b"trail")?;
    put_numbers(text, entries)?;
    put(text, b"\n")
}

// The names of modules, each behind a space.
fn put_names(text: &mut Vec<u8>, names: &[Bytes], modules: &[ModuleId]) -> Result<(), NoMemory>
    ensures { OnOk result (text.new.items ≡ text.old.items ++ names_text names.now modules.now) }
{
    for at in modules {
        put(text, b" ")?;
        put(text, name_in(names, at.0))?;
    }
    Ok(())
}

/// The modules of a chain, and the instances of the assemblies at its end.
pub(crate) fn put_chain(
    text: &mut Vec<u8>,
    names: &[Bytes],
    view: &ChainView,
) -> Result<(), NoMemory>
    ensures { OnOk result (text.new.items ≡ text.old.items ++ chain_text names.now (Ok view.now)) }
{
    put(text, b"chain")?;
    put_names(text, names, view.modules.as_slice())?;
    put(text, b" ")?;
    put_number(text, u64::from(view.end.consume))?;
    put(text, b" ")?;
    put_number(text, u64::from(view.end.produce))?;
    put(text, b"\n")
}

/// The module that lacks the next connection.
pub(crate) fn put_broken(text: &mut Vec<u8>, name: &[u8]) -> Result<(), NoMemory>
    ensures { OnOk result (text.new.items
        ≡ text.old.items ++ (codes "broken " ++ name.now ++ codes "\n")) }
{
    put(text, b"broken ")?;
    put(text, name)?;
    put(text, b"\n")
}
