//! In which room the bytes of a datum and of an Enter go on.
use crate::harness::Harness;
use cip_base::Bytes;
use cip_module::{Body, Command, Event, Output};
use std::alloc::Global;

// The same bytes in so much room.
fn in_room(alloc: Global, bytes: &Bytes, room: usize) -> Option<Bytes> {
    let mut items = Vec::with_capacity(alloc, room).ok()?;
    items.extend_from_slice(bytes.as_slice()).ok()?;
    Some(Bytes::of(items))
}

// A datum or an Enter with its bytes in so much room.
fn event_in_room(alloc: Global, event: &Event, room: usize) -> Option<Event> {
    match event {
        Event::Frame {
            port,
            from,
            body: Body::Data { id, bytes },
        } => {
            let bytes = in_room(alloc, bytes, room)?;
            Some(Event::Frame {
                port: *port,
                from: from.copy(),
                body: Body::Data { id: *id, bytes },
            })
        }
        Event::Command(Command::Enter { of, bytes }) => {
            let bytes = in_room(alloc, bytes, room)?;
            Some(Event::Command(Command::Enter { of: *of, bytes }))
        }
        _ => None,
    }
}

// The room in which bytes go on by an output.
fn room_of(output: Output) -> Option<usize> {
    match output {
        Output::Send { body, .. } => match body {
            Body::Data { bytes, .. } => Some(bytes.into_vec().capacity()),
            _ => None,
        },
        Output::Arrived { bytes, .. } => Some(bytes.into_vec().capacity()),
        Output::Consumed { bytes, .. } => Some(bytes.into_vec().capacity()),
        _ => None,
    }
}

// The room in which the bytes of an event go on, which come in another one.
fn room_after(alloc: Global, harness: &mut Harness, room: usize, line: &str) -> Option<usize> {
    let (place, event) = harness.event(line)?;
    let event = event_in_room(alloc, &event, room)?;
    let mut outputs = harness.step(place, event)?.ok()?;
    room_of(outputs.pop()?)
}

/// `ROOM M EVENT ..`: a datum or an Enter whose bytes come in so much room. A line is kept with the
/// room in which they go on. None where the line is none, or an allocation is refused.
pub fn play(alloc: Global, harness: &mut Harness, words: &str) -> Option<()> {
    let (room, line) = words.split_once(' ')?;
    let room = usize::from_str_radix(room, 10).ok()?;
    let after = room_after(alloc, harness, room, line)?;
    let told = format!(in alloc; "room {after}").ok()?;
    harness.tell_line(told.as_str())
}
