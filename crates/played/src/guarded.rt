//! An event that is guarded, so that memory can be refused to its step alone.
use crate::fault::Fault;
use crate::harness::Harness;
use crate::out::Out;
use cip_module::{Event, StepFault};
use std::alloc::Global;

/// What a step that is refused must leave as it was.
#[derive(Drop, PartialEq, Eq)]
struct Kept {
    tables: String,
    event: String,
}

fn noted(alloc: Global, harness: &Harness, place: usize, event: &Event) -> Result<Kept, Fault> {
    let tables = harness.tables(place).ok_or(Fault::NoMemory)?;
    let event = format!(in alloc; "{event:?}")?;
    Ok(Kept { tables, event })
}

// Takes an event again that was refused memory, and tells whether all was as before.
fn taken_again(
    harness: &mut Harness,
    alloc: Global,
    place: usize,
    event: Event,
    before: &Kept,
) -> Result<(), Fault> {
    let after = noted(alloc, harness, place, &event)?;
    let lines = if after == *before {
        "no memory\nsame"
    } else {
        "no memory\ndiffers"
    };
    harness.tell_line(lines).ok_or(Fault::NoMemory)?;
    let stepped = harness.step(place, event).ok_or(Fault::Line)?;
    harness.tell(&stepped).ok_or(Fault::NoMemory)
}

// The second mark, which stands with the first one on a line of its own.
fn close(out: &mut Out, harness: &mut Harness) -> Result<(), Fault> {
    out.mark("<")?;
    harness.tell_line("").ok_or(Fault::NoMemory)
}

/// Takes an event between the marks `>` and `<`. Where memory is refused, the lines tell so, and
/// whether the module's tables and the event that came back are the `same` as before; then that
/// event is taken, without marks.
pub fn guarded(out: &mut Out, harness: &mut Harness, line: &str) -> Result<(), Fault> {
    let alloc = out.alloc();
    let (place, event) = harness.event(line).ok_or(Fault::Line)?;
    let before = noted(alloc, harness, place, &event)?;
    out.flush()?;
    out.mark(">")?;
    let stepped = harness.step(place, event);
    close(out, harness)?;
    match stepped {
        Some(Err(StepFault::NoMemory(event))) => {
            taken_again(harness, alloc, place, event, &before)
        }
        Some(stepped) => harness.tell(&stepped).ok_or(Fault::NoMemory),
        None => Err(Fault::Line),
    }
}
