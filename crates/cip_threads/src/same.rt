//! Whether what a journal has is what a worker did.
ghost use Rattle.std.specs.Prelude.{◌≡◌, IsTrue, Some, reverse};
ghost use Rattle.cip_world.specs.Journals.{Flight, event_of, frame_at};

use crate::views::TakenTurn;
use cip_routing::{Body, Command, Event, Output};
use cip_world::{Entry, FrameName, Input, Outputs, frame_at};

/// Whether two commands are one.
pub(crate) fn is_same_command(left: &Command, right: &Command) -> bool
    ensures { IsTrue result → left.now ≡ right.now }
{
    left == right
}

fn is_same_body(left: &Body, right: &Body) -> bool
    ensures { IsTrue result → left.now ≡ right.now }
{
    left == right
}

fn is_same_output(left: &Output, right: &Output) -> bool
    ensures { IsTrue result → left.now ≡ right.now }
{
    left == right
}

fn are_same_outputs(left: &[Output], right: &[Output]) -> bool
    ensures { IsTrue result → left.now ≡ right.now }
{
    if left.len() != right.len() {
        return false;
    }
    for i in 0..left.len() {
        if !is_same_output(&left[i], &right[i]) {
            return false;
        }
    }
    true
}

// Whether the frame of a name holds this body.
fn is_body_of(before: &[Entry], name: FrameName, body: &Body) -> bool
    ensures { IsTrue result → (x : Flight)
        × (frame_at (reverse before.now) name ≡ Some x) × (x.body ≡ body.now) }
{
    match frame_at(before, name) {
        Some(flying) => is_same_body(flying.body, body),
        None => false,
    }
}

// Whether an input is this event, after the entries before it.
fn is_event_of(before: &[Entry], input: &Input, event: &Event) -> bool
    ensures { IsTrue result → event_of (reverse before.now) input.now ≡ Some event.now }
{
    match (input, event) {
        (Input::Command(one), Event::Command(other)) => is_same_command(one, other),
        (Input::Tick(one), Event::Tick(other)) => *one == *other,
        (
            Input::Frame { port, from, name },
            Event::Frame {
                port: other_port,
                from: other_from,
                body,
            },
        ) => *port == *other_port && from == other_from && is_body_of(before, *name, body),
        _ => false,
    }
}

/// Whether an entry after these is this step.
pub(crate) fn is_step_of(
    before: &[Entry],
    input: &Input,
    outputs: &Outputs,
    done: &TakenTurn,
) -> bool
    ensures event { IsTrue result
        → event_of (reverse before.now) input.now ≡ Some done.now.event }
    ensures outputs { IsTrue result → outputs.now ≡ done.now.outputs }
{
    is_event_of(before, input, &done.event)
        && are_same_outputs(outputs.as_slice(), done.outputs.as_slice())
}
