//! Who answered what was asked for.

use crate::outcomes::Code;
use crate::refusals::assembly_size;
use cip_base::{Excerpt, ModuleId};
use cip_chassis::Topology;
use cip_message::read_request;
use cip_open::{FORWARD_OPEN, LARGE_FORWARD_OPEN, OpenView, open_params, read_open_of};
use cip_routing::{Body, Output};
use cip_segment::{PathView, SegmentView, split_first};
use cip_world::{Entry, Input, World, frame_at};
use std::fmt;

/// How a module answered.
#[derive(Clone, Copy)]
pub enum How {
    Answered,
    Refused,
    TimedOut,
}

/// The sizes in bytes of the data of each direction, O→T and T→O: those that an end wants, and
/// those that an open asks for.
#[derive(Clone, Copy)]
pub struct OpenSizes {
    pub wanted: (usize, usize),
    pub asked: (usize, usize),
}

/// Who answered, and how.
#[derive(Drop)]
pub enum Answer {
    /// There is no answer.
    Missing,
    Of {
        by: Excerpt,
        how: How,
        /// With which status, where that was not told before.
        code: Option<Code>,
        /// Of a size that was refused.
        sizes: Option<OpenSizes>,
    },
}

// What a module did with what was asked for.
#[derive(Clone, Copy)]
struct Deed<'a> {
    by: &'a Excerpt,
    how: How,
}

impl fmt::Display for Deed<'_> {
    fn fmt<W: fmt::Write>(&self, f: &mut fmt::Formatter<W>) -> fmt::Result {
        let by = self.by;
        match self.how {
            How::Answered => write!(f, "{by} answered it"),
            How::Refused => write!(f, "{by} refused it"),
            How::TimedOut => write!(f, "it timed out at {by}"),
        }
    }
}

// The status behind a deed, where one is told.
#[derive(Clone, Copy)]
struct WithCode(Option<Code>);

impl fmt::Display for WithCode {
    fn fmt<W: fmt::Write>(&self, f: &mut fmt::Formatter<W>) -> fmt::Result {
        match self.0 {
            Some(code) => write!(f, " with {code}"),
            None => Ok(()),
        }
    }
}

// The sizes behind a status, where they are told.
#[derive(Clone, Copy)]
struct WithSizes(Option<OpenSizes>);

impl fmt::Display for WithSizes {
    fn fmt<W: fmt::Write>(&self, f: &mut fmt::Formatter<W>) -> fmt::Result {
        match self.0 {
            Some(OpenSizes { wanted, asked }) => write!(
                f,
                ": sizes {} O to T and {} T to O are wanted, and {} and {} were asked for",
                wanted.0, wanted.1, asked.0, asked.1
            ),
            None => Ok(()),
        }
    }
}

impl fmt::Display for Answer {
    fn fmt<W: fmt::Write>(&self, f: &mut fmt::Formatter<W>) -> fmt::Result {
        match self {
            Answer::Missing => Ok(()),
            Answer::Of {
                by,
                how,
                code,
                sizes,
            } => {
                let deed = Deed { by, how: *how };
                write!(f, "; {deed}{}{}", WithCode(*code), WithSizes(*sizes))
            }
        }
    }
}

// Whether the op of this number is done by these outputs.
fn has_done(outputs: &[Output], number: u32) -> bool {
    for output in outputs {
        if let Output::Done { op, .. } = output {
            if *op == number {
                return true;
            }
        }
    }
    false
}

// The entry in which an op of a module is done.
fn done_place(journal: &[Entry], at: ModuleId, number: u32) -> Option<usize> {
    for (place, entry) in journal.iter().enumerate().rev() {
        if let Entry::Step {
            at: own,
            outputs,
            ..
        } = entry
        {
            if *own == at && has_done(outputs.as_slice(), number) {
                return Some(place);
            }
        }
    }
    None
}

// The entry that sent the reply which came in this one.
fn sender_of(journal: &[Entry], place: usize) -> Option<usize> {
    let Some(
        Entry::Step {
            input: Input::Frame { name, .. },
            ..
        },
    ) = journal.get(place)
    else {
        return None;
    };
    let Some(flying) = frame_at(journal, *name) else {
        return None;
    };
    match flying.body {
        Body::Reply { .. } => Some(name.entry),
        _ => None,
    }
}

// The entry in which the reply was made that came back in this one.
fn origin_of(journal: &[Entry], place: usize) -> usize {
    let mut place = place;
    for _ in 0..journal.len() {
        match sender_of(journal, place) {
            Some(sender) => place = sender,
            None => return place,
        }
    }
    place
}

// The O→T and T→O instances that the path of an open names: the points behind the configuration.
fn points_of(path: PathView<'_>) -> Option<(u32, u32)> {
    let mut left = path;
    let mut seen = 0u8;
    let mut consume = None;
    for _ in 0..path.bytes.len() {
        let Some((first, rest)) = split_first(left) else {
            return None;
        };
        left = rest;
        let number = match first {
            SegmentView::Instance(number) => number,
            SegmentView::Point(number) => number,
            _ => continue,
        };
        match (seen, consume) {
            (0, _) => seen = 1,
            (_, None) => consume = Some(number),
            (_, Some(consume)) => return Some((consume, number)),
        }
    }
    None
}

// The sizes that an end wants for an open, and those that it asks for.
fn sizes_at(topology: &Topology, at: ModuleId, open: OpenView<'_>) -> Option<OpenSizes> {
    let (consume, produce) = points_of(open.path)?;
    let fields = open.fields;
    let count = if fields.transport & 0x0F == 1 { 2 } else { 0 };
    let ot = assembly_size(topology, at, consume)?.saturating_add(count);
    let to = assembly_size(topology, at, produce)?.saturating_add(count);
    let ot_asked = open_params(fields.large, fields.ot_params).size;
    let to_asked = open_params(fields.large, fields.to_params).size;
    Some(OpenSizes {
        wanted: (ot, to),
        asked: (usize::from(ot_asked), usize::from(to_asked)),
    })
}

// The request that came in an entry of a module, where it is an open: the sizes of its data.
fn sizes_in(world: &World, at: ModuleId, input: &Input) -> Option<OpenSizes> {
    let Input::Frame { name, .. } = input else {
        return None;
    };
    let Some(flying) = frame_at(world.journal(), *name) else {
        return None;
    };
    let Body::Request { bytes, .. } = flying.body else {
        return None;
    };
    let request = read_request(bytes.as_slice()).ok()?;
    if request.service != FORWARD_OPEN && request.service != LARGE_FORWARD_OPEN {
        return None;
    }
    let open = read_open_of(request.service == LARGE_FORWARD_OPEN, request.data_).ok()?;
    sizes_at(world.topology(), at, open)
}

// Whether a status says that a size is wrong.
fn is_of_size(code: Code) -> bool {
    code.general == 0x01 && code.additional == Some(0x0109)
}

fn how_of(input: &Input, code: Code) -> How {
    match input {
        Input::Tick(_) => How::TimedOut,
        _ if code.general == 0 => How::Answered,
        _ => How::Refused,
    }
}

/// Who answered an op of a module, which is done with this status. The status is told too, where
/// that is asked for.
pub fn answer_of(world: &World, at: ModuleId, number: u32, code: Code, is_told: bool) -> Answer {
    let journal = world.journal();
    let Some(done) = done_place(journal, at, number) else {
        return Answer::Missing;
    };
    let Some(Entry::Step { at: by, input, .. }) = journal.get(origin_of(journal, done)) else {
        return Answer::Missing;
    };
    let sizes = if is_of_size(code) {
        sizes_in(world, *by, input)
    } else {
        None
    };
    Answer::Of {
        by: Excerpt::of(world.topology().name_of(*by).unwrap_or(&[])),
        how: how_of(input, code),
        code: if is_told { Some(code) } else { None },
        sizes,
    }
}
