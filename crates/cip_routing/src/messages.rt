//! What goes on and what goes up.
ghost use Rattle.std.specs.Prelude.{◌≡◌, ◌≤◌, [], length, IfOk};
ghost use Rattle.cip_unconnected.specs.Reading.{unconnected_of};
ghost use Rattle.cip_unconnected.specs.Unconnected.{Fits};
ghost use Rattle.cip_routing.specs.Effects.{reply_up};
ghost use Rattle.cip_routing.specs.Table.{message_on};

use cip_base::{Bytes, NoMemory, Timing};
use cip_event::{Body, Output};
use cip_message::WriteFault;
use cip_pending::UpSide;
use cip_segment::PathView;
use cip_unconnected::{UnconnectedView, write_unconnected};
use std::alloc::Global;

/// No bytes, in the place of those that an output gets later. It takes no memory.
pub fn no_bytes(alloc: Global) -> Bytes
    ensures { result ≡ [] }
{
    Bytes::of(Vec::new(alloc))
}

/// A reply to whom a request came from.
pub fn reply_to(up: UpSide, bytes: Bytes) -> Output
    ensures { result ≡ reply_up up bytes }
{
    match up {
        UpSide::Link {
            port,
            address,
            number,
        } => Output::Send {
            port,
            to: address,
            body: Body::Reply { number, bytes },
        },
        UpSide::Local { op } => Output::Done { op, reply: bytes },
    }
}

/// What goes on of an Unconnected_Send: the embedded request itself where no path is left, else an
/// Unconnected_Send with what is left of its route and one tick less (Volume 1, chapter 3,
/// Unconnected_Send); NoMemory where an allocation is refused. The message fits as it came, what is
/// left is no longer than its route, and it has two ticks at least.
pub fn message_anew(
    alloc: Global,
    view: UnconnectedView<'_>,
    rest: PathView<'_>,
) -> Result<Bytes, NoMemory>
    requires fits { Fits (unconnected_of view) }
    requires shorter { length rest.bytes.now ≤ length view.route.bytes.now }
    requires ticks { 2 ≤ view.timing.ticks }
    ensures { IfOk result (λ b. b ≡ message_on (unconnected_of view.entry) rest.entry.bytes.now) }
{
    if rest.bytes.is_empty() {
        return Ok(Bytes::of(Vec::from_slice(alloc, view.request)?));
    }
    let timing = Timing {
        tick: view.timing.tick,
        ticks: view.timing.ticks - 1,
    };
    match write_unconnected(alloc, timing, view.request, rest) {
        Ok(message) => Ok(message),
        Err(WriteFault::NoMemory) => Err(NoMemory),
        Err(WriteFault::TooLong) => unreachable!(),
    }
}
