//! What goes on of a datum, and what an end writes of it.
ghost use Rattle.std.specs.Prelude.{◌≡◌, drop};
ghost use Rattle.cip_message.specs.Numbers.{word_in};
ghost use Rattle.cip_routing.specs.Effects.{datum_up, datum_down};
ghost use Rattle.cip_routing.specs.DataRows.{end_row};
ghost use Rattle.cip_routing.specs.Code.Plans.{writing_row};

use cip_base::Bytes;
use cip_event::{Body, Output};
use cip_hops::{Hop, HopDown, HopUp};

/// A datum by the up side of a connection.
pub fn datum_up(hop: &Hop, bytes: Bytes) -> Output
    ensures { result ≡ datum_up hop.now.opening.up bytes }
{
    match &hop.opening.up {
        HopUp::Link {
            port,
            address,
            their_id,
        } => Output::Send {
            port: *port,
            to: address.copy(),
            body: Body::Data {
                id: *their_id,
                bytes,
            },
        },
        HopUp::Local { op } => Output::Arrived { op: *op, bytes },
    }
}

/// A datum by the down side of a connection.
pub fn datum_down(hop: &Hop, bytes: Bytes) -> Output
    ensures { result ≡ datum_down hop.now hop.now.opening.down bytes }
{
    match &hop.opening.down {
        HopDown::Link { port, address } => Output::Send {
            port: *port,
            to: address.copy(),
            body: Body::Data {
                id: hop.their_id.unwrap_or(0),
                bytes,
            },
        },
        HopDown::End { consume, .. } => Output::Consumed {
            triad: hop.opening.triad,
            instance: *consume,
            bytes,
        },
    }
}

/// What an end writes of a datum: to which assembly, and the sequence count that it begins with in
/// class 1.
#[derive(Clone, Copy)]
pub struct Writing {
    pub instance: u32,
    pub count: Option<u16>,
}

// The sequence count that a datum begins with.
fn count_of(bytes: &[u8]) -> u16
    ensures { result ≡ word_in bytes.now 0 }
{
    match bytes {
        [low, high, ..] => u16::from(*low) + 256 * u16::from(*high),
        [low] => u16::from(*low),
        [] => 0,
    }
}

/// What stands behind the sequence count of a datum: nothing where it has less than two bytes.
pub fn behind_count(bytes: &[u8]) -> &[u8]
    ensures { result.now ≡ drop 2 bytes.entry.now }
{
    match bytes {
        [_, _, rest @ ..] => rest,
        _ => &[],
    }
}

/// What an end writes of a datum of a connection: None where its sequence count is that of the last
/// one.
pub fn written_of(hop: &Hop, instance: u32, bytes: &[u8]) -> Option<Writing>
    ensures { writing_row hop.now.opening.triad bytes.now result
        ≡ end_row hop.now instance bytes.now }
{
    if hop.opening.class != 1 {
        return Some(Writing {
            instance,
            count: None,
        });
    }
    let count = count_of(bytes);
    if hop.consumed == Some(count) {
        None
    } else {
        Some(Writing {
            instance,
            count: Some(count),
        })
    }
}
