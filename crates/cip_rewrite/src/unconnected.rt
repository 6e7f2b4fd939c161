//! An Unconnected_Send that goes on, and the request that it carries.
ghost use Rattle.std.specs.Prelude.{◌≡◌, ◌+◌, ◌≤◌, ◌<◌, ◌%◌, ℕ, ◌∷◌, ◌++◌, length, drop};
ghost use Rattle.std.specs.Prelude.{slice_index};
ghost use Rattle.std.specs.Vec.{vec_capacity};
ghost use Rattle.cip_base.specs.Fields.{pad};
ghost use Rattle.cip_base.specs.Words.{Octets};
ghost use Rattle.cip_segment.specs.Reading.{HopAt};
ghost use Rattle.cip_message.specs.Manager.{manager_bytes};
ghost use Rattle.cip_message.specs.Numbers.{word_in};
ghost use Rattle.cip_unconnected.specs.Unconnected.{Unconnected, unconnected_layout};
ghost use Rattle.cip_unconnected.specs.Unconnected.{unconnected_bytes};
ghost use Rattle.cip_unconnected.specs.GoesOn.{lowered, IsSendGoingOn};

use crate::going::{move_forward, shorten};
use cip_message::{MANAGER_HEADER, data_place};
use cip_unconnected::{UNCONNECTED_REQUEST, UNCONNECTED_TICKS, request_size};

// The size of the embedded request, where the data begins at `start`.
fn embedded_size(bytes: &[u8], start: usize) -> usize
    requires { start + UNCONNECTED_REQUEST ≤ length bytes.now }
    ensures { result ≡ word_in (drop start bytes.now) 2 }
{
    request_size(&bytes[start..])
}

// What stands between an embedded request of so many bytes and a route of so many words.
fn lower_end(end: &mut [u8], size: usize, words: u8)
    requires { 2 + size % 2 ≤ length end.old }
    ensures { (padding route : Octets) (w x : ℕ) → length padding ≡ size % 2
        → end.old ≡ padding ++ (w ∷ x ∷ route) → end.new ≡ pad size ++ (words ∷ 0 ∷ route) }
{
    if size % 2 == 1 {
        end[0] = 0;
        end[1] = words;
        end[2] = 0;
    } else {
        end[0] = words;
        end[1] = 0;
    }
}

// All before the route as it goes on, around a request of so many bytes and before a route of so
// many words.
fn edit_forwarded(message: &mut [u8], size: usize, words: u8)
    requires whole { MANAGER_HEADER + UNCONNECTED_REQUEST + size + size % 2 + 2
        ≤ length message.old }
    requires ticks { 1 ≤ slice_index message.old (MANAGER_HEADER + UNCONNECTED_TICKS) }
    ensures { (s w x : ℕ) (padding : Octets) (u : Unconnected) → length u.request ≡ size
        → length padding ≡ size % 2
        → message.old ≡ manager_bytes s (unconnected_layout padding w x u)
        → message.new ≡ manager_bytes s (unconnected_layout (pad size) words 0
        (lowered u u.route)) }
{
    message[MANAGER_HEADER + UNCONNECTED_TICKS] -= 1;
    lower_end(
        &mut message[MANAGER_HEADER + UNCONNECTED_REQUEST + size..],
        size,
        words,
    );
}

/// An Unconnected_Send as it goes on, in the buffer in which it came: the header of a request to
/// the Connection Manager, one time-out tick less, the pad and the reserved byte 00, and what is
/// left of the route behind its first hop (Volume 1, chapter 3, Unconnected_Send).
///
/// The condition is that the bytes are an Unconnected_Send to the Connection Manager, in any
/// spelling of the request's path and with an attribute or without, with at least one tick and a
/// route that begins with a hop and has words behind it. It takes no memory.
pub fn forward_unconnected_bytes(bytes: &mut Vec<u8>)
    requires { (u : Unconnected) × (hop : HopAt) × IsSendGoingOn bytes.old.items u hop
        × (1 ≤ u.timing.ticks) × (0 < length hop.rest) }
    ensures items { (u : Unconnected) (hop : HopAt) → IsSendGoingOn bytes.old.items u hop
        → bytes.new.items ≡ unconnected_bytes (lowered u hop.rest) }
    ensures room { vec_capacity bytes.new ≡ vec_capacity bytes.old }
{
    let start = data_place(bytes);
    let size = embedded_size(bytes, start);
    let words = shorten(bytes, start, UNCONNECTED_REQUEST + size + size % 2 + 2);
    edit_forwarded(bytes, size, words);
}

/// The request that an Unconnected_Send carries, its bytes as they stand, in the buffer in which
/// the Unconnected_Send came (Volume 1, chapter 3, Unconnected_Send).
///
/// The condition is that the bytes are an Unconnected_Send to the Connection Manager, in any
/// spelling of the request's path and with an attribute or without, with a route that is one hop
/// and nothing else. It takes no memory.
pub fn unwrap_bytes(bytes: &mut Vec<u8>)
    requires { (u : Unconnected) × (hop : HopAt) × IsSendGoingOn bytes.old.items u hop
        × (length hop.rest ≡ 0) }
    ensures items { (u : Unconnected) (hop : HopAt) → IsSendGoingOn bytes.old.items u hop
        → bytes.new.items ≡ u.request }
    ensures room { vec_capacity bytes.new ≡ vec_capacity bytes.old }
{
    let start = data_place(bytes);
    let size = embedded_size(bytes, start);
    move_forward(bytes, start + UNCONNECTED_REQUEST, size, 0);
    bytes.truncate(size);
}
