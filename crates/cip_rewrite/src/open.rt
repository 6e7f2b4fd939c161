//! An open that goes on.
ghost use Rattle.std.specs.Prelude.{◌≡◌, ◌+◌, ◌≤◌, ℕ, Bool, length, slice_index};
ghost use Rattle.std.specs.Vec.{vec_capacity};
ghost use Rattle.cip_segment.specs.Reading.{HopAt};
ghost use Rattle.cip_message.specs.Manager.{manager_bytes};
ghost use Rattle.cip_open.specs.Kinds.{open_service as service_of};
ghost use Rattle.cip_open.specs.Kinds.{open_fixed_part as fixed_part_of};
ghost use Rattle.cip_open.specs.Open.{Open, open_layout};
ghost use Rattle.cip_open.specs.GoesOn.{lowered, open_on, IsOpenGoingOn};

use crate::going::shorten;
use byteorder::{ByteOrder, LittleEndian};
use cip_message::{MANAGER_HEADER, data_place};
use cip_open::{
    LARGE_FORWARD_OPEN, OPEN_RESERVED, OPEN_TICKS, OPEN_TO_ID, open_fixed_part, words_place,
};

// Whether an open is large, by its service.
fn is_large(message: &[u8]) -> bool
    requires { 1 ≤ length message.now }
    ensures { (large : Bool) → slice_index message.now 0 ≡ service_of large → result ≡ large }
{
    message[0] == LARGE_FORWARD_OPEN
}

// The fixed part as it goes on, before a path of so many words.
fn edit_forwarded(message: &mut [u8], large: bool, down_id: u32, words: u8)
    requires fixed { MANAGER_HEADER + fixed_part_of large ≤ length message.old }
    requires ticks { 1 ≤ slice_index message.old (MANAGER_HEADER + OPEN_TICKS) }
    ensures { (s x y z w : ℕ) (o : Open)
        → message.old ≡ manager_bytes s (open_layout large x y z w o)
        → message.new ≡ manager_bytes s (open_layout large 0 0 0 words (lowered o down_id o.path)) }
{
    message[MANAGER_HEADER + OPEN_TICKS] -= 1;
    LittleEndian::write_u32(&mut message[MANAGER_HEADER + OPEN_TO_ID..], down_id);
    message[MANAGER_HEADER + OPEN_RESERVED] = 0;
    message[MANAGER_HEADER + OPEN_RESERVED + 1] = 0;
    message[MANAGER_HEADER + OPEN_RESERVED + 2] = 0;
    message[MANAGER_HEADER + words_place(large)] = words;
}

/// A Forward_Open or Large_Forward_Open as it goes on, in the buffer in which it came: the header
/// of a request to the Connection Manager, one time-out tick less, `down_id` as T→O network
/// connection id, reserved bytes 00, and what is left of the path behind its first hop (Volume 1,
/// chapter 3, Forward_Open and Large_Forward_Open).
///
/// The condition is that the bytes are one of the two to the Connection Manager, in any spelling of
/// the request's path and with an attribute or without, with at least one tick and a path that
/// begins with a hop. It takes no memory.
pub fn forward_open_bytes(bytes: &mut Vec<u8>, down_id: u32)
    requires { (o : Open) × (hop : HopAt) × IsOpenGoingOn bytes.old.items o hop
        × (1 ≤ o.fields.timing.ticks) }
    ensures items { (o : Open) (hop : HopAt) → IsOpenGoingOn bytes.old.items o hop
        → bytes.new.items ≡ open_on o down_id hop.rest }
    ensures room { vec_capacity bytes.new ≡ vec_capacity bytes.old }
{
    let large = is_large(bytes);
    let start = data_place(bytes);
    let words = shorten(bytes, start, open_fixed_part(large));
    edit_forwarded(bytes, large, down_id, words);
}
