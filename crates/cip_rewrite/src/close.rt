//! A Forward_Close that goes on.
ghost use Rattle.std.specs.Prelude.{◌≡◌, ◌+◌, ◌≤◌, ℕ, length, slice_index};
ghost use Rattle.std.specs.Vec.{vec_capacity};
ghost use Rattle.cip_segment.specs.Reading.{HopAt};
ghost use Rattle.cip_message.specs.Manager.{manager_bytes};
ghost use Rattle.cip_close.specs.Close.{Close, close_layout};
ghost use Rattle.cip_close.specs.GoesOn.{lowered, close_on, IsCloseGoingOn};

use crate::going::shorten;
use cip_close::{CLOSE_FIXED_PART, CLOSE_RESERVED, CLOSE_TICKS, CLOSE_WORDS};
use cip_message::{MANAGER_HEADER, data_place};

// The fixed part as it goes on, before a path of so many words.
fn edit_forwarded(message: &mut [u8], words: u8)
    requires fixed { MANAGER_HEADER + CLOSE_FIXED_PART ≤ length message.old }
    requires ticks { 1 ≤ slice_index message.old (MANAGER_HEADER + CLOSE_TICKS) }
    ensures { (s w x : ℕ) (c : Close) → message.old ≡ manager_bytes s (close_layout w x c)
        → message.new ≡ manager_bytes s (close_layout words 0 (lowered c c.path)) }
{
    message[MANAGER_HEADER + CLOSE_TICKS] -= 1;
    message[MANAGER_HEADER + CLOSE_WORDS] = words;
    message[MANAGER_HEADER + CLOSE_RESERVED] = 0;
}

/// A Forward_Close as it goes on, in the buffer in which it came: the header of a request to the
/// Connection Manager, one time-out tick less, the reserved byte 00, and what is left of the path
/// behind its first hop (Volume 1, chapter 3, Forward_Close).
///
/// The condition is that the bytes are a Forward_Close to the Connection Manager, in any spelling
/// of the request's path and with an attribute or without, with at least one tick and a path that
/// begins with a hop. It takes no memory.
pub fn forward_close_bytes(bytes: &mut Vec<u8>)
    requires { (c : Close) × (hop : HopAt) × IsCloseGoingOn bytes.old.items c hop
        × (1 ≤ c.fields.timing.ticks) }
    ensures items { (c : Close) (hop : HopAt) → IsCloseGoingOn bytes.old.items c hop
        → bytes.new.items ≡ close_on c hop.rest }
    ensures room { vec_capacity bytes.new ≡ vec_capacity bytes.old }
{
    let start = data_place(bytes);
    let words = shorten(bytes, start, CLOSE_FIXED_PART);
    edit_forwarded(bytes, words);
}
