//! The success of an open that goes up.
ghost use Rattle.std.specs.Prelude.{◌≡◌, ◌+◌, ◌≤◌, ℕ, Bool, length};
ghost use Rattle.std.specs.Vec.{vec_capacity};
ghost use Rattle.cip_message.specs.Reply.{reply_layout, done_with};
ghost use Rattle.cip_open.specs.Success.{OpenSuccess, open_reply_layout};
ghost use Rattle.cip_open.specs.GoesOn.{with_ids, success_with, IsOpenSuccess};

use byteorder::{ByteOrder, LittleEndian};
use cip_message::{REPLY_HEADER, REPLY_RESERVED};
use cip_open::{SUCCESS_FIXED_PART, SUCCESS_OT_ID, SUCCESS_RESERVED, SUCCESS_TO_ID};

// The same reply with these ids.
fn edit_returned(message: &mut [u8], up_id: u32, their_id: u32)
    requires { REPLY_HEADER + SUCCESS_FIXED_PART ≤ length message.old }
    ensures { (service x y w : ℕ) (s : OpenSuccess)
        → message.old ≡ reply_layout x (done_with service (open_reply_layout w y s))
        → message.new ≡ reply_layout 0 (done_with service
        (open_reply_layout w 0 (with_ids s up_id their_id))) }
{
    message[REPLY_RESERVED] = 0;
    LittleEndian::write_u32(&mut message[REPLY_HEADER + SUCCESS_OT_ID..], up_id);
    LittleEndian::write_u32(&mut message[REPLY_HEADER + SUCCESS_TO_ID..], their_id);
    message[REPLY_HEADER + SUCCESS_RESERVED] = 0;
}

/// The success of an open, large or not, as it goes up, in the buffer in which it came: `up_id` as
/// O→T and `their_id` as T→O network connection id, reserved bytes 00 (Volume 1, chapter 3,
/// Forward_Open and Large_Forward_Open, successful response).
///
/// The condition is that the bytes are the reply of a successful open. It takes no memory.
pub fn success_up_bytes(bytes: &mut Vec<u8>, up_id: u32, their_id: u32)
    requires { (large : Bool) × (s : OpenSuccess) × IsOpenSuccess large bytes.old.items s }
    ensures items { (large : Bool) (s : OpenSuccess) → IsOpenSuccess large bytes.old.items s
        → bytes.new.items ≡ success_with large s up_id their_id }
    ensures room { vec_capacity bytes.new ≡ vec_capacity bytes.old }
{
    edit_returned(bytes, up_id, their_id);
}
