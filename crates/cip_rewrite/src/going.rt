//! What the requests that go on have in common.
ghost use Rattle.std.specs.Prelude.{◌≡◌, ◌+◌, ◌-◌, ◌/◌, ◌≤◌, ◌++◌, length, take, drop, slice_index};
ghost use Rattle.std.specs.Prelude.{Some};
ghost use Rattle.std.specs.List.{copy_within};
ghost use Rattle.std.specs.Vec.{vec_capacity};
ghost use Rattle.cip_segment.specs.Reading.{HopAt};
ghost use Rattle.cip_message.specs.Manager.{manager_bytes};
ghost use Rattle.cip_rewrite.specs.LeadsOn.{LeadsOn};

use cip_message::{MANAGER_HEADER, set_manager_header};
use cip_segment::{PathView, rest};

// How many bytes are left of the path, which begins behind `fixed` bytes of the data, behind its
// first hop.
fn left_behind(bytes: &[u8], start: usize, fixed: usize) -> usize
    requires { (hop : HopAt) × LeadsOn bytes.now start fixed hop }
    ensures { (hop : HopAt) → LeadsOn bytes.now start fixed hop → result ≡ length hop.rest }
{
    let path = PathView {
        bytes: &bytes[start + fixed..],
    };
    rest(path).bytes.len()
}

/// Brings so many bytes from one place to another before it.
pub(crate) fn move_forward(bytes: &mut [u8], from: usize, count: usize, to: usize)
    requires before { to ≤ from }
    requires within { from + count ≤ length bytes.old }
    ensures { bytes.new ≡ copy_within bytes.old from (from + count) to }
{
    if from > to {
        bytes.copy_within(from..from + count, to);
    }
}

// Brings what goes on to the front: the header, `fixed` bytes from `start`, and the last `left`
// bytes. Each byte moves once at most.
fn compact(bytes: &mut [u8], start: usize, fixed: usize, left: usize)
    requires header { MANAGER_HEADER ≤ start }
    requires within { start + fixed + left ≤ length bytes.old }
    ensures len { length bytes.new ≡ length bytes.old }
    ensures front { take (MANAGER_HEADER + fixed + left) bytes.new
        ≡ manager_bytes (slice_index bytes.old 0) (take fixed (drop start bytes.old)
        ++ drop (length bytes.old - left) bytes.old) }
{
    move_forward(bytes, start, fixed, MANAGER_HEADER);
    let rest = bytes.len() - left;
    bytes.copy_within(rest.., MANAGER_HEADER + fixed);
    set_manager_header(bytes);
}

/// Shortens a request to the Connection Manager to what goes on of it: the header, `fixed` bytes of
/// the data, which begins at `start`, and what is left of the path behind its first hop. The result
/// is how many words are left.
pub(crate) fn shorten(bytes: &mut Vec<u8>, start: usize, fixed: usize) -> u8
    requires { (hop : HopAt) × LeadsOn bytes.old.items start fixed hop }
    ensures words { (hop : HopAt) → LeadsOn bytes.old.items start fixed hop
        → result ≡ length hop.rest / 2 }
    ensures items { (hop : HopAt) → LeadsOn bytes.old.items start fixed hop
        → bytes.new.items ≡ manager_bytes (slice_index bytes.old.items 0)
        (take fixed (drop start bytes.old.items) ++ hop.rest) }
    ensures room { vec_capacity bytes.new ≡ vec_capacity bytes.old }
{
    let left = left_behind(bytes, start, fixed);
    compact(bytes, start, fixed, left);
    bytes.truncate(MANAGER_HEADER + fixed + left);
    (left / 2) as u8
}
