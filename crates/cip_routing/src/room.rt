//! The room of what goes on: a buffer that came with far more room than bytes is not handed on, so
//! that who keeps the outputs keeps little more than their bytes.
ghost use Rattle.std.specs.Prelude.{◌≡◌, ◌↔◌, ◌+◌, ◌*◌, ◌<◌, IfErr, IfOk, IsTrue};
ghost use Rattle.std.specs.Vec.{vec_capacity, vec_len};

use cip_base::Bytes;
use std::alloc::Global;

// What a buffer may have of room beyond twice its length.
const SPARE: usize = 16;

// Whether a buffer has far more room than bytes.
fn is_roomy(items: &Vec<u8>) -> bool
    ensures { IsTrue result ↔ (2 * vec_len items.now + 16 < vec_capacity items.now) }
{
    items.capacity() - items.len() > items.len() + SPARE
}

/// The bytes as they go on: in the buffer that they came in, or copied where it has far more room
/// than bytes. Where memory for the copy is refused, they come back as they came.
#[inline(always)]
pub fn fitted(alloc: Global, bytes: Bytes) -> Result<Bytes, Bytes>
    ensures ok { IfOk result (λ fitting. fitting ≡ bytes) }
    ensures back { IfErr result (λ back. back ≡ bytes) }
{
    let items = bytes.into_vec();
    if !is_roomy(&items) {
        return Ok(Bytes::of(items));
    }
    match Vec::from_slice(alloc, items.as_slice()) {
        Ok(copied) => Ok(Bytes::of(copied)),
        Err(_) => Err(Bytes::of(items)),
    }
}
