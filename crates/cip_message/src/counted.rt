//! What stands at the end of the data of a Connection Manager service.
ghost use Rattle.std.specs.Prelude.{◌<◌, ◌≤◌, length, OnOk};
ghost use Rattle.cip_message.specs.Gives.{Gives};
ghost use Rattle.cip_message.specs.Counted.{counted_at, counted_path_at};

use crate::fault::DataFault;
use cip_segment::{PathView, view_path};

/// The bytes from place `start` to the end, which are as many words as the byte at place `size`
/// says: Short where bytes are missing, Long where there are more.
#[tactic(auto, unfolding(crate::specs::Counted::counted_at))]
pub fn counted_part(bytes: &[u8], size: usize, start: usize) -> Result<&[u8], DataFault>
    requires { size < start }
    ensures fits { OnOk result (start ≤ length bytes.now) }
    ensures gives { Gives (λ part. part.now) result (counted_at size start bytes.now) }
{
    if bytes.len() < start {
        return Err(DataFault::Short);
    }
    let part = &bytes[start..];
    let len = 2 * usize::from(bytes[size]);
    if part.len() < len {
        return Err(DataFault::Short);
    }
    if part.len() > len {
        return Err(DataFault::Long);
    }
    Ok(part)
}

/// The path from place `start` to the end, as many words as the byte at place `size` says: Short
/// where bytes are missing, Long where there are more, Path of the path's fault.
#[tactic(auto, unfolding(crate::specs::Counted::counted_path_at))]
pub fn counted_path(bytes: &[u8], size: usize, start: usize) -> Result<PathView<'_>, DataFault>
    requires { size < start }
    ensures fits { OnOk result (start ≤ length bytes.now) }
    ensures gives { Gives (λ path. path.bytes.now) result (counted_path_at size start bytes.now) }
{
    match view_path(counted_part(bytes, size, start)?) {
        Ok(path) => Ok(path),
        Err(fault) => Err(DataFault::Path(fault)),
    }
}
