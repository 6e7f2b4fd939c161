//! The request Forward_Close.
ghost use Rattle.std.specs.Prelude.{◌≡◌, IfOk};
ghost use Rattle.cip_message.specs.Gives.{Gives};
ghost use Rattle.cip_message.specs.Exact.{IsRead};
ghost use Rattle.cip_close.specs.Close.{ReadsClose, IsCloseFault, close_bytes};
ghost use Rattle.cip_close.specs.CloseAt.{close_at, close_triad_of, close_words_of};
ghost use Rattle.cip_close.specs.Reading.{close_of, close_along};

use cip_base::{Bytes, NoMemory, Timing, Triad};
use cip_message::{
    DataFault, MANAGER_HEADER, counted_path, put_manager_header, put_triad, triad_at, triad_within,
};
use cip_segment::PathView;
use std::alloc::{AllocError, Global};

/// The service Forward_Close of the Connection Manager.
pub const FORWARD_CLOSE: u8 = 0x4E;
/// The service of its reply.
pub const FORWARD_CLOSE_REPLY: u8 = 0xCE;
/// The bytes of its data before the path.
pub const CLOSE_FIXED_PART: usize = 12;
/// Where the time-out ticks stand in its data.
pub const CLOSE_TICKS: usize = 1;
/// Where the path size in words stands in its data.
pub const CLOSE_WORDS: usize = 10;
/// Where its reserved byte stands in its data.
pub const CLOSE_RESERVED: usize = 11;

/// The fixed fields of Forward_Close (Volume 1, chapter 3, Forward_Close).
#[derive(Clone, Copy, Debug, PartialEq, Eq)]
pub struct CloseFields {
    /// Priority/time tick and time-out ticks.
    pub timing: Timing,
    pub triad: Triad,
}

/// The data of a Forward_Close whose path is borrowed (Volume 1, chapter 3, Forward_Close).
#[derive(Clone, Copy)]
pub struct CloseView<'a> {
    pub fields: CloseFields,
    pub path: PathView<'a>,
}

#[tactic(auto, unfolding(crate::specs::CloseAt::close_at))]
fn view(data_: &[u8]) -> Result<CloseView<'_>, DataFault>
    ensures { Gives close_of result (close_at data_.now) }
{
    match counted_path(data_, CLOSE_WORDS, CLOSE_FIXED_PART) {
        Ok(path) => Ok(CloseView {
            fields: CloseFields {
                timing: Timing {
                    tick: data_[0],
                    ticks: data_[CLOSE_TICKS],
                },
                triad: triad_at(data_, 2),
            },
            path,
        }),
        Err(fault) => Err(fault),
    }
}

/// The Forward_Close that the data is, all of it; the data is what follows the path of the request
/// (Volume 1, chapter 3, Forward_Close). The reserved byte has any value. It takes no memory.
///
/// Otherwise the first that fits: Short where bytes are missing, Long where bytes stand after the
/// path, Path of the path's fault.
pub fn read_close(data_: &[u8]) -> Result<CloseView<'_>, DataFault>
    ensures { IsRead close_of close_at ReadsClose IsCloseFault data_.now result }
{
    view(data_)
}

/// The connection triad in the data of a Forward_Close; None exactly where one of its bytes is
/// missing. The data may be cut after it.
pub fn close_triad_at(data_: &[u8]) -> Option<Triad>
    ensures { result ≡ close_triad_of data_.now }
{
    triad_within(data_, 2)
}

/// The path size in the data of a Forward_Close, in words; None exactly where that byte is missing.
/// The data may be cut after it.
pub fn close_words_at(data_: &[u8]) -> Option<u8>
    ensures { result ≡ close_words_of data_.now }
{
    data_.get(CLOSE_WORDS).copied()
}

fn joined(alloc: Global, fields: &CloseFields, path: PathView<'_>) -> Result<Vec<u8>, AllocError>
    ensures { IfOk result (λ v. v.items ≡ close_bytes (close_along fields.now path.entry)) }
{
    let mut bytes = Vec::with_capacity(
        alloc,
        MANAGER_HEADER + CLOSE_FIXED_PART + path.bytes.len(),
    )?;
    put_manager_header(&mut bytes, FORWARD_CLOSE)?;
    bytes.extend_from_slice(&[fields.timing.tick, fields.timing.ticks])?;
    put_triad(&mut bytes, fields.triad)?;
    bytes.extend_from_slice(&[path.words(), 0])?;
    bytes.extend_from_slice(path.bytes)?;
    Ok(bytes)
}

/// The whole message of a Forward_Close to the Connection Manager: header, priority/time tick,
/// time-out ticks, connection triad, path size in words, a reserved 00, path (Volume 1, chapter 3,
/// Forward_Close).
pub fn write_close(
    alloc: Global,
    fields: &CloseFields,
    path: PathView<'_>,
) -> Result<Bytes, NoMemory>
    ensures { IfOk result (λ b. b ≡ close_bytes (close_along fields.now path.entry)) }
{
    Ok(Bytes::of(joined(alloc, fields, path)?))
}
