//! The data of Unconnected_Send, read and written.
ghost use Rattle.std.specs.Prelude.{◌≡◌, ◌+◌, ◌<◌, ◌≤◌, ◌↔◌, true, length, IfOk, IsErrOf, IfSome};
ghost use Rattle.std.specs.Prelude.{IsNone, take, drop};
ghost use Rattle.cip_message.specs.Gives.{Gives};
ghost use Rattle.cip_message.specs.Exact.{IsRead};
ghost use Rattle.cip_message.specs.Numbers.{word_in};
ghost use Rattle.cip_unconnected.specs.Unconnected.{ReadsUnconnected, IsUnconnectedFault};
ghost use Rattle.cip_unconnected.specs.Unconnected.{is_too_long, unconnected_with};
ghost use Rattle.cip_unconnected.specs.UnconnectedAt.{route_place, unconnected_at, route_words_of};
ghost use Rattle.cip_unconnected.specs.Reading.{unconnected_of, sent_along};

use crate::fault::UnconnectedFault;
use cip_base::{Bytes, MAX_EMBEDDED, MAX_MESSAGE, Timing, put_word};
use cip_message::{DataFault, WriteFault, counted_path, put_manager_header, word_at};
use cip_segment::PathView;
use std::alloc::{AllocError, Global};

/// The service Unconnected_Send of the Connection Manager.
pub const UNCONNECTED_SEND: u8 = 0x52;
/// Where the time-out ticks stand in its data.
pub const UNCONNECTED_TICKS: usize = 1;
/// Where the size of the embedded request stands in its data.
pub const UNCONNECTED_SIZE: usize = 2;
/// Where the embedded request begins in its data.
pub const UNCONNECTED_REQUEST: usize = 4;

/// The data of an Unconnected_Send whose embedded request and route are borrowed
/// (Volume 1, chapter 3, Unconnected_Send).
#[derive(Clone, Copy)]
pub struct UnconnectedView<'a> {
    /// Priority/time tick and time-out ticks.
    pub timing: Timing,
    /// The bytes of the embedded request, without its pad.
    pub request: &'a [u8],
    /// The route that the embedded request takes.
    pub route: PathView<'a>,
}

/// The size in bytes of the embedded request, in the data of an Unconnected_Send.
pub fn request_size(data_: &[u8]) -> usize
    requires { UNCONNECTED_REQUEST ≤ length data_.now }
    ensures size { result ≡ word_in data_.now 2 }
    ensures fits { result ≤ MAX_EMBEDDED }
{
    usize::from(word_at(data_, UNCONNECTED_SIZE))
}

// Where the route size stands; None where the size of the embedded request is missing.
fn size_place(data_: &[u8]) -> Option<usize>
    ensures none { IsNone result ↔ (length data_.now < 4) }
    ensures some { IfSome result (λ at. at ≡ route_place data_.now) }
{
    if data_.len() < UNCONNECTED_REQUEST {
        return None;
    }
    let size = request_size(data_);
    Some(UNCONNECTED_REQUEST + (size + size % 2))
}

// The embedded request, which is whole.
fn embedded(data_: &[u8]) -> &[u8]
    requires { 4 + word_in data_.now 2 ≤ length data_.now }
    ensures request { result.now ≡ take (word_in data_.now 2) (drop 4 data_.now) }
    ensures fits { length result.now ≤ MAX_EMBEDDED }
{
    let size = request_size(data_);
    &data_[UNCONNECTED_REQUEST..][..size]
}

#[tactic(auto, unfolding(crate::specs::UnconnectedAt::unconnected_at))]
#[inline(always)]
fn unconnected(data_: &[u8]) -> Result<UnconnectedView<'_>, UnconnectedFault>
    ensures gives { Gives unconnected_of result (unconnected_at data_.now) }
    ensures fits { IfOk result (λ view. length view.request.now ≤ MAX_EMBEDDED) }
{
    let Some(place) = size_place(data_) else {
        return Err(UnconnectedFault::Short);
    };
    match counted_path(data_, place, place + 2) {
        Ok(route) => Ok(UnconnectedView {
            timing: Timing {
                tick: data_[0],
                ticks: data_[UNCONNECTED_TICKS],
            },
            request: embedded(data_),
            route,
        }),
        Err(DataFault::Short) => Err(UnconnectedFault::Short),
        Err(DataFault::Long) => Err(UnconnectedFault::Long),
        Err(DataFault::Path(fault)) => Err(UnconnectedFault::Route(fault)),
    }
}

/// The Unconnected_Send that the data is, all of it; the data is what follows the path of the
/// request (Volume 1, chapter 3, Unconnected_Send). The pad and the reserved byte have any value.
/// It takes no memory.
///
/// Otherwise the first that fits: Short where bytes are missing, Long where bytes stand after the
/// route, Route of the route's fault.
#[inline(always)]
pub fn read_unconnected(data_: &[u8]) -> Result<UnconnectedView<'_>, UnconnectedFault>
    ensures read { IsRead unconnected_of unconnected_at ReadsUnconnected IsUnconnectedFault
        data_.now result }
    ensures fits { IfOk result (λ view. length view.request.now ≤ MAX_EMBEDDED) }
{
    unconnected(data_)
}

/// The embedded request's bytes.
pub fn inner<'a>(view: &UnconnectedView<'a>) -> &'a [u8]
    ensures { result.now ≡ view.now.request.now }
{
    view.request
}

/// The route size of the data of an Unconnected_Send, in words; None exactly where that byte is
/// missing. The data may be cut after it.
pub fn route_words(data_: &[u8]) -> Option<u8>
    ensures { result ≡ route_words_of data_.now }
{
    match size_place(data_) {
        Some(place) => data_.get(place).copied(),
        None => None,
    }
}

fn joined(
    alloc: Global,
    timing: Timing,
    request: &[u8],
    route: PathView<'_>,
) -> Result<Vec<u8>, AllocError>
    requires { length request.now ≤ MAX_EMBEDDED }
    ensures { IfOk result (λ v. v.items ≡ sent_along timing request.now route.entry) }
{
    let mut bytes = Vec::with_capacity(alloc, 13 + request.len() + route.bytes.len())?;
    put_manager_header(&mut bytes, UNCONNECTED_SEND)?;
    bytes.push(timing.tick)?;
    bytes.push(timing.ticks)?;
    put_word(&mut bytes, request.len() as u16)?;
    bytes.extend_from_slice(request)?;
    if request.len() % 2 == 1 {
        bytes.push(0)?;
    }
    bytes.push(route.words())?;
    bytes.push(0)?;
    bytes.extend_from_slice(route.bytes)?;
    Ok(bytes)
}

/// The whole message of an Unconnected_Send to the Connection Manager: header, priority/time tick,
/// time-out ticks, size of the embedded request in bytes, that request, a pad 00 where its size is
/// odd, route size in 16-bit words, a reserved 00, route (Volume 1, chapter 3, Unconnected_Send).
///
/// TooLong past 65,535 bytes of the embedded request or 66,000 bytes in all, NoMemory where an
/// allocation is refused.
pub fn write_unconnected(
    alloc: Global,
    timing: Timing,
    request: &[u8],
    route: PathView<'_>,
) -> Result<Bytes, WriteFault>
    ensures ok { IfOk result (λ b. b ≡ sent_along timing request.now route.entry) }
    ensures too_long { IsErrOf result WriteFault.TooLong
        ↔ (is_too_long (unconnected_with timing request.now route.entry.bytes.now) ≡ true) }
{
    // All but the embedded request and its pad.
    let others = 12 + route.bytes.len();
    let pad = request.len() % 2;
    if request.len() > MAX_EMBEDDED || request.len() > MAX_MESSAGE - others - pad {
        return Err(WriteFault::TooLong);
    }
    match joined(alloc, timing, request, route) {
        Ok(bytes) => Ok(Bytes::of(bytes)),
        Err(_) => Err(WriteFault::NoMemory),
    }
}
