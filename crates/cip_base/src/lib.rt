//! The small values that every layer shares: link addresses, port numbers, connection triads,
//! times, statuses, electronic keys, lists of bytes, beginnings of texts, and the limits of a
//! chassis.
#![tactic(auto)]

ghost use Rattle.std.specs.Borrow.{ffalse};

use std::alloc::{AllocError, Allocator};

mod address;
mod bytes;
mod counts;
mod excerpt;
mod fields;
mod index;
mod key;
mod laws;
mod limits;
mod memory;
mod numbers;
mod row;
mod timing;
mod triad;

pub use address::{Address, AddressFault};
pub use bytes::Bytes;
pub use counts::{count_of, counts_given, incarnation, reborn};
pub use excerpt::Excerpt;
pub use fields::{put_double, put_word};
pub use index::NumberIndex;
pub use key::KeyFields;
pub use laws::{counts_rise_under_incarnations, triad_order, triads_are_ordered};
pub use limits::{
    COUNTS, LAST_COUNT, LAST_INCARNATION, MAX_ADDRESS, MAX_ASSEMBLIES, MAX_DATUM, MAX_EMBEDDED,
    MAX_HOPS, MAX_MESSAGE, MAX_PATH, MAX_PENDINGS, MAX_PORTS,
};
pub use memory::NoMemory;
pub use numbers::{ModuleId, Ms, PortNumber};
pub use row::Row;
pub use timing::{Status, Timing};
pub use triad::Triad;

/// No memory at all: what stands on it has to lie in the value itself.
#[derive(Clone, Copy)]
pub struct NoHeap;

// Safe since no pointer is ever given out: `allocate` always refuses.
unsafe impl Allocator for NoHeap {
    ghost dealloc_token = { λ _ _ _. ffalse };

    fn allocate(&self, _size: usize, _align: usize) -> Result<*mut u8, AllocError> {
        Err(AllocError)
    }

    unsafe fn deallocate(&self, _ptr: *mut u8, _size: usize, _align: usize) {}

    unsafe fn grow<T>(
        &self,
        _ptr: *mut T,
        _len: usize,
        _old_cap: usize,
        _new_cap: usize,
    ) -> Result<*mut T, AllocError> {
        Err(AllocError)
    }

    unsafe fn shrink<T>(
        &self,
        _ptr: *mut T,
        _len: usize,
        _old_cap: usize,
        _new_cap: usize,
    ) -> Result<*mut T, AllocError> {
        Err(AllocError)
    }
}
