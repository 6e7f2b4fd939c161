//! A link address.
ghost use Rattle.std.specs.Prelude.{◌≡◌, ◌<◌, ◌≤◌, ◌↔◌, length, IfOk, IsErrOf};
ghost use Rattle.std.specs.Str.{bytes_eq};
ghost use Rattle.std.specs.Cmp.{partial_equiv_from_equiv};
ghost use Rattle.std.specs.Cmp.Lexicographic.{nat_list_eq_equiv};

use crate::NoHeap;
use crate::limits::MAX_ADDRESS;
use smallvec::SmallVec;
use std::marker::Model;
use thiserror::Error;

/// The 1 to 16 bytes that name a node on a link (Volume 1, Appendix C, port segment, link address).
/// They lie in the value itself: no call takes memory.
#[derive(Debug)]
pub struct Address {
    bytes: SmallVec<u8, 16, NoHeap>,
}

// (A derive would be written, and proved, anew in each crate above.)
impl Drop for Address {
    #[inline(always)]
    fn drop(self) {
        let Address { bytes: _ } = self;
    }
}

impl Model for Address {
    ghost use Rattle.std.specs.Prelude.{List, ℕ, ◌≤◌, length};

    ghost Value = { List ℕ };

    ghost view = { λ a. a.bytes.items };

    ghost invariant = { λ a. (1 ≤ length a.bytes.items) × (length a.bytes.items ≤ 16) };
}

/// Why bytes are no link address.
#[derive(Clone, Copy, Debug, PartialEq, Eq, Error)]
pub enum AddressFault {
    #[error("a link address has at least one byte")]
    Empty,
    #[error("a link address has at most 16 bytes")]
    TooLong,
}

impl Address {
    /// The address of these bytes: Empty where there is none, TooLong where there are more than 16.
    pub fn read(bytes: &[u8]) -> Result<Address, AddressFault>
        ensures ok { IfOk result (λ a. a ≡ bytes.now) }
        ensures empty { IsErrOf result AddressFault.Empty ↔ (length bytes.now ≡ 0) }
        ensures too_long { IsErrOf result AddressFault.TooLong ↔ (16 < length bytes.now) }
    {
        if bytes.is_empty() {
            return Err(AddressFault::Empty);
        }
        if bytes.len() > MAX_ADDRESS {
            return Err(AddressFault::TooLong);
        }
        match SmallVec::from_slice(NoHeap, bytes) {
            Ok(bytes) => Ok(Address { bytes }),
            Err(_) => unreachable!(),
        }
    }

    /// The bytes, 1 to 16 of them.
    pub fn as_slice(&self) -> &[u8]
        ensures value { result.now ≡ self.now }
        ensures least { 1 ≤ length result.now }
        ensures most { length result.now ≤ 16 }
    {
        self.bytes.as_slice()
    }

    /// A copy.
    pub fn copy(&self) -> Address
        ensures { result ≡ self.now }
    {
        match SmallVec::from_slice(NoHeap, self.as_slice()) {
            Ok(bytes) => Address { bytes },
            Err(_) => unreachable!(),
        }
    }
}

impl PartialEq for Address {
    ghost eq = { bytes_eq };

    ghost laws = { partial_equiv_from_equiv nat_list_eq_equiv };

    fn eq(&self, other: &Self) -> bool {
        self.as_slice() == other.as_slice()
    }
}

impl Eq for Address {
    ghost laws = { nat_list_eq_equiv };
}
