//! A name in a topology file.
ghost use Rattle.std.specs.Prelude.{◌≡◌, ◌↔◌, IfSome, IsSome, IsTrue, ◌≤◌, length};
ghost use Rattle.std.specs.Str.{bytes_eq};
ghost use Rattle.std.specs.Cmp.{partial_equiv_from_equiv};
ghost use Rattle.std.specs.Cmp.Lexicographic.{nat_list_eq_equiv};
ghost use Rattle.cip_config.specs.Config.{is_name};

use cip_base::NoHeap;
use cip_config::is_name;
use smallvec::SmallVec;
use std::fmt;
use std::marker::Model;

/// The name of a link or a module: 1 to 16 ASCII letters, digits, `_` or `-`. They lie in the value
/// itself: no call takes memory.
#[derive(Debug)]
pub struct Name {
    bytes: SmallVec<u8, 16, NoHeap>,
}

// (A derive would be written, and proved, anew in each crate above.)
impl Drop for Name {
    #[inline(always)]
    fn drop(self) {
        let Name { bytes: _ } = self;
    }
}

impl Model for Name {
    ghost use Rattle.std.specs.Prelude.{List, ℕ, IsTrue};
    ghost use Rattle.cip_config.specs.Config.{is_name};

    ghost Value = { List ℕ };

    ghost view = { λ n. n.bytes.items };

    ghost invariant = { λ n. IsTrue (is_name n.bytes.items) };
}

impl Name {
    /// The name of these characters; None where they are no name.
    pub fn read(bytes: &[u8]) -> Option<Name>
        ensures legal { IsSome result ↔ IsTrue (is_name bytes.now) }
        ensures value { IfSome result (λ n. n ≡ bytes.now) }
    {
        if !is_name(bytes) {
            return None;
        }
        match SmallVec::from_slice(NoHeap, bytes) {
            Ok(bytes) => Some(Name { bytes }),
            Err(_) => unreachable!(),
        }
    }

    /// The characters.
    pub fn as_slice(&self) -> &[u8]
        ensures value { result.now ≡ self.now }
        ensures legal { IsTrue (is_name result.now) }
    {
        self.bytes.as_slice()
    }

    /// A copy.
    pub fn copy(&self) -> Name
        ensures { result ≡ self.now }
    {
        match Name::read(self.as_slice()) {
            Some(name) => name,
            None => unreachable!(),
        }
    }
}

impl PartialEq for Name {
    ghost eq = { bytes_eq };

    ghost laws = { partial_equiv_from_equiv nat_list_eq_equiv };

    fn eq(&self, other: &Self) -> bool {
        self.as_slice() == other.as_slice()
    }
}

impl Eq for Name {
    ghost laws = { nat_list_eq_equiv };
}

impl fmt::Display for Name {
    fn fmt<W: fmt::Write>(&self, f: &mut fmt::Formatter<W>) -> fmt::Result {
        for byte in self.as_slice() {
            write!(f, "{}", char::from(*byte))?;
        }
        Ok(())
    }
}
