//! A box without its type, which Box keeps for itself: a pointer, and whose memory it points to.
ghost use Rattle.std.specs.Prelude.{◌≡◌};
ghost use Rattle.std.specs.Box.Ownership.{box_owns};

use std::alloc::Allocator;
use std::marker::Model;

/// What a box is made of. `held` is what the box held.
pub(crate) struct Bare<T, A: Allocator> {
    pub(crate) at: *mut T,
    pub(crate) alloc: A,
    pub(crate) ghost held: { T },
}

impl<T, A: Allocator> Model for Bare<T, A> {
    ghost also_owns = { λ b. box_owns (A.dealloc_token b.alloc) T.row b.at b.held };
}

impl<T: Drop, A: Allocator> Bare<T, A> {
    /// The parts of the box.
    pub(crate) fn of(boxed: Box<T, A>) -> Bare<T, A>
        ensures { result.held ≡ boxed.value }
    {
        let (at, alloc) = Box::into_raw_with_allocator(boxed);
        Bare { at, alloc }
    }

    /// The box of the parts.
    pub(crate) fn boxed(self) -> Box<T, A>
        ensures { result.value ≡ self.held }
    {
        let Bare { at, alloc } = self;
        unsafe { Box::from_raw(alloc, at) }
    }
}
