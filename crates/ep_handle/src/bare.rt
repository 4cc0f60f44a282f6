//! A box of any type, taken apart.
ghost use Rattle.std.specs.Prelude.{◌≡◌};
ghost use Rattle.std.specs.Box.Ownership.{box_owns};

use std::alloc::Allocator;
use std::marker::Model;

/// The pointer and the allocator of a box, in sight of this crate. It owns what the box did.
pub(crate) struct Bare<T, A: Allocator> {
    pub(crate) at: *mut T,
    pub(crate) alloc: A,
    pub(crate) ghost held: { T },
}

impl<T, A: Allocator> Model for Bare<T, A> {
    ghost also_owns = { λ b. box_owns (A.dealloc_token b.alloc) T.row b.at b.held };
}

impl<T, A: Allocator> Bare<T, A> {
    /// Takes a box apart.
    pub(crate) fn of(whole: Box<T, A>) -> Bare<T, A>
    where
        T: Drop,
        ensures { result.held ≡ whole.value }
    {
        let (at, alloc) = Box::into_raw_with_allocator(whole);
        Bare { at, alloc }
    }

    /// The box again.
    pub(crate) fn into_box(self) -> Box<T, A>
        ensures { result.value ≡ self.held }
    {
        let Bare { at, alloc } = self;
        unsafe { Box::from_raw(alloc, at) }
    }
}
