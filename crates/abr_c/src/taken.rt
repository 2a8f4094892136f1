//! Boxes, taken apart.
//!
//! The proofs of these functions are short and written by hand, as they move all that a pointer
//! owns. The functions that C calls are proved like any other function.
ghost use Rattle.std.specs.Prelude.{◌≡◌};
ghost use Rattle.std.specs.Box.Ownership.{box_owns};

use std::alloc::Allocator;
use std::marker::Model;

/// The pointer and the allocator of a box. It owns what the box owned.
pub(crate) struct RawBox<T, A: Allocator> {
    pub(crate) at: *mut T,
    pub(crate) alloc: A,
    pub(crate) ghost inside: { T },
}

impl<T, A: Allocator> Model for RawBox<T, A> {
    ghost also_owns = { λ t. box_owns (A.dealloc_token t.alloc) T.row t.at t.inside };
}

impl<T: Drop, A: Allocator> RawBox<T, A> {
    pub(crate) fn of(whole: Box<T, A>) -> RawBox<T, A>
        ensures { result.inside ≡ whole.value }
    {
        let (at, alloc) = Box::into_raw_with_allocator(whole);
        RawBox { at, alloc }
    }

    pub(crate) fn into_box(self) -> Box<T, A>
        ensures { result.value ≡ self.inside }
    {
        let RawBox { at, alloc } = self;
        unsafe { Box::from_raw(alloc, at) }
    }
}
