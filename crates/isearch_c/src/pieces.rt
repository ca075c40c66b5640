//! A box in two pieces, of which C may keep the pointer. Its one rule: the pieces own what the box owned, and nothing frees it until they are
//! one box again.
ghost use Rattle.std.specs.Prelude.{◌≡◌};
ghost use Rattle.std_alloc.specs.Box.Ownership.{box_owns};

use std::alloc::Allocator;
use std::marker::Model;

/// The pieces of a box: where its value lies, and what will free it there.
pub struct Pieces<T, A: Allocator> {
    /// Where the value lies.
    pub at: *mut T,
    /// What will free it.
    pub alloc: A,
    /// The value.
    pub ghost value: { T },
}

impl<T, A: Allocator> Model for Pieces<T, A> {
    ghost also_owns = { λ pieces. box_owns (A.dealloc_token pieces.alloc) T.row pieces.at pieces.value };
}

impl<T: Drop, A: Allocator> Pieces<T, A> {
    /// Takes a box to pieces.
    pub fn of_box(whole: Box<T, A>) -> Pieces<T, A>
        ensures { result.value ≡ whole.value }
    {
        let (at, alloc) = Box::into_raw_with_allocator(whole);
        Pieces { at, alloc }
    }

    /// Makes the pieces one box.
    pub fn into_box(self) -> Box<T, A>
        ensures { result.value ≡ self.value }
    {
        let Pieces { at, alloc } = self;
        unsafe { Box::from_raw(alloc, at) }
    }
}
