//! What nodes lend: the last element to write, and a walk over all.
ghost use Rattle.std.specs.Prelude.{◌≡◌, ◌<◌, ◌-◌, length, slice_index_or};
ghost use types.Logic.{sem};
ghost use Rattle.block_list.specs.Following.{nodes_follow_last};

use super::Nodes;
use crate::walk::{Front, Walk};
use std::alloc::Allocator;
use std::marker::PhantomData;

impl<T, A: Allocator> Nodes<T, A> {
    /// Lends the last element.
    pub fn back_mut(&mut self) -> &mut T
        requires { 0 < length self.old.items }
        ensures* writes_back { sem 𝓛 (nodes_follow_last T.row A.row A.Allocator self.entry result) }
        ensures value { result.now ≡ slice_index_or self.old.items (length self.old.items - 1) result.now }
    {
        unsafe { &mut (*self.tail.cast_mut()).elem }
    }

    /// A walk from the first node on.
    pub fn walk(&self) -> Walk<'_, T>
        ensures { result.items ≡ self.now.items }
    {
        Walk {
            at: self.head as *const Front<T>,
            mark: PhantomData,
        }
    }
}
