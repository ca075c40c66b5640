//! What C holds. Its one rule: C sees whether there is an index, and nothing else of it.
ghost use Rattle.std.specs.Prelude.{◌≡◌, Some, None};
ghost use Rattle.std.specs.Option.{is_some};
ghost use Rattle.isearch_c.specs.Kept.{kept_in};

use crate::handle::Handle;
use crate::held::Held;
use std::alloc::Global;
use std::mem;

/// What C holds: zeroed, it has no index. All of it is C's to move, and none of it C's to change or to copy.
#[repr(C)]
#[derive(Drop)]
pub struct IsearchIndex {
    full: bool,
    handle: Handle,
    ghost tied: { full ≡ is_some handle.held },
}

impl IsearchIndex {
    /// There is no index.
    pub fn empty(alloc: Global) -> IsearchIndex
        ensures { result.handle.held ≡ None }
    {
        IsearchIndex {
            full: false,
            handle: Handle::empty(alloc),
        }
    }

    /// There is this one.
    pub fn of(held: Box<Held>) -> IsearchIndex
        ensures { result.handle.held ≡ Some held.value }
    {
        IsearchIndex {
            full: true,
            handle: Handle::of(held),
        }
    }

    /// Whether there is an index.
    pub fn is_full(&self) -> bool
        ensures { result ≡ is_some self.now.handle.held }
    {
        self.full
    }

    /// Takes the index out, where there is one.
    pub fn take(&mut self, alloc: Global) -> Option<Box<Held>>
        ensures emptied { self.new.handle.held ≡ None }
        ensures taken { self.old.handle.held ≡ kept_in result }
    {
        let before = mem::replace(self, IsearchIndex::empty(alloc));
        if before.full {
            Some(before.handle.into_box())
        } else {
            None
        }
    }
}
