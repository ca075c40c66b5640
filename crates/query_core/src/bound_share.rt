//! A share of the leaves' lower bounds: each worker reckons one in its own thread, and who asks for the bound of a leaf reads it there.
ghost use Rattle.std.specs.Prelude.{◌≡◌, ◌+◌, ◌-◌, ◌≤◌, IfOk, IfSome, Some, [], slice_get};
ghost use Rattle.query_core.specs.BoundShares.{AreBounds};

use lower_bound::QueryView;
use outside::NoMemory;
use std::alloc::Global;
use std::marker::Model;
use subtree_build::Index;

/// The bounds of leaves from `first` on, with room for those below `end`.
#[derive(Drop)]
pub(crate) struct BoundShare {
    first: u32,
    end: u32,
    bounds: Vec<u64>,
}

impl Model for BoundShare {
    ghost use Rattle.std.specs.Prelude.{◌+◌, ◌≤◌, vec_capacity, vec_len};
    ghost use Rattle.query_core.specs.BoundShares.{Share};

    ghost Value = { Share };

    ghost view = { λ s. record { first = s.first; end = s.end; bounds = s.bounds.items } };

    ghost invariant = { λ s. (s.first + vec_len s.bounds ≤ s.end) × (s.end ≤ s.first + vec_capacity s.bounds) };
}

impl BoundShare {
    /// No leaf.
    pub(crate) fn none(alloc: Global) -> BoundShare
        ensures { result ≡ record { first = 0; end = 0; bounds = [] } }
    {
        BoundShare {
            first: 0,
            end: 0,
            bounds: Vec::new(alloc),
        }
    }

    /// The leaves from `first` up to but not including `end`; none of their bounds is reckoned yet.
    pub(crate) fn with_room(alloc: Global, first: u32, end: u32) -> Result<BoundShare, NoMemory>
        requires { first ≤ end }
        ensures { IfOk result (λ s. s ≡ record { first = first; end = end; bounds = [] }) }
    {
        Ok(BoundShare {
            first,
            end,
            bounds: Vec::with_capacity(alloc, (end - first) as usize)?,
        })
    }

    /// Reckons the bounds that are not yet there.
    pub(crate) fn reckon(&mut self, view: &QueryView, index: &Index)
        requires segments { view.now.layout.cuts.segments ≡ index.now.segments }
        requires bounds { AreBounds view.now index.now self.old }
        ensures bounds { AreBounds view.now index.now self.new }
    {
        // for the fact that the index is one
        let _segments = index.segments();
        for leaf in self.first + self.bounds.len() as u32..self.end {
            self.bounds
                .push_reserved(view.bound_word(index.leaf_word(leaf)));
        }
    }

    /// The bound of a leaf, where it is there.
    pub(crate) fn get(&self, leaf: u32) -> Option<u64>
        ensures { IfSome result (λ b. (self.now.first ≤ leaf) × (slice_get self.now.bounds (leaf - self.now.first) ≡ Some b)) }
    {
        if leaf < self.first {
            return None;
        }
        self.bounds.get((leaf - self.first) as usize).copied()
    }
}
