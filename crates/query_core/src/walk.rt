//! The walk over the leaves below a root child, which are a range of numbers: the root child is cut with all of them where its
//! bound is above the limit, and each of them by its own bound.
ghost use Rattle.std.specs.Prelude.{◌≡◌, ◌<◌, ◌≤◌, [], IfSome, length};
ghost use Rattle.std.specs.Option.{option_map};
ghost use Rattle.subtree_build.specs.Outline.{leaf_numbers};
ghost use Rattle.subtree_build.specs.Start.{node_at};
ghost use Rattle.search_machine.specs.Ground.{Ground};
ghost use Rattle.search_task.specs.Questions.{leaf_bound};
ghost use Rattle.query_core.specs.Walks.{Advances, IsAmong, IsFirst, IsGiven};

use lower_bound::QueryView;
use series_core::Entry;
use std::marker::Model;
use std::ops::Range;
use subtree_build::Index;

/// A walk, seen as the index and the leaves that it has still to come to: those from `next` up to but not including `end`.
#[derive(Drop)]
pub(crate) struct Walk<'a> {
    index: &'a Index,
    // the root child, whose bound has still to be asked
    root: Option<u32>,
    next: u32,
    end: u32,
}

impl<'a> Model for Walk<'a> {
    ghost use Rattle.std.specs.Coded.{codes};
    ghost use Rattle.subtree_build.specs.contracts.node.Node as node;
    ghost use Rattle.query_core.specs.Walks.{Walked, IsWalk, leaves_between};

    ghost Value = { Walked };

    ghost coded = { Prim.hlevel (codes, node.the_row.coded) };

    ghost view = { λ w. record { index = w.index.now; leaves = leaves_between w.next w.end } };

    ghost invariant = { λ w. IsWalk w.index.now w.root w.next w.end };
}

impl<'a> Walk<'a> {
    /// A walk over this index that has nothing left.
    pub(crate) fn new(index: &'a Index) -> Walk<'a>
        ensures { result ≡ record { index = index.now; leaves = [] } }
    {
        // for the fact that the index is one
        let _segments = index.segments();
        Walk {
            index,
            root: None,
            next: 0,
            end: 0,
        }
    }

    /// Begins anew below root child number `i`.
    pub(crate) fn begin(&mut self, i: u32)
        requires { i < length self.old.index.roots }
        ensures { self.new ≡ record self.old { leaves = leaf_numbers (node_at self.old.index i) } }
    {
        let (first, end) = self.index.root_leaves(i);
        self.root = Some(i);
        self.next = first;
        self.end = end;
    }

    /// The next leaf other than the start leaf whose bound is not above the limit, with its bound. Leaves before it are
    /// passed over. None where there is no such leaf; nothing is left then.
    pub(crate) fn next(&mut self, view: &QueryView, limit: u64, start: Option<u32>) -> Option<Entry>
        requires { view.now.layout.cuts.segments ≡ self.old.index.segments }
        ensures index { self.new.index ≡ self.old.index }
        ensures leaf { IfSome result (λ e. e.leaf < length self.old.index.leaves) }
        ensures bound { IfSome result (λ e. e.bound ≡ leaf_bound view.now self.old.index e.leaf) }
        ensures next { (g : Ground) → g.bound ≡ leaf_bound view.now self.old.index
            → Advances g start limit self.old.leaves self.new.leaves (option_map (λ e. e.leaf) result) }
    {
        // for the facts of a view
        let _segments = view.segments();
        if let Some(i) = self.root.take()
            && self.index.root_bound(view, i) > limit
        {
            self.next = self.end;
            return None;
        }
        match first_given(self.index, view, self.next..self.end, limit, start) {
            Some(entry) => {
                self.next = entry.leaf + 1;
                Some(entry)
            }
            None => {
                self.next = self.end;
                None
            }
        }
    }
}

// The first of these leaves that is not the start leaf and whose bound is not above the limit, with its bound.
fn first_given(
    index: &Index,
    view: &QueryView,
    leaves: Range<u32>,
    limit: u64,
    start: Option<u32>,
) -> Option<Entry>
    requires segments { view.now.layout.cuts.segments ≡ index.now.segments }
    requires order { leaves.start ≤ leaves.end }
    requires inside { leaves.end ≤ length index.now.leaves }
    ensures bound { IfSome result (IsAmong view.now index.now leaves.start leaves.end) }
    ensures next { (g : Ground) → g.bound ≡ leaf_bound view.now index.now
        → IsFirst g start limit leaves.start leaves.end (option_map (λ e. e.leaf) result) }
{
    for leaf in leaves.start..leaves.end {
        let entry = given(index, view, leaf, limit, start);
        if entry.is_some() {
            return entry;
        }
    }
    None
}

// The leaf with its bound, where it is not the start leaf and its bound is not above the limit.
fn given(
    index: &Index,
    view: &QueryView,
    leaf: u32,
    limit: u64,
    start: Option<u32>,
) -> Option<Entry>
    requires segments { view.now.layout.cuts.segments ≡ index.now.segments }
    requires leaf { leaf < length index.now.leaves }
    ensures { IsGiven start limit (leaf_bound view.now index.now leaf) leaf result }
{
    // for the fact that the index is one
    let _segments = index.segments();
    if start == Some(leaf) {
        return None;
    }
    let bound = view.bound_word(index.leaf_word(leaf));
    if bound > limit {
        return None;
    }
    Some(Entry { bound, leaf })
}
