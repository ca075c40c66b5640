//! The first descent: at the root and at each split to the child of least bound.
ghost use Rattle.std.specs.Prelude.{◌≡◌, ◌<◌, ◌↔◌, length, IsSome, IfSome, find};
ghost use Rattle.std.specs.List.{range_with_len};
ghost use Rattle.isax_word.specs.Word.{part_at};
ghost use Rattle.subtree_build.specs.Index.{IsIndex, StandsUnder};
ghost use Rattle.subtree_build.specs.Outline.{outline};
ghost use Rattle.subtree_build.specs.Start.{first_descent, is_high_nearer, root_bound, is_nearest, start_leaf_of};

use crate::index::Index;
use crate::node::Node;
use isax_word::{Word, child};
use lower_bound::QueryView;

impl Index {
    /// The leaf where a search for the view's query starts: at the root the child of least bound, ties to the
    /// smaller root number, and at each split the child of least bound, ties to the low one. None exactly where
    /// there is no leaf.
    pub fn start_leaf(&self, view: &QueryView) -> Option<u32>
        requires { self.now.segments ≡ view.now.layout.cuts.segments }
        ensures value { result ≡ start_leaf_of view.now self.now }
        ensures some { IsSome result ↔ (0 < length self.now.leaves) }
        ensures leaf { IfSome result (λ l. l < length self.now.leaves) }
    {
        let i = self.nearest_root(view)?;
        let word = self.root_word(i);
        Some(self.descend(view, &word, self.root(i)))
    }

    /// The bound of root child number `i`.
    pub fn root_bound(&self, view: &QueryView, i: u32) -> u64
        requires segments { self.now.segments ≡ view.now.layout.cuts.segments }
        requires root { i < length self.now.roots }
        ensures { result ≡ root_bound view.now self.now i }
    {
        view.bound_root(self.root_number(i))
    }

    /// The root child of least bound, of two as near the one of smaller root number.
    fn nearest_root(&self, view: &QueryView) -> Option<u32>
        requires { self.now.segments ≡ view.now.layout.cuts.segments }
        ensures value { result ≡ find (is_nearest view.now self.now) (range_with_len 0 (length self.now.roots)) }
        ensures some { IsSome result ↔ (0 < length self.now.roots) }
        ensures root { IfSome result (λ i. i < length self.now.roots) }
        ensures is_index { IsIndex self.now }
    {
        let count = self.root_count();
        if count == 0 {
            return None;
        }
        let mut nearest = 0;
        let mut least = self.root_bound(view, 0);
        for i in 1..count {
            let bound = self.root_bound(view, i);
            if bound < least {
                nearest = i;
                least = bound;
            }
        }
        Some(nearest)
    }

    /// The leaf that the descent from a node of this word reaches.
    #[tactic(auto, using(crate::proofs::Descents::to_high, crate::proofs::Descents::to_low))]
    fn descend(&self, view: &QueryView, word: &Word, node: &Node) -> u32
        requires segments { length word.now ≡ view.now.layout.cuts.segments }
        requires stands { StandsUnder self.now.leaves word.now (outline node.now) }
        ensures value { result ≡ first_descent view.now word.now (outline node.now) }
        ensures leaf { result < length self.now.leaves }
    {
        let (segment, low, high) = match node {
            Node::Leaf(number) => return *number,
            Node::Split { segment, low, high } => (*segment, low, high),
        };
        match (low, high) {
            (Some(_), Some(high)) if goes_high(view, word, segment) => {
                self.descend(view, &child(word, segment, true), high)
            }
            (Some(low), _) => self.descend(view, &child(word, segment, false), low),
            (None, Some(high)) => self.descend(view, &child(word, segment, true), high),
            (None, None) => unreachable!(),
        }
    }
}

/// Whether the bound of the high child is less than that of the low one.
fn goes_high(view: &QueryView, word: &Word, segment: u32) -> bool
    requires segments { length word.now ≡ view.now.layout.cuts.segments }
    requires used { segment < length word.now }
    requires divisible { (part_at word.now segment).bits < 8 }
    ensures { result ≡ is_high_nearer view.now word.now segment }
{
    view.bound_word(&child(word, segment, true)) < view.bound_word(&child(word, segment, false))
}
