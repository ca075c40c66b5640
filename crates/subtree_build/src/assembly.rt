//! Whether parts make an index. Nothing is believed of them: each fact that every index keeps is tested.
ghost use Rattle.std.specs.Prelude.{◌≡◌, ◌+◌, ◌^◌, ◌<◌, ◌≤◌, ◌↔◌, IsTrue, IsSome, IfSome, length};
ghost use Rattle.std.specs.List.{All, range_with_len, flat_map};
ghost use Rattle.subtree_build.specs.Assembly.{AllStand, AreNumbered, AreRoots, CanStand, MakeIndex};
ghost use Rattle.subtree_build.specs.Outline.{outline, leaf_numbers};
ghost use Rattle.subtree_build.specs.declared.assembly.Assembly.TheVariants.{NoMemory as NoMemoryLeft};

use crate::node::Node;
use isax_word::{Word, child};
use outside::NoMemory;
use thiserror::Error;

/// Why no index was put together.
#[derive(Clone, Copy, Debug, PartialEq, Eq, Error)]
pub enum Assembly {
    /// The parts are of no index.
    #[error("the parts are of no index")]
    Parts,
    /// Memory ran out.
    #[error("out of memory")]
    NoMemory,
}

impl From<NoMemory> for Assembly {
    ghost from_gives = { λ _ e. e ≡ NoMemoryLeft };

    fn from(_: NoMemory) -> Assembly {
        Assembly::NoMemory
    }
}

/// Whether root numbers of `segments` segments strictly ascend and fit.
fn are_roots(segments: u32, roots: &[u32]) -> bool
    requires { segments ≤ 16 }
    ensures { IsTrue result ↔ AreRoots segments roots.now }
{
    for i in 0..roots.len() {
        if roots[i] >= 1 << segments {
            return false;
        }
        if i > 0 && roots[i - 1] >= roots[i] {
            return false;
        }
    }
    true
}

/// Whether below a node of this word each split is in a segment that has a bit left, and has a child.
fn can_stand(word: &Word, node: &Node) -> bool
    ensures { IsTrue result ↔ CanStand word.now (outline node.now) }
{
    let (segment, low, high) = match node {
        Node::Leaf(_) => return true,
        Node::Split { segment, low, high } => (*segment, low, high),
    };
    if segment >= word.segments() || word.bits(segment) >= 8 {
        return false;
    }
    match (low, high) {
        (None, None) => false,
        (Some(low), None) => can_stand(&child(word, segment, false), low),
        (None, Some(high)) => can_stand(&child(word, segment, true), high),
        (Some(low), Some(high)) => {
            can_stand(&child(word, segment, false), low)
                && can_stand(&child(word, segment, true), high)
        }
    }
}

/// Whether each node can stand under the one-bit word of its root number.
fn all_stand(segments: u32, roots: &[u32], nodes: &[Node]) -> bool
    requires some_segments { 1 ≤ segments }
    requires few_segments { segments ≤ 16 }
    requires roots { All (λ root. root < 2 ^ segments) roots.now }
    requires one_each { length nodes.now ≡ length roots.now }
    ensures { IsTrue result ↔ AllStand segments roots.now nodes.now }
{
    for i in 0..nodes.len() {
        let word = Word::of_root(roots[i], segments);
        if !can_stand(&word, &nodes[i]) {
            return false;
        }
    }
    true
}

/// The number that follows those of the leaves below a node, where these are numbered in order from `first` on, none of
/// them past `end`; else None.
fn number_behind(node: &Node, first: u32, end: u32) -> Option<u32>
    requires { first ≤ end }
    ensures numbered { IsSome result ↔ AreNumbered first end (outline node.now) }
    ensures next { IfSome result (λ next. next ≡ first + length (leaf_numbers node.now)) }
{
    let (low, high) = match node {
        Node::Leaf(number) => {
            return if *number == first && first < end {
                Some(first + 1)
            } else {
                None
            };
        }
        Node::Split { low, high, .. } => (low, high),
    };
    let between = match low {
        Some(low) => number_behind(low, first, end)?,
        None => first,
    };
    match high {
        Some(high) => number_behind(high, between, end),
        None => Some(between),
    }
}

/// Whether the leaves below the nodes are numbered from 0 in order, and there are `leaves` of them.
fn are_in_order(nodes: &[Node], leaves: u32) -> bool
    ensures { IsTrue result ↔ (flat_map leaf_numbers nodes.now ≡ range_with_len 0 leaves) }
{
    let mut next = 0;
    for node in nodes {
        match number_behind(node, next, leaves) {
            Some(number) => next = number,
            None => return false,
        }
    }
    next == leaves
}

/// Whether root numbers, their nodes and `leaves` leaves make an index.
pub(crate) fn make_index(segments: u32, roots: &[u32], nodes: &[Node], leaves: u32) -> bool
    requires some_segments { 1 ≤ segments }
    requires few_segments { segments ≤ 16 }
    ensures { IsTrue result ↔ MakeIndex segments roots.now nodes.now leaves }
{
    if !are_roots(segments, roots) || nodes.len() != roots.len() {
        return false;
    }
    all_stand(segments, roots, nodes) && are_in_order(nodes, leaves)
}
