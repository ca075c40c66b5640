//! The leaves of an index that is put together: their words, which the nodes say, and how many members each has of those in a row.
ghost use Rattle.std.specs.Prelude.{◌≡◌, ◌++◌, ◌^◌, ◌<◌, ◌≤◌, ◌↔◌, All, IfOk, IsTrue, OnOk, length, map};
ghost use Rattle.subtree_build.specs.Assembly.{AddUp, AllStand, CanStand, all_words, counted_leaves, leaf_words};
ghost use Rattle.subtree_build.specs.Outline.{outline};
ghost use Rattle.subtree_build.specs.Places.{tree_firsts};

use crate::leaf::GrownLeaf;
use crate::node::Node;
use isax_word::{Word, child};
use outside::NoMemory;
use std::alloc::Global;

/// The words of all leaves in order; and the number of the first leaf below each node, and behind these that of all leaves.
#[derive(Drop)]
pub(crate) struct LeafWords {
    pub(crate) words: Vec<Word>,
    pub(crate) firsts: Vec<u32>,
}

/// Puts the words of the leaves below a node behind the others.
fn put_words(word: &Word, node: &Node, words: &mut Vec<Word>) -> Result<(), NoMemory>
    requires { CanStand word.now (outline node.now) }
    ensures { OnOk result (words.new.items ≡ words.old.items ++ leaf_words word.now (outline node.now)) }
{
    let (segment, low, high) = match node {
        Node::Leaf(_) => {
            words.push(*word)?;
            return Ok(());
        }
        Node::Split { segment, low, high } => (*segment, low, high),
    };
    if let Some(low) = low {
        put_words(&child(word, segment, false), low, words)?;
    }
    if let Some(high) = high {
        put_words(&child(word, segment, true), high, words)?;
    }
    Ok(())
}

/// The words of the leaves below all nodes.
pub(crate) fn words_below(
    alloc: Global,
    segments: u32,
    roots: &[u32],
    nodes: &[Node],
) -> Result<LeafWords, NoMemory>
    requires some_segments { 1 ≤ segments }
    requires few_segments { segments ≤ 16 }
    requires roots { All (λ root. root < 2 ^ segments) roots.now }
    requires one_each { length nodes.now ≡ length roots.now }
    requires stand { AllStand segments roots.now nodes.now }
    requires few { length (all_words segments roots.now nodes.now) < 2 ^ 32 }
    ensures words { IfOk result (λ r. r.words.items ≡ all_words segments roots.now nodes.now) }
    ensures firsts { IfOk result (λ r. r.firsts.items ≡ tree_firsts 0 (map outline nodes.now)) }
{
    let mut words = Vec::new(alloc);
    let mut firsts = Vec::new(alloc);
    for i in 0..nodes.len() {
        let first = words.len() as u32;
        firsts.push(first)?;
        let word = Word::of_root(roots[i], segments);
        put_words(&word, &nodes[i], &mut words)?;
    }
    let count = words.len() as u32;
    firsts.push(count)?;
    Ok(LeafWords { words, firsts })
}

/// The leaves of words and numbers of members.
pub(crate) fn counted_leaves(
    alloc: Global,
    words: &[Word],
    counts: &[u32],
) -> Result<Vec<GrownLeaf>, NoMemory>
    requires { length words.now ≡ length counts.now }
    ensures { IfOk result (λ leaves. leaves.items ≡ counted_leaves words.now counts.now) }
{
    let mut leaves = Vec::with_capacity(alloc, counts.len())?;
    for i in 0..counts.len() {
        leaves.push(GrownLeaf {
            word: words[i],
            count: counts[i],
        })?;
    }
    Ok(leaves)
}

/// Whether leaves that have so many members each have `members` together.
pub(crate) fn add_up(counts: &[u32], members: usize) -> bool
    ensures { IsTrue result ↔ AddUp counts.now members }
{
    let mut left = members;
    for i in 0..counts.len() {
        let own = counts[i] as usize;
        if own > left {
            return false;
        }
        left -= own;
    }
    left == 0
}
