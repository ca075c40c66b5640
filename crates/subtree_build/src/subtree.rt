//! A whole subtree: the members under a word are divided in place, until those of each leaf lie side by side in the order of
//! the leaves. Members that ascend by number still do so in each leaf.
ghost use Rattle.std.specs.Prelude.{◌≡◌, ◌+◌, ◌*◌, ◌^◌, ◌<◌, ◌≤◌, ◌++◌, ◌⊎◌, length, vec_len, filter, count_by, IfOk, IfSome, IfNone};
ghost use Rattle.subtree_build.specs.Division.{node_of, bits_left};
ghost use Rattle.subtree_build.specs.Grown.{IsGrown, IsPut, grown_leaf};
ghost use Rattle.subtree_build.specs.Members.{HaveSegments};
ghost use Rattle.subtree_build.specs.Outline.{outline, child_outline};
ghost use Rattle.subtree_build.specs.Splitting.{goes_high, goes_low, IsSplitOf};
ghost use Rattle.subtree_build.specs.Tree.{split};

use crate::leaf::GrownLeaf;
use crate::node::Node;
use crate::split::{Split, best_split, next_bit};
use isax_word::{Member, Word, child};
use outside::NoMemory;
use std::alloc::Global;

/// Puts the members whose next bit in a segment is 0 before those whose next bit is 1, each in the order that they had, and
/// counts the first. The others wait in `scratch`, which has as many places. Where all members go to one side, as they mostly do in
/// a segment that varies little, none is moved.
fn divide(word: &Word, split: Split, members: &mut [Member], scratch: &mut [Member]) -> usize
    requires used { split.segment < length word.now }
    requires segments { HaveSegments (length word.now) members.old }
    requires high { split.high ≡ count_by (goes_high word.now split.segment) members.old }
    requires room { length members.old ≤ length scratch.old }
    ensures divided { members.new
        ≡ filter (goes_low word.now split.segment) members.old ++ filter (goes_high word.now split.segment) members.old }
    ensures low { result ≡ length (filter (goes_low word.now split.segment) members.old) }
{
    let low = members.len() - split.high as usize;
    if low > 0 && split.high > 0 {
        move_apart(word, split.segment, members, scratch);
    }
    low
}

/// Does so where there are members for both sides. Each member is put in both, and stays in one: next bits are then as good as
/// drawn, and to jump by them takes longer than to store twice.
fn move_apart(word: &Word, segment: u32, members: &mut [Member], scratch: &mut [Member])
    requires used { segment < length word.now }
    requires segments { HaveSegments (length word.now) members.old }
    requires room { length members.old ≤ length scratch.old }
    ensures { members.new
        ≡ filter (goes_low word.now segment) members.old ++ filter (goes_high word.now segment) members.old }
{
    let (mut low, mut high) = (0, 0);
    for i in 0..members.len() {
        let member = members[i];
        let bit = usize::from(next_bit(word, &member.full, segment));
        members[low] = member;
        scratch[high] = member;
        low += 1 - bit;
        high += bit;
    }
    let (_, behind) = members.split_at_mut(low);
    behind.copy_from_slice(&scratch[..high]);
}

/// The leaf of a word and of `count` members, put behind the others.
fn leaf_node(word: &Word, count: u32, leaves: &mut Vec<GrownLeaf>) -> Result<Node, NoMemory>
    requires room { vec_len leaves.old < 2 ^ 32 }
    ensures { let put = grown_leaf word.now count in
        IfOk result (λ node. IsPut put leaves.old.items (outline node) leaves.new.items) }
{
    let number = leaves.len() as u32;
    leaves.push(GrownLeaf { word: *word, count })?;
    Ok(Node::Leaf(number))
}

/// The split of a node; None where it is a leaf.
fn split_of(leaf_size: u32, word: &Word, members: &[Member]) -> Option<Split>
    requires segments { HaveSegments (length word.now) members.now }
    requires few { length members.now < 2 ^ 32 }
    ensures split { IfSome result (λ s. IsSplitOf leaf_size word.now members.now s.segment) }
    ensures high { IfSome result (λ s. s.high ≡ count_by (goes_high word.now s.segment) members.now) }
    ensures leaf { IfNone result ((length members.now ≤ leaf_size) ⊎ (bits_left word.now ≡ 0)) }
{
    if members.len() <= leaf_size as usize {
        return None;
    }
    best_split(word, members)
}

/// A node that is split.
fn split_node(segment: u32, low: Option<Box<Node>>, high: Option<Box<Node>>) -> Node
    ensures { outline result ≡ split segment (child_outline low) (child_outline high) }
{
    Node::Split { segment, low, high }
}

/// The node of a word and its members, which are some; its leaves are put behind the others. `scratch` has as many
/// places.
#[cycle(subtree)]
pub(crate) fn subtree(
    alloc: Global,
    leaf_size: u32,
    word: &Word,
    members: &mut [Member],
    scratch: &mut [Member],
    leaves: &mut Vec<GrownLeaf>,
) -> Result<Node, NoMemory>
    requires some { 0 < length members.old }
    requires segments { HaveSegments (length word.now) members.old }
    requires room { vec_len leaves.old + length members.old < 2 ^ 32 }
    requires scratch { length members.old ≤ length scratch.old }
    ensures grown { let tree = node_of leaf_size word.now members.old in
        IfOk result (λ node. IsGrown tree leaves.old.items (outline node) leaves.new.items members.new) }
{
    let Some(split) = split_of(leaf_size, word, members) else {
        return leaf_node(word, members.len() as u32, leaves);
    };
    let segment = split.segment;
    let count = divide(word, split, members, scratch);
    let (low, high) = members.split_at_mut(count);
    let low_word = child(word, segment, false);
    let low = child_node(alloc, leaf_size, &low_word, low, scratch, leaves)?;
    let high_word = child(word, segment, true);
    let high = child_node(alloc, leaf_size, &high_word, high, scratch, leaves)?;
    Ok(split_node(segment, low, high))
}

/// The child of a word and its members; None where there are no members.
#[cycle(subtree)]
fn child_node(
    alloc: Global,
    leaf_size: u32,
    word: &Word,
    members: &mut [Member],
    scratch: &mut [Member],
    leaves: &mut Vec<GrownLeaf>,
) -> Result<Option<Box<Node>>, NoMemory>
    requires segments { HaveSegments (length word.now) members.old }
    requires room { vec_len leaves.old + length members.old < 2 ^ 32 }
    requires scratch { length members.old ≤ length scratch.old }
    ensures grown { let tree = node_of leaf_size word.now members.old in
        IfOk result (λ node. IsGrown tree leaves.old.items (child_outline node) leaves.new.items members.new) }
{
    if members.is_empty() {
        return Ok(None);
    }
    let node = subtree(alloc, leaf_size, word, members, scratch, leaves)?;
    Ok(Some(Box::new(alloc, node)?))
}
