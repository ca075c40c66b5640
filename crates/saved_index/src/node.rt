//! The nodes of a saved index. A node lies no deeper than its word has bits to give, so no bytes make the reader go deeper.
ghost use Rattle.std.specs.Prelude.{◌≡◌, ◌+◌, ◌<◌, ◌≤◌, ◌⊎◌, length, drop, None, IfOk, IfErr, IsErrOf};
ghost use Rattle.subtree_build.specs.Division.{bits_left};
ghost use Rattle.subtree_build.specs.Outline.{outline, child_outline};
ghost use Rattle.saved_index.specs.Parsed.{IsNodeRead, IsPlaceIn};
ghost use Rattle.saved_index.specs.Reading.{child_in, leaf_in, node_in};
ghost use Rattle.saved_index.specs.declared.error.IndexFault.TheVariants.{NotIndex, NoMemory};

use crate::error::IndexFault;
use crate::members::NumberRow;
use crate::numbers::number_at;
use isax_word::{Word, child};
use std::alloc::Global;
use subtree_build::Node;

/// A node that was read, and the place behind it.
#[derive(Drop)]
pub(crate) struct NodeAt {
    pub(crate) node: Node,
    pub(crate) at: usize,
}

/// A child that was read, if there is one, and the place behind it.
#[derive(Drop)]
pub(crate) struct ChildAt {
    pub(crate) child: Option<Box<Node>>,
    pub(crate) at: usize,
}

/// The leaf at a place, behind its first byte.
fn read_leaf(
    bytes: &[u8],
    count: u32,
    at: usize,
    lists: &mut NumberRow,
) -> Result<NodeAt, IndexFault>
    requires place { (1 ≤ at) × IsPlaceIn bytes.now at }
    requires room { length lists.old < at }
    ensures read { IfOk result (λ r. IsNodeRead bytes.now at r.at (leaf_in count (drop at bytes.now)) lists.old
        (outline r.node) lists.new) }
    ensures refused { IsErrOf result NotIndex → leaf_in count (drop at bytes.now) ≡ None }
    ensures errors { IfErr result (λ e. (e ≡ NotIndex) ⊎ (e ≡ NoMemory)) }
{
    let many = match number_at(bytes, at) {
        Some(many) if many >= 1 => many,
        _ => return Err(IndexFault::NotIndex),
    };
    let number = lists.len() as u32;
    match lists.read_list(bytes, at + 4, many, count) {
        Ok(to) => Ok(NodeAt {
            node: Node::Leaf(number),
            at: to,
        }),
        Err(e) => Err(e),
    }
}

/// The node of a word at a place.
#[cycle(read_node)]
pub(crate) fn read_node(
    alloc: Global,
    bytes: &[u8],
    count: u32,
    word: &Word,
    at: usize,
    lists: &mut NumberRow,
) -> Result<NodeAt, IndexFault>
    requires place { IsPlaceIn bytes.now at }
    requires room { length lists.old ≤ at }
    ensures read { IfOk result (λ r. IsNodeRead bytes.now at r.at (node_in (bits_left word.now) count word.now (drop at bytes.now))
        lists.old (outline r.node) lists.new) }
    ensures refused { IsErrOf result NotIndex → node_in (bits_left word.now) count word.now (drop at bytes.now) ≡ None }
    ensures errors { IfErr result (λ e. (e ≡ NotIndex) ⊎ (e ≡ NoMemory)) }
{
    if at == bytes.len() {
        return Err(IndexFault::NotIndex);
    }
    let kind = bytes[at];
    if kind == 0 {
        return read_leaf(bytes, count, at + 1, lists);
    }
    if bytes.len() - at < 2 || kind > 3 {
        return Err(IndexFault::NotIndex);
    }
    let segment = u32::from(bytes[at + 1]);
    if segment >= word.segments() || word.bits(segment) >= 8 {
        return Err(IndexFault::NotIndex);
    }
    let low_word = child(word, segment, false);
    let low = match read_child(alloc, bytes, count, &low_word, kind != 2, at + 2, lists) {
        Ok(low) => low,
        Err(e) => return Err(e),
    };
    let high_word = child(word, segment, true);
    let high = match read_child(alloc, bytes, count, &high_word, kind != 1, low.at, lists) {
        Ok(high) => high,
        Err(e) => return Err(e),
    };
    Ok(NodeAt {
        node: Node::Split {
            segment,
            low: low.child,
            high: high.child,
        },
        at: high.at,
    })
}

/// The child of a word at a place, where there is one.
#[cycle(read_node)]
fn read_child(
    alloc: Global,
    bytes: &[u8],
    count: u32,
    word: &Word,
    there: bool,
    at: usize,
    lists: &mut NumberRow,
) -> Result<ChildAt, IndexFault>
    requires place { IsPlaceIn bytes.now at }
    requires room { length lists.old ≤ at }
    ensures read { IfOk result (λ r. IsNodeRead bytes.now at r.at
        (child_in there (node_in (bits_left word.now) count word.now) (drop at bytes.now))
        lists.old (child_outline r.child) lists.new) }
    ensures refused { IsErrOf result NotIndex
        → child_in there (node_in (bits_left word.now) count word.now) (drop at bytes.now) ≡ None }
    ensures errors { IfErr result (λ e. (e ≡ NotIndex) ⊎ (e ≡ NoMemory)) }
{
    if !there {
        return Ok(ChildAt { child: None, at });
    }
    let read = read_node(alloc, bytes, count, word, at, lists)?;
    Ok(ChildAt {
        child: Some(Box::new(alloc, read.node)?),
        at: read.at,
    })
}
