//! The root children of a saved index.
ghost use Rattle.std.specs.Prelude.{◌≡◌, ◌+◌, ◌^◌, ◌<◌, ◌≤◌, ◌⊎◌, length, drop, None, IfOk, IfErr, IsErrOf};
ghost use Rattle.saved_index.specs.Parsed.{AreRootsRead};
ghost use Rattle.saved_index.specs.Reading.{roots_in};
ghost use Rattle.saved_index.specs.declared.error.IndexFault.TheVariants.{NotIndex, NoMemory};

use crate::error::IndexFault;
use crate::members::NumberRow;
use crate::node::read_node;
use crate::numbers::number_at;
use isax_word::Word;
use std::alloc::Global;
use subtree_build::Node;

/// Root children that were read, and the place behind them.
#[derive(Drop)]
pub(crate) struct RootsAt {
    pub(crate) roots: Vec<u32>,
    pub(crate) nodes: Vec<Node>,
    pub(crate) lists: NumberRow,
    pub(crate) at: usize,
}

/// `many` root children of `segments` segments each, from place `from` on.
pub(crate) fn read_roots(
    alloc: Global,
    bytes: &[u8],
    segments: u32,
    count: u32,
    many: u32,
    from: usize,
) -> Result<RootsAt, IndexFault>
    requires some_segments { 1 ≤ segments }
    requires few_segments { segments ≤ 16 }
    requires place { from ≤ length bytes.now }
    requires short { length bytes.now < 2 ^ 32 }
    ensures read { IfOk result (λ r. AreRootsRead bytes.now r.at (roots_in many 0 segments count (drop from bytes.now))
        r.roots.items r.nodes.items r.lists) }
    ensures refused { IsErrOf result NotIndex → roots_in many 0 segments count (drop from bytes.now) ≡ None }
    ensures errors { IfErr result (λ e. (e ≡ NotIndex) ⊎ (e ≡ NoMemory)) }
{
    let room = (count as usize).min((bytes.len() - from) / 4);
    let mut read = RootsAt {
        roots: Vec::new(alloc),
        nodes: Vec::new(alloc),
        lists: NumberRow::with_room(alloc, room)?,
        at: from,
    };
    let mut least = 0;
    for _i in 0..many {
        let Some(root) = number_at(bytes, read.at) else {
            return Err(IndexFault::NotIndex);
        };
        if root < least || root >= 1 << segments {
            return Err(IndexFault::NotIndex);
        }
        let word = Word::of_root(root, segments);
        let node = match read_node(alloc, bytes, count, &word, read.at + 4, &mut read.lists) {
            Ok(node) => node,
            Err(e) => return Err(e),
        };
        read.roots.push(root)?;
        read.nodes.push(node.node)?;
        read.at = node.at;
        least = root + 1;
    }
    Ok(read)
}
