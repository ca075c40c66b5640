//! Rows of blocks: what a list does to them, over nodes.
ghost use Rattle.std.specs.Prelude.{◌≡◌, ◌<◌, [], ◌∷◌, ◌++◌, length, IfOk, IfErr, true, false};
ghost use Rattle.std.specs.Bool.{OnTrue, OnFalse};
ghost use Rattle.block_list.specs.Blocks.{flat, has_some, Tells};

use crate::block::Block;
use crate::nodes::Nodes;
use std::alloc::Global;
use std::mem::swap;
use std_alloc::room::{Vacant, may_hold};

/// A value that found no memory, handed back.
#[derive(Clone, Copy, Debug, PartialEq, Eq)]
pub struct Unplaced<T> {
    pub value: T,
}

/// Blocks that are linked, each of which says whether another follows.
pub struct Row<T: Copy> {
    pub nodes: Nodes<Block<T>, Global>,
}

/// Writes the value behind the last one, where the last block has room, and says whether it did.
pub fn fill<T: Copy>(row: &mut Row<T>, value: T) -> bool
    requires some { 0 < length row.old.nodes.items }
    requires tells { Tells row.old.nodes.items }
    ensures written { OnTrue result (flat row.new.nodes.items ≡ flat row.old.nodes.items ++ value ∷ []) }
    ensures full { OnFalse result (row.new.nodes.items ≡ row.old.nodes.items) }
    ensures tells { Tells row.new.nodes.items }
    ensures some { has_some row.new.nodes.items ≡ true }
{
    let last = row.nodes.back_mut();
    // A block that lies in memory is small enough: the second test only tells the proof so.
    if last.used == 16 || !may_hold::<T>(16) {
        return false;
    }
    last.items[last.used] = value;
    last.used += 1;
    true
}

/// One block that holds the value.
pub fn one<T: Copy>(alloc: Global, value: T) -> Result<Row<T>, Unplaced<T>>
    ensures ok { IfOk result (λ row. (flat row.nodes.items ≡ value ∷ []) × (has_some row.nodes.items ≡ true)
        × Tells row.nodes.items) }
    ensures err { IfErr result (λ refused. refused.value ≡ value) }
{
    match Vacant::take(alloc) {
        Ok(room) => Ok(Row {
            nodes: Nodes::one(
                room,
                Block {
                    items: [value; 16],
                    used: 1,
                    more: false,
                },
            ),
        }),
        Err(_) => Err(Unplaced { value }),
    }
}

/// Puts the other blocks behind these.
pub fn link<T: Copy>(row: &mut Row<T>, other: &mut Row<T>)
    requires some { (0 < length row.old.nodes.items) × (0 < length other.old.nodes.items) }
    requires tells { Tells row.old.nodes.items × Tells other.old.nodes.items }
    ensures items { flat row.new.nodes.items ≡ flat row.old.nodes.items ++ flat other.old.nodes.items }
    ensures tells { Tells row.new.nodes.items }
    ensures some { has_some row.new.nodes.items ≡ true }
    ensures left { other.new.nodes.items ≡ [] }
{
    row.nodes.back_mut().more = true;
    row.nodes.join(&mut other.nodes);
}

/// Puts a row behind these blocks, of which there may be none.
pub fn put_behind<T: Copy>(row: &mut Row<T>, some: bool, mut other: Row<T>)
    requires some { some ≡ has_some row.old.nodes.items }
    requires tells { Tells row.old.nodes.items }
    requires other { (has_some other.nodes.items ≡ true) × Tells other.nodes.items }
    ensures items { flat row.new.nodes.items ≡ flat row.old.nodes.items ++ flat other.nodes.items }
    ensures tells { Tells row.new.nodes.items }
    ensures some { has_some row.new.nodes.items ≡ true }
{
    if some {
        link(row, &mut other);
    } else {
        swap(row, &mut other);
    }
    end(other);
}

/// Ends a row that has no block left.
pub fn end<T: Copy>(row: Row<T>)
    requires { row.nodes.items ≡ [] }
{
    let Row { nodes } = row;
    nodes.end();
}

/// Frees all blocks, one by one.
pub fn free<T: Copy>(row: Row<T>, some: bool)
    requires some { some ≡ has_some row.nodes.items }
    requires tells { Tells row.nodes.items }
{
    let Row { mut nodes } = row;
    let mut more = some;
    while more {
        let (block, room) = nodes.unlink_front();
        more = block.more;
        drop(room.free());
    }
    nodes.end();
}
