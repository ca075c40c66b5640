//! The list: rows of blocks seen as their items.
ghost use Rattle.std.specs.Prelude.{◌≡◌, [], ◌∷◌, ◌++◌, OnOk, OnErr, IfErr};

use crate::iter::Iter;
use crate::nodes::Nodes;
use crate::row::{Row, Unplaced, end, fill, free, one, put_behind};
use std::alloc::Global;
use std::marker::Model;

/// Items in linked blocks of sixteen, seen as the list of them.
pub struct BlockList<T: Copy> {
    row: Row<T>,
    some: bool,
}

impl<T: Copy> Model for BlockList<T> {
    ghost use Rattle.std.specs.Prelude.{◌≡◌, List};
    ghost use Rattle.block_list.specs.Blocks.{flat, has_some, Tells};

    ghost Value = { List T };

    ghost view = { λ l. flat l.row.nodes.items };

    ghost invariant = { λ l. (l.some ≡ has_some l.row.nodes.items) × Tells l.row.nodes.items };
}

impl<T: Copy> BlockList<T> {
    /// No item. It takes no memory.
    pub fn new() -> Self
        ensures { result ≡ [] }
    {
        BlockList {
            row: Row {
                nodes: Nodes::new(),
            },
            some: false,
        }
    }

    /// Puts an item behind the others. It is refused for want of memory alone, and then nothing changes.
    pub fn push(&mut self, alloc: Global, value: T) -> Result<(), Unplaced<T>>
        ensures ok { OnOk result (self.new ≡ self.old ++ value ∷ []) }
        ensures err { OnErr result (self.new ≡ self.old) }
        ensures value_returned { IfErr result (λ refused. refused.value ≡ value) }
    {
        if self.some && fill(&mut self.row, value) {
            return Ok(());
        }
        match one(alloc, value) {
            Ok(row) => {
                put_behind(&mut self.row, self.some, row);
                self.some = true;
                Ok(())
            }
            Err(refused) => Err(refused),
        }
    }

    /// Puts the items of the other list behind these, by a few pointer writes. It takes no memory.
    pub fn append(&mut self, other: BlockList<T>)
        ensures { self.new ≡ self.old ++ other }
    {
        let BlockList { row, some } = other;
        if some {
            put_behind(&mut self.row, self.some, row);
            self.some = true;
        } else {
            end(row);
        }
    }

    /// The items in order.
    pub fn iter(&self) -> Iter<'_, T>
        ensures { result ≡ self.now }
    {
        Iter::over(&self.row, self.some)
    }
}

impl<T: Copy> Drop for BlockList<T> {
    fn drop(self) {
        let BlockList { row, some } = self;
        free(row, some);
    }
}
