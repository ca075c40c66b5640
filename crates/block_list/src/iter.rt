//! A walk over the items of a list.
ghost use Rattle.std.specs.Prelude.{◌≡◌};
ghost use Rattle.std.specs.Iterator.{YieldsFirst, item_count};
ghost use Rattle.block_list.specs.Blocks.{flat, has_some, Tells};

use crate::block::Block;
use crate::row::Row;
use crate::walk::Walk;
use std::marker::Model;

/// The items of a list in order, each by value; seen as those that are left.
#[derive(Drop)]
pub struct Iter<'a, T: Copy> {
    walk: Walk<'a, Block<T>>,
    items: Option<[T; 16]>,
    at: usize,
    used: usize,
    more: bool,
}

impl<'a, T: Copy> Model for Iter<'a, T> {
    ghost use Rattle.std.specs.Prelude.{◌≡◌, ◌≤◌, ◌++◌, List, length};
    ghost use Rattle.block_list.specs.Blocks.{flat, has_some, Tells, left_in, IsWithin};

    ghost Value = { List T };

    ghost view = { λ it. left_in it.items it.at it.used ++ flat it.walk.items };

    ghost invariant = { λ it. IsWithin it.items it.at it.used × (it.more ≡ has_some it.walk.items) × Tells it.walk.items };
}

impl<'a, T: Copy> Iter<'a, T> {
    /// All items of a row of blocks.
    pub(crate) fn over(row: &'a Row<T>, some: bool) -> Self
        requires some { some ≡ has_some row.now.nodes.items }
        requires tells { Tells row.now.nodes.items }
        ensures { result ≡ flat row.now.nodes.items }
    {
        Iter {
            walk: row.nodes.walk(),
            items: None,
            at: 0,
            used: 0,
            more: some,
        }
    }
}

impl<T: Copy> Iterator for Iter<'_, T> {
    type Item = T;

    ghost next_gives = { YieldsFirst (λ s. s) };

    ghost remaining = { item_count (λ s. s) };

    fn next(&mut self) -> Option<T> {
        if self.at == self.used {
            if !self.more {
                return None;
            }
            let block = self.walk.step();
            self.items = Some(block.items);
            self.at = 0;
            self.used = block.used;
            self.more = block.more;
        }
        let Some(items) = self.items else {
            return None;
        };
        let item = items[self.at];
        self.at += 1;
        Some(item)
    }
}
