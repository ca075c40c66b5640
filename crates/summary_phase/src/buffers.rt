//! The buffers of one worker: a list of members for each root number.
ghost use Rattle.std.specs.Prelude.{◌≡◌, ◌<◌, ◌≤◌, [], ◌∷◌, ◌++◌, IfOk, OnOk, length, replicate, slice_index_or, slice_set};

use block_list::BlockList;
use isax_word::Member;
use outside::NoMemory;
use std::alloc::Global;
use std::marker::Model;
use std::mem;

/// A list of members for each root number, seen as the list of these lists.
#[derive(Drop)]
pub struct Buffers {
    lists: Vec<BlockList<Member>>,
}

impl Model for Buffers {
    ghost use Rattle.std.specs.Prelude.{List};
    ghost use Rattle.isax_word.specs.declared.member.Member.{Member};

    ghost Value = { List (List Member) };

    ghost view = { λ buffers. buffers.lists.items };
}

impl Buffers {
    /// An empty list for each of 2 to 65536 root numbers.
    pub fn new(alloc: Global, roots: u32) -> Result<Buffers, NoMemory>
        requires some { 2 ≤ roots }
        requires limit { roots ≤ 65536 }
        ensures { IfOk result (λ buffers. buffers ≡ replicate roots []) }
    {
        let mut lists = Vec::with_capacity(alloc, roots as usize)?;
        for _root in 0..roots {
            lists.push_reserved(BlockList::new());
        }
        Ok(Buffers { lists })
    }

    /// Hands out the members of a root, which is left without members. It takes no memory.
    pub fn take(&mut self, root: u32) -> BlockList<Member>
        requires { root < length self.old }
        ensures taken { result ≡ slice_index_or self.old root [] }
        ensures left { self.new ≡ slice_set self.old root [] }
    {
        mem::replace(&mut self.lists[root as usize], BlockList::new())
    }

    /// Puts a member behind those of a root.
    pub(crate) fn put(&mut self, alloc: Global, root: u32, member: Member) -> Result<(), NoMemory>
        requires { root < length self.old }
        ensures { let members = slice_index_or self.old root [] ++ member ∷ [] in
            OnOk result (self.new ≡ slice_set self.old root members) }
    {
        let list = &mut self.lists[root as usize];
        match list.push(alloc, member) {
            Ok(()) => Ok(()),
            Err(_) => Err(NoMemory),
        }
    }
}
