//! Between the phases: for each root number that some series has, the lists of all workers in one.
ghost use Rattle.std.specs.Prelude.{◌≡◌, ◌<◌, All, IfOk, OnOk, length, map, filter, not};
ghost use Rattle.std.specs.List.{range_with_len};
ghost use Rattle.summary_phase.specs.Roots.{root_of_all};
ghost use Rattle.subtree_build.specs.Building.{root_at, list_at};
ghost use Rattle.subtree_build.specs.Splicing.{emptied, has_members, kept_if};

use block_list::BlockList;
use isax_word::Member;
use outside::NoMemory;
use std::alloc::Global;
use summary_phase::Buffers;

/// The root numbers that some series has, ascending, and for each of them the members under it in one list.
#[derive(Drop)]
pub(crate) struct RootLists {
    pub(crate) roots: Vec<u32>,
    pub(crate) lists: Vec<BlockList<Member>>,
}

impl RootLists {
    /// The root number of the root child at a place.
    pub(crate) fn root_at(&self, place: u64) -> u32
        requires { place < length self.now.roots.items }
        ensures { result ≡ root_at self.now place }
    {
        self.roots[place as usize]
    }

    /// The members of the root child at a place.
    pub(crate) fn list_at(&self, place: u64) -> &BlockList<Member>
        requires { place < length self.now.lists.items }
        ensures { result.now ≡ list_at self.now place }
    {
        &self.lists[place as usize]
    }
}

/// Whether a list has no item.
fn is_empty(list: &BlockList<Member>) -> bool
    ensures { result ≡ not (has_members list.now) }
{
    list.iter().next().is_none()
}

/// Takes the members of a root out of all buffers, into one list.
fn spliced(buffers: &mut [Buffers], root: u32) -> BlockList<Member>
    requires { All (λ b. root < length b) buffers.old }
    ensures list { result ≡ root_of_all buffers.old root }
    ensures left { buffers.new ≡ map (emptied root) buffers.old }
{
    let mut list = BlockList::new();
    for own in buffers.iter_mut() {
        list.append(own.take(root));
    }
    list
}

/// Keeps a root number and its list, where there are members.
fn keep(found: &mut RootLists, root: u32, list: BlockList<Member>) -> Result<(), NoMemory>
    ensures roots { let kept = kept_if (has_members list) found.old.roots.items root in
        OnOk result (found.new.roots.items ≡ kept) }
    ensures lists { let kept = kept_if (has_members list) found.old.lists.items list in
        OnOk result (found.new.lists.items ≡ kept) }
{
    if is_empty(&list) {
        return Ok(());
    }
    found.roots.push(root)?;
    found.lists.push(list)?;
    Ok(())
}

/// The lists of all root numbers below `roots` that have members in the buffers of some worker.
pub(crate) fn splice(
    alloc: Global,
    roots: u32,
    buffers: &mut [Buffers],
) -> Result<RootLists, NoMemory>
    requires { All (λ b. length b ≡ roots) buffers.old }
    ensures roots { IfOk result (λ r. r.roots.items
        ≡ filter (λ root. has_members (root_of_all buffers.old root)) (range_with_len 0 roots)) }
    ensures lists { IfOk result (λ r. r.lists.items ≡ map (root_of_all buffers.old) r.roots.items) }
{
    let mut found = RootLists {
        roots: Vec::new(alloc),
        lists: Vec::new(alloc),
    };
    for root in 0..roots {
        let list = spliced(buffers, root);
        keep(&mut found, root, list)?;
    }
    Ok(found)
}
