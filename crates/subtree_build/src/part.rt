//! The parts of the tree: a root child with all below it, as one worker builds it, and how parts are put together.
ghost use Rattle.std.specs.Prelude.{◌≡◌, ◌+◌, ◌^◌, ◌<◌, All, length, map, flat_map, IfOk, IsPermutation};
ghost use Rattle.list_totals.specs.Totals.{total};
ghost use Rattle.subtree_build.specs.Building.{CanBuild, IsPartAt};
ghost use Rattle.subtree_build.specs.Grown.{members_in};
ghost use Rattle.subtree_build.specs.Members.{NumbersDiffer, by_number};
ghost use Rattle.subtree_build.specs.Outline.{outline, moved_up, AllLeaves};
ghost use Rattle.subtree_build.specs.Parts.{leaves_in, joined_nodes, part_firsts, NumbersWithin};
ghost use Rattle.subtree_build.specs.Places.{places_from};

use crate::leaf::{GrownLeaf, LeafPlace};
use crate::node::Node;
use crate::settings::Settings;
use crate::splicing::RootLists;
use crate::subtree::subtree;
use block_list::BlockList;
use isax_word::{Member, Word};
use outside::NoMemory;
use std::alloc::Global;

/// A root child: its place among the root children, its node, whose leaves are numbered from 0, these leaves, and the
/// members of all of them in a row.
#[derive(Drop)]
pub(crate) struct RootPart {
    pub(crate) place: u64,
    pub(crate) node: Node,
    pub(crate) leaves: Vec<GrownLeaf>,
    pub(crate) members: Vec<Member>,
}

/// All parts in one: the nodes, the number of the first leaf below each of them and behind these that of all leaves, the
/// leaves, and the members of all of them in a row.
#[derive(Drop)]
pub(crate) struct Joined {
    pub(crate) nodes: Vec<Node>,
    pub(crate) firsts: Vec<u32>,
    pub(crate) leaves: Vec<GrownLeaf>,
    pub(crate) members: Vec<Member>,
}

/// How many members a list has, for the memory that they take.
fn count_of(list: &BlockList<Member>) -> usize {
    let mut count = 0usize;
    for _member in list.iter() {
        count = count.saturating_add(1);
    }
    count
}

/// The members of a list in one vector, for which memory is taken once.
fn gathered(alloc: Global, list: &BlockList<Member>) -> Result<Vec<Member>, NoMemory>
    ensures { IfOk result (λ members. members.items ≡ list.now) }
{
    let mut members = Vec::with_capacity(alloc, count_of(list))?;
    for member in list.iter() {
        members.push(member)?;
    }
    Ok(members)
}

/// The members ascending by number.
fn sort_members(members: &mut Vec<Member>)
    requires { NumbersDiffer members.old.items }
    ensures sorted { members.new.items ≡ by_number members.old.items }
    ensures moved { IsPermutation members.old.items members.new.items }
{
    members.sort_unstable_by_key(|member| member.number);
}

impl RootPart {
    /// The root child at a place, from its members in any order.
    pub(crate) fn of_place(
        alloc: Global,
        settings: &Settings,
        found: &RootLists,
        place: u64,
    ) -> Result<RootPart, NoMemory>
        requires place { place < length found.now.roots.items }
        requires found { CanBuild settings.now found.now }
        ensures part { IfOk result (IsPartAt settings.now found.now) }
        ensures place { IfOk result (λ part. part.place ≡ place) }
    {
        let root = found.root_at(place);
        let word = Word::of_root(root, settings.layout.cuts.segments());
        let list = found.list_at(place);
        let mut members = gathered(alloc, list)?;
        sort_members(&mut members);
        let mut scratch = members.to_vec(alloc)?;
        let mut leaves = Vec::new(alloc);
        let node = subtree(
            alloc,
            settings.leaf_size,
            &word,
            members.as_mut_slice(),
            scratch.as_mut_slice(),
            &mut leaves,
        )?;
        Ok(RootPart {
            place,
            node,
            leaves,
            members,
        })
    }
}

/// Moves the numbers of all leaves below a node up.
fn renumber(node: &mut Node, by: u32)
    requires { AllLeaves (λ l. l + by < 2 ^ 32) (outline node.old) }
    ensures { outline node.new ≡ moved_up by (outline node.old) }
{
    match node {
        Node::Leaf(number) => *number += by,
        Node::Split { low, high, .. } => {
            if let Some(low) = low {
                renumber(low, by);
            }
            if let Some(high) = high {
                renumber(high, by);
            }
        }
    }
}

/// The parts in one: leaves are numbered on from part to part, and the members of all parts, of which there are `count`,
/// lie behind one another.
pub(crate) fn join_parts(
    alloc: Global,
    parts: Vec<RootPart>,
    count: u32,
) -> Result<Joined, NoMemory>
    requires within { All NumbersWithin parts.items }
    requires few { total leaves_in parts.items < 2 ^ 32 }
    ensures nodes { IfOk result (λ r. map outline r.nodes.items ≡ joined_nodes 0 parts.items) }
    ensures firsts { IfOk result (λ r. r.firsts.items ≡ part_firsts 0 parts.items) }
    ensures leaves { IfOk result (λ r. r.leaves.items ≡ flat_map (λ p. p.leaves.items) parts.items) }
    ensures members { IfOk result (λ r. r.members.items ≡ flat_map (λ p. p.members.items) parts.items) }
{
    let mut nodes = Vec::with_capacity(alloc, parts.len())?;
    let mut firsts = Vec::new(alloc);
    firsts.push(0)?;
    let mut leaves = Vec::new(alloc);
    let mut members = Vec::with_capacity(alloc, count as usize)?;
    for part in parts {
        let RootPart {
            mut node,
            leaves: mut own,
            members: mut own_members,
            ..
        } = part;
        let first = leaves.len() as u32;
        renumber(&mut node, first);
        nodes.push(node)?;
        leaves.append(&mut own)?;
        members.append(&mut own_members)?;
        let end = leaves.len() as u32;
        firsts.push(end)?;
    }
    Ok(Joined {
        nodes,
        firsts,
        leaves,
        members,
    })
}

/// Where the members of each leaf lie in the row of all members.
pub(crate) fn placed(alloc: Global, leaves: &[GrownLeaf]) -> Result<Vec<LeafPlace>, NoMemory>
    requires { members_in leaves.now < 2 ^ 32 }
    ensures { IfOk result (λ places. places.items ≡ places_from 0 leaves.now) }
{
    let mut places = Vec::with_capacity(alloc, leaves.len())?;
    let mut first = 0;
    for leaf in leaves {
        let end = first + leaf.count;
        places.push(LeafPlace {
            word: leaf.word,
            first,
            end,
        })?;
        first = end;
    }
    Ok(places)
}
