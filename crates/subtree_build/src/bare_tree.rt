//! A tree but for the tables beside its members: what an index is made of before it has means and codes.
ghost use Rattle.std.specs.Prelude.{◌≡◌, ◌^◌, ◌<◌, All, IfOk, length, map};
ghost use Rattle.std.specs.List.{range_with_len};
ghost use Rattle.subtree_build.specs.BareTree.{HasSeries, IsBare, IsBareTreeOf};
ghost use Rattle.subtree_build.specs.Building.{HoldsRoots, IsPartAt};
ghost use Rattle.subtree_build.specs.Places.{IsPlace};

use crate::leaf::LeafPlace;
use crate::node::Node;
use crate::part::{RootPart, join_parts, placed};
use crate::settings::Settings;
use crate::splicing::RootLists;
use isax_word::Member;
use outside::NoMemory;
use series_core::Rows;
use std::alloc::Global;

/// A tree but for the tables beside its members: the root numbers and their nodes, the number of the first leaf below each node and
/// behind these that of all leaves, where the members of each leaf lie in the row of all members, and that row.
#[derive(Drop)]
pub(crate) struct BareTree {
    pub(crate) segments: u32,
    pub(crate) roots: Vec<u32>,
    pub(crate) nodes: Vec<Node>,
    pub(crate) firsts: Vec<u32>,
    pub(crate) leaves: Vec<LeafPlace>,
    pub(crate) members: Vec<Member>,
}

impl BareTree {
    /// The tree of the rows, from the parts of all root children in order.
    pub(crate) fn of_parts<R: Rows>(
        alloc: Global,
        rows: &R,
        settings: &Settings,
        found: RootLists,
        parts: Vec<RootPart>,
    ) -> Result<BareTree, NoMemory>
        requires roots { HoldsRoots settings.now.layout (R.collection rows.now) found }
        requires places { map (λ p. p.place) parts.items ≡ range_with_len 0 (length found.roots.items) }
        requires built { All (IsPartAt settings.now found) parts.items }
        ensures tree { IfOk result (IsBareTreeOf (R.collection rows.now) settings.now) }
        ensures bare { IfOk result IsBare }
        ensures few { IfOk result (λ t. length t.members.items < 2 ^ 32) }
        ensures places { IfOk result (λ t. All (IsPlace (length t.members.items)) t.leaves.items) }
        ensures series { IfOk result (HasSeries (R.collection rows.now)) }
    {
        let segments = settings.layout.cuts.segments();
        let RootLists { roots, lists } = found;
        drop(lists);
        let joined = join_parts(alloc, parts, rows.count())?;
        let leaves = placed(alloc, joined.leaves.as_slice())?;
        Ok(BareTree {
            segments,
            roots,
            nodes: joined.nodes,
            firsts: joined.firsts,
            leaves,
            members: joined.members,
        })
    }
}
