//! All of an index but its members: a tree whose leaves are known by how many members each has. Whether parts make one is tested, and so a
//! frame and as many members make an index with no further test: the members may come later, made beside it.
ghost use Rattle.std.specs.Prelude.{◌≡◌, ◌^◌, ◌<◌, ◌≤◌, IfOk, IsErrOf, OnOk, length};
ghost use Rattle.subtree_build.specs.Assembly.{AddUp, MakeIndex};
ghost use Rattle.subtree_build.specs.declared.assembly.Assembly.TheVariants.{Parts};

use crate::assembly::{Assembly, make_index};
use crate::leaf::LeafPlace;
use crate::leaf_row::{LeafWords, add_up, counted_leaves, words_below};
use crate::node::Node;
use crate::part::placed;
use outside::NoMemory;
use std::alloc::Global;
use std::marker::Model;

/// A tree and the places of its leaves' members, seen as its segments, root numbers and root children's nodes, how many members each leaf has,
/// and how many all have.
#[derive(Drop)]
pub struct Frame {
    pub(crate) segments: u32,
    pub(crate) roots: Vec<u32>,
    pub(crate) nodes: Vec<Node>,
    pub(crate) counts: Vec<u32>,
    pub(crate) firsts: Vec<u32>,
    pub(crate) leaves: Vec<LeafPlace>,
    pub(crate) members: u32,
}

impl Model for Frame {
    ghost use Rattle.std.specs.Coded.{codes};
    ghost use Rattle.subtree_build.specs.contracts.node.Node as node;
    ghost use Rattle.subtree_build.specs.Frame.{FrameParts, IsFrame, frame_parts};

    ghost Value = { FrameParts };

    ghost coded = { Prim.hlevel (codes, node.the_row.coded) };

    ghost view = { λ x. frame_parts x.segments x.roots.items x.nodes.items x.counts.items x.members };

    ghost invariant = { λ x. IsFrame x.segments x.roots.items x.nodes.items x.counts.items x.firsts.items x.leaves.items x.members };
}

impl Frame {
    /// The frame of these parts: leaves are words by their nodes, and each has the next so many of `members` members. Parts where they make no
    /// index or the counts do not add up to the members, and only there.
    pub fn of(
        alloc: Global,
        segments: u32,
        roots: Vec<u32>,
        nodes: Vec<Node>,
        counts: Vec<u32>,
        members: u32,
    ) -> Result<Frame, Assembly>
        requires some_segments { 1 ≤ segments }
        requires few_segments { segments ≤ 16 }
        requires few_leaves { length counts.items < 2 ^ 32 }
        ensures parts { IfOk result (λ f. f ≡ record {
          segments = segments;
          roots = roots.items;
          nodes = nodes.items;
          counts = counts.items;
          members = members;
        }) }
        ensures made { OnOk result (MakeIndex segments roots.items nodes.items (length counts.items)) }
        ensures whole { OnOk result (AddUp counts.items members) }
        ensures refused { IsErrOf result Parts → MakeIndex segments roots.items nodes.items (length counts.items)
            → ¬ AddUp counts.items members }
    {
        let count = counts.len() as u32;
        if !make_index(segments, roots.as_slice(), nodes.as_slice(), count) {
            return Err(Assembly::Parts);
        }
        if !add_up(counts.as_slice(), members as usize) {
            return Err(Assembly::Parts);
        }
        Ok(Frame::of_parts(alloc, segments, roots, nodes, counts, members)?)
    }

    /// The frame of parts that make an index.
    fn of_parts(
        alloc: Global,
        segments: u32,
        roots: Vec<u32>,
        nodes: Vec<Node>,
        counts: Vec<u32>,
        members: u32,
    ) -> Result<Frame, NoMemory>
        requires some_segments { 1 ≤ segments }
        requires few_segments { segments ≤ 16 }
        requires few_leaves { length counts.items < 2 ^ 32 }
        requires made { MakeIndex segments roots.items nodes.items (length counts.items) }
        requires whole { AddUp counts.items members }
        ensures { IfOk result (λ f. f ≡ record {
          segments = segments;
          roots = roots.items;
          nodes = nodes.items;
          counts = counts.items;
          members = members;
        }) }
    {
        let LeafWords { words, firsts } = words_below(
            alloc,
            segments,
            roots.as_slice(),
            nodes.as_slice(),
        )?;
        let own = counted_leaves(alloc, words.as_slice(), counts.as_slice())?;
        let leaves = placed(alloc, own.as_slice())?;
        Ok(Frame {
            segments,
            roots,
            nodes,
            counts,
            firsts,
            leaves,
            members,
        })
    }
}
