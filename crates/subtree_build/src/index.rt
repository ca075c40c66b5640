//! The index: a tree, and what stands beside it, if anything does: the means of its members with the boxes of the leaves' means, and the
//! codes of the members' rows. The tree alone says what is found; the tables beside it tell a search what it need not read.
ghost use Rattle.std.specs.Prelude.{◌≡◌, ◌≢◌, [], ◌*◌, ◌<◌, ◌≤◌, ◌^◌, ◌↔◌, All, IfNone, IfOk, IfSome, IsTrue, is_some, length, map, option_copied, option_map, take, drop, None, Some, slice_get, slice_index, slice_index_or};
ghost use Rattle.std.specs.List.{flat_map};
ghost use Rattle.mean_bound.specs.Boxes.{box_of, box_of_boxes};
ghost use Rattle.subtree_build.specs.Assembly.{HasMeansOf, IsOfParts, cut_lists};
ghost use Rattle.subtree_build.specs.BareTree.{HasSeries, IsBare, IsBareTreeOf, IsTreeBuilt, bare_parts};
ghost use Rattle.subtree_build.specs.Fits.{Fits, FitsByTree, IsTreeOf};
ghost use Rattle.subtree_build.specs.Index.{HasTables, IsIndex, IsTreeAlone, leaf_at, root_word_at};
ghost use Rattle.subtree_build.specs.Means.{codes_at, means_at};
ghost use Rattle.subtree_build.specs.Places.{AreTablesOf, IsPlace, IsRange};
ghost use Rattle.subtree_build.specs.Start.{node_at};

use crate::bare_tree::BareTree;
use crate::frame::Frame;
use crate::node::Node;
use crate::room::Room;
use crate::settings::Settings;
use crate::tables::{CodeTable, MeanTable, Tables, tables_alone, tables_of};
use isax_word::{Layout, Member, Word};
use mean_bound::{MeanBox, Means};
use outside::NoMemory;
use row_codes::CodeBlock;
use series_core::Rows;
use std::alloc::Global;
use std::marker::Model;
use std::thread::Threads;

/// An iSAX tree over a collection, seen as its segments, root numbers, root children's nodes and leaves, and what stands beside these.
#[derive(Drop)]
pub struct Index {
    tree: BareTree,
    mean_table: Option<MeanTable>,
    code_table: Option<CodeTable>,
}

impl Model for Index {
    ghost use Rattle.std.specs.Coded.{codes};
    ghost use Rattle.subtree_build.specs.contracts.node.Node as node;
    ghost use Rattle.subtree_build.specs.BareTree.{AreBeside, IsBare, parts_with};
    ghost use Rattle.subtree_build.specs.Index.{IndexParts};

    ghost Value = { IndexParts };

    ghost coded = { Prim.hlevel (codes, node.the_row.coded) };

    ghost view = { λ x. parts_with x.tree x.mean_table x.code_table };

    ghost invariant = { λ x. IsBare x.tree × AreBeside x.tree x.mean_table x.code_table };
}

impl Index {
    /// The index of a bare tree with the tables of its members, which are series of the rows.
    fn of_bare<R: Rows>(rows: &R, layout: &Layout, bare: BareTree, tables: Tables) -> Index
        requires bare { IsBare bare }
        requires series { HasSeries (R.collection rows.now) bare }
        requires tables { AreTablesOf (R.collection rows.now) layout.now bare.members.items bare.leaves.items tables }
        ensures { HasMeansOf (R.collection rows.now) layout.now (bare_parts bare) result }
    {
        let _ = layout;
        // for the fact that the rows are a collection
        let _count = rows.count();
        Index {
            tree: bare,
            mean_table: Some(tables.means),
            code_table: Some(tables.codes),
        }
    }

    /// The index of a bare tree, which is that of the rows, with the tables of its members.
    pub(crate) fn of_tree<R: Rows>(
        rows: &R,
        settings: &Settings,
        bare: BareTree,
        tables: Tables,
    ) -> Index
        requires tree { IsBareTreeOf (R.collection rows.now) settings.now bare }
        requires bare { IsBare bare }
        requires series { HasSeries (R.collection rows.now) bare }
        requires tables { let places = bare.leaves.items in
            AreTablesOf (R.collection rows.now) settings.now.layout bare.members.items places tables }
        ensures tree { IsTreeOf (R.collection rows.now) settings.now.layout settings.now.leaf_size result }
        ensures fits { Fits (R.collection rows.now) settings.now.layout result }
        ensures tables { HasTables result }
    {
        // for the fact that the cuts divide a series
        let _segments = settings.layout.cuts.segments();
        Index::of_bare(rows, &settings.layout, bare, tables)
    }

    /// The index of a tree that was built of the rows, with nothing beside it.
    pub(crate) fn of_tree_alone<R: Rows>(rows: &R, settings: &Settings, bare: BareTree) -> Index
        requires { IsTreeBuilt (R.collection rows.now) settings.now bare }
        ensures tree { IsTreeOf (R.collection rows.now) settings.now.layout settings.now.leaf_size result }
        ensures fits { Fits (R.collection rows.now) settings.now.layout result }
        ensures alone { IsTreeAlone result }
    {
        let _ = rows;
        // for the fact that the cuts divide a series
        let _segments = settings.layout.cuts.segments();
        Index {
            tree: bare,
            mean_table: None,
            code_table: None,
        }
    }

    /// The tree of this index, whose members are series of the rows, without its tables.
    fn into_bare<R: Rows>(self, rows: &R) -> BareTree
        requires { All (λ x. All (λ m. m.number < length (R.collection rows.now).series) x.members) self.leaves }
        ensures bare { IsBare result }
        ensures few { length result.members.items < 2 ^ 32 }
        ensures places { All (IsPlace (length result.members.items)) result.leaves.items }
        ensures series { HasSeries (R.collection rows.now) result }
        ensures same { bare_parts result ≡ record self { means = None; codes = None } }
    {
        let _ = rows;
        self.tree
    }

    /// The same tree, with nothing beside it. It fits what its tree fits, so it can be searched, as slowly as its words alone allow.
    pub fn without_tables(self) -> Index
        ensures tree { result ≡ record self { means = None; codes = None } }
        ensures fits { FitsByTree self result }
    {
        Index {
            tree: self.tree,
            mean_table: None,
            code_table: None,
        }
    }

    /// The index of a frame and its members, in the order of its leaves: each leaf has the next so many of them. None where there are not as many
    /// as the frame has places for, and only there. Nothing stands beside its tree: `with_means` puts the tables there.
    pub fn of_frame(frame: Frame, members: Vec<Member>) -> Option<Index>
        ensures parts { IfSome result (IsOfParts frame.segments frame.roots frame.nodes (cut_lists frame.counts members.items)) }
        ensures whole { IfSome result (λ _. length members.items ≡ frame.members) }
        ensures none { IfNone result (length members.items ≢ frame.members) }
    {
        if members.len() != frame.members as usize {
            return None;
        }
        Some(Index {
            tree: BareTree {
                segments: frame.segments,
                roots: frame.roots,
                nodes: frame.nodes,
                firsts: frame.firsts,
                leaves: frame.leaves,
                members,
            },
            mean_table: None,
            code_table: None,
        })
    }

    /// The same tree with the means of its members by these rows, each member a series of them, made by 1 or more workers.
    pub fn with_means<H: Threads + Sync, R: Rows + Sync>(
        self,
        rt: &H,
        alloc: Global,
        rows: &R,
        layout: &Layout,
        workers: u32,
    ) -> Result<Index, NoMemory>
        requires length { layout.now.cuts.row_length ≡ (R.collection rows.now).points }
        requires series { All (λ x. All (λ m. m.number < length (R.collection rows.now).series) x.members) self.leaves }
        requires some { 1 ≤ workers }
        ensures { IfOk result (HasMeansOf (R.collection rows.now) layout.now self) }
    {
        let bare = self.into_bare(rows);
        let tables = tables_of(rt, Room::none(alloc), rows, layout, &bare, workers)?;
        Ok(Index::of_bare(rows, layout, bare, tables))
    }

    /// The same by one worker, in the caller's thread: it wants no leave to start threads.
    pub fn with_means_alone<R: Rows>(
        self,
        alloc: Global,
        rows: &R,
        layout: &Layout,
    ) -> Result<Index, NoMemory>
        requires length { layout.now.cuts.row_length ≡ (R.collection rows.now).points }
        requires series { All (λ x. All (λ m. m.number < length (R.collection rows.now).series) x.members) self.leaves }
        ensures { IfOk result (HasMeansOf (R.collection rows.now) layout.now self) }
    {
        let bare = self.into_bare(rows);
        let tables = tables_alone(alloc, rows, layout, &bare)?;
        Ok(Index::of_bare(rows, layout, bare, tables))
    }

    /// How many leaves there are.
    pub fn leaf_count(&self) -> u32
        ensures count { result ≡ length self.now.leaves }
        ensures is_index { IsIndex self.now }
    {
        self.tree.leaves.len() as u32
    }

    /// How many root children there are.
    pub fn root_count(&self) -> u32
        ensures count { result ≡ length self.now.roots }
        ensures is_index { IsIndex self.now }
    {
        self.tree.roots.len() as u32
    }

    /// The node of root child number `i`, counted from 0 in the order of the root numbers.
    pub fn root(&self, i: u32) -> &Node
        requires { i < length self.now.roots }
        ensures { slice_get self.now.nodes i ≡ Some result.now }
    {
        &self.tree.nodes[i as usize]
    }

    /// The leaves below root child number `i`, in order: those from the first of the two numbers up to but not including
    /// the second.
    pub fn root_leaves(&self, i: u32) -> (u32, u32)
        requires { i < length self.now.roots }
        ensures { IsRange (length self.now.leaves) result.0 result.1 (node_at self.now i) }
    {
        let i = i as usize;
        (self.tree.firsts[i], self.tree.firsts[i + 1])
    }

    /// The root number of root child number `i`, of one bit for each segment.
    pub fn root_number(&self, i: u32) -> u32
        requires { i < length self.now.roots }
        ensures value { result ≡ slice_index self.now.roots i }
        ensures bits { result < 2 ^ self.now.segments }
    {
        self.tree.roots[i as usize]
    }

    /// The word of root child number `i`, which has one bit in each segment.
    pub fn root_word(&self, i: u32) -> Word
        requires { i < length self.now.roots }
        ensures value { result ≡ root_word_at self.now i }
        ensures segments { length result ≡ self.now.segments }
    {
        Word::of_root(self.tree.roots[i as usize], self.tree.segments)
    }

    /// The word of leaf number `l`.
    pub fn leaf_word(&self, l: u32) -> &Word
        requires { l < length self.now.leaves }
        ensures { result.now ≡ (leaf_at self.now.leaves l).word }
    {
        &self.tree.leaves[l as usize].word
    }

    /// The members of all leaves, leaf after leaf.
    pub fn members(&self) -> &[Member]
        ensures { result.now ≡ flat_map (λ x. x.members) self.now.leaves }
    {
        &self.tree.members
    }

    /// Whether it has the means of its members.
    #[inline(always)]
    pub fn has_means(&self) -> bool
        ensures { result ≡ is_some self.now.means }
    {
        self.mean_table.is_some()
    }

    /// Whether it has the codes of its members' rows.
    #[inline(always)]
    pub fn has_codes(&self) -> bool
        ensures { result ≡ is_some self.now.codes }
    {
        self.code_table.is_some()
    }

    /// Whether it has both.
    #[inline(always)]
    pub fn has_tables(&self) -> bool
        ensures { IsTrue result ↔ HasTables self.now }
    {
        self.has_means() && self.has_codes()
    }

    /// The codes of the members of all leaves, in the order of the members: each has those of its row. None where it has no codes.
    pub fn codes(&self) -> Option<&[CodeBlock]>
        ensures { option_copied result ≡ option_map (flat_map (λ codes. codes)) self.now.codes }
    {
        match &self.code_table {
            Some(table) => Some(&table.codes),
            None => None,
        }
    }

    /// The members of leaf number `l`, in the order in which they are listed.
    pub fn leaf_members(&self, l: u32) -> &[Member]
        requires { l < length self.now.leaves }
        ensures { result.now ≡ (leaf_at self.now.leaves l).members }
    {
        let place = &self.tree.leaves[l as usize];
        &self.tree.members[place.first as usize..place.end as usize]
    }

    /// The means of the members of leaf number `l`, in the order of the members. None where it has no means.
    pub fn leaf_means(&self, l: u32) -> &[Means]
        requires { l < length self.now.leaves }
        ensures { result.now ≡ means_at self.now.means l }
    {
        match &self.mean_table {
            Some(table) => table.at(&self.tree.leaves[l as usize]),
            None => &[],
        }
    }

    /// The codes of the members of leaf number `l`, in the order of the members: as many for each as its row has blocks. None where it
    /// has no codes.
    pub fn leaf_codes(&self, l: u32) -> &[CodeBlock]
        requires { l < length self.now.leaves }
        ensures { result.now ≡ codes_at self.now.codes l }
    {
        match &self.code_table {
            Some(table) => table.at(&self.tree.leaves[l as usize]),
            None => &[],
        }
    }

    /// The box of the means of the members of leaf number `l`. None where it has no means.
    pub fn leaf_box(&self, l: u32) -> Option<&MeanBox>
        requires { l < length self.now.leaves }
        ensures { option_copied result ≡ option_map (λ means. box_of (slice_index_or means l [])) self.now.means }
    {
        match &self.mean_table {
            Some(table) => Some(&table.boxes.leaves[l as usize]),
            None => None,
        }
    }

    /// The box of the means of all members of group number `g`: of 16 leaves, from number `16 * g` on, or those that are left. None where it
    /// has no means.
    pub fn group_box(&self, g: u32) -> Option<&MeanBox>
        requires { g * 16 < length self.now.leaves }
        ensures { option_copied result
            ≡ option_map (λ means. box_of_boxes (map box_of (take 16 (drop (g * 16) means)))) self.now.means }
    {
        match &self.mean_table {
            Some(table) => Some(&table.boxes.groups[g as usize]),
            None => None,
        }
    }

    /// The box of the means of all members of wide group number `g`: of 256 leaves, from number `256 * g` on, or those that are left. None
    /// where it has no means.
    pub fn wide_group_box(&self, g: u32) -> Option<&MeanBox>
        requires { g * 256 < length self.now.leaves }
        ensures { option_copied result
            ≡ option_map (λ means. box_of_boxes (map box_of (take 256 (drop (g * 256) means)))) self.now.means }
    {
        match &self.mean_table {
            Some(table) => Some(&table.boxes.wide_groups[g as usize]),
            None => None,
        }
    }

    /// How many segments the words have, from 1 to 16.
    pub fn segments(&self) -> u32
        ensures count { result ≡ self.now.segments }
        ensures is_index { IsIndex self.now }
    {
        self.tree.segments
    }
}
