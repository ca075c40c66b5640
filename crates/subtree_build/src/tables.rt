//! What may stand beside the tree of an index: a table of the members' means, with the boxes of the leaves' means, and a table of the
//! codes of their rows. A search looks at what there is.
ghost use Rattle.std.specs.Prelude.{◌≡◌, ◌-◌, ◌*◌, ◌<◌, ◌≤◌, ◌^◌, All, IfOk, length, take, drop};
ghost use Rattle.subtree_build.specs.BareTree.{HasSeries};
ghost use Rattle.subtree_build.specs.Places.{AreBoxes, AreTablesOf, IsPlace};

use crate::bare_tree::BareTree;
use crate::boxes::{Boxes, boxes_of};
use crate::fetched::FETCHED;
use crate::leaf::LeafPlace;
use crate::means::{Source, fill, fill_in_turn};
use crate::room::{Room, room_for};
use isax_word::Layout;
use mean_bound::Means;
use outside::NoMemory;
use row_codes::{CodeBlock, block_count};
use series_core::Rows;
use std::alloc::Global;
use std::thread::Threads;

/// The means of all members, in their order, and the boxes of the leaves' means.
#[derive(Drop)]
pub(crate) struct MeanTable {
    pub(crate) means: Vec<Means>,
    pub(crate) boxes: Boxes,
}

/// The codes of the rows of all members, in the order of the members, each of so many blocks.
#[derive(Drop)]
pub(crate) struct CodeTable {
    pub(crate) blocks: u32,
    pub(crate) codes: Vec<CodeBlock>,
}

/// Both tables.
#[derive(Drop)]
pub(crate) struct Tables {
    pub(crate) means: MeanTable,
    pub(crate) codes: CodeTable,
}

impl MeanTable {
    /// The means of the members at a place.
    #[inline(always)]
    pub(crate) fn at(&self, place: &LeafPlace) -> &[Means]
        requires { IsPlace (length self.now.means.items) place.now }
        ensures { result.now ≡ take (place.now.end - place.now.first) (drop place.now.first self.now.means.items) }
    {
        &self.means[place.first as usize..place.end as usize]
    }
}

impl CodeTable {
    /// The codes of the members at a place.
    #[inline(always)]
    pub(crate) fn at(&self, place: &LeafPlace) -> &[CodeBlock]
        requires order { place.now.first ≤ place.now.end }
        requires few { self.now.blocks ≤ 256 }
        requires inside { place.now.end * self.now.blocks ≤ length self.now.codes.items }
        ensures { let blocks = self.now.blocks in
            result.now ≡ take ((place.now.end - place.now.first) * blocks) (drop (place.now.first * blocks) self.now.codes.items) }
    {
        let blocks = self.blocks as usize;
        &self.codes[place.first as usize * blocks..place.end as usize * blocks]
    }
}

/// Tables of these means and codes, so many blocks of codes a member, with the boxes of the means at places.
fn with_boxes(
    alloc: Global,
    means: Vec<Means>,
    blocks: u32,
    codes: Vec<CodeBlock>,
    places: &[LeafPlace],
) -> Result<Tables, NoMemory>
    requires { All (IsPlace (length means.items)) places.now }
    ensures means { IfOk result (λ t. t.means.means.items ≡ means.items) }
    ensures boxes { IfOk result (λ t. AreBoxes t.means.means.items places.now t.means.boxes) }
    ensures blocks { IfOk result (λ t. t.codes.blocks ≡ blocks) }
    ensures codes { IfOk result (λ t. t.codes.codes.items ≡ codes.items) }
{
    let boxes = boxes_of(alloc, means.as_slice(), places)?;
    Ok(Tables {
        means: MeanTable { means, boxes },
        codes: CodeTable { blocks, codes },
    })
}

/// The tables of a bare tree, each of whose members is a series of the rows, in this room and what it lacks.
pub(crate) fn tables_of<H: Threads + Sync, R: Rows + Sync>(
    rt: &H,
    room: Room,
    rows: &R,
    layout: &Layout,
    bare: &BareTree,
    workers: u32,
) -> Result<Tables, NoMemory>
    requires length { layout.now.cuts.row_length ≡ (R.collection rows.now).points }
    requires series { HasSeries (R.collection rows.now) bare.now }
    requires few { length bare.now.members.items < 2 ^ 32 }
    requires places { All (IsPlace (length bare.now.members.items)) bare.now.leaves.items }
    requires some { 1 ≤ workers }
    ensures { IfOk result (AreTablesOf (R.collection rows.now) layout.now bare.now.members.items bare.now.leaves.items) }
{
    let mut room = room;
    let source = Source::of(rows, layout);
    let members = bare.members.as_slice();
    room.fit(members.len(), source.coded)?;
    let Room {
        alloc,
        mut means,
        mut codes,
    } = room;
    fill(
        rt,
        &source,
        members,
        workers,
        means.as_mut_slice(),
        codes.as_mut_slice(),
    );
    let blocks = block_count(source.coded);
    with_boxes(alloc, means, blocks, codes, bare.leaves.as_slice())
}

/// The same by a worker alone, in this thread.
pub(crate) fn tables_alone<R: Rows>(
    alloc: Global,
    rows: &R,
    layout: &Layout,
    bare: &BareTree,
) -> Result<Tables, NoMemory>
    requires length { layout.now.cuts.row_length ≡ (R.collection rows.now).points }
    requires series { HasSeries (R.collection rows.now) bare.now }
    requires few { length bare.now.members.items < 2 ^ 32 }
    requires places { All (IsPlace (length bare.now.members.items)) bare.now.leaves.items }
    ensures { IfOk result (AreTablesOf (R.collection rows.now) layout.now bare.now.members.items bare.now.leaves.items) }
{
    let source = Source::of(rows, layout);
    let members = bare.members.as_slice();
    let Room {
        alloc,
        mut means,
        mut codes,
    } = room_for(alloc, members.len(), source.coded)?;
    let mut block = [0; FETCHED];
    fill_in_turn(
        &source,
        members,
        &mut block,
        means.as_mut_slice(),
        codes.as_mut_slice(),
    );
    let blocks = block_count(source.coded);
    with_boxes(alloc, means, blocks, codes, bare.leaves.as_slice())
}
