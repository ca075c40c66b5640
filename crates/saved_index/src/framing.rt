//! The frame of a saved index and its members by their numbers: all that its text says. What the members' full words are the rows say, and so
//! these can be made beside it.
ghost use Rattle.std.specs.Prelude.{◌≡◌, ◌^◌, ◌<◌, ◌≤◌, IfErr, IfOk, IfSome, length};
ghost use Rattle.saved_index.specs.Faults.{layout_for};
ghost use Rattle.saved_index.specs.Fields.{header_of};
ghost use Rattle.saved_index.specs.Framing.{IsFramed, IsWorded};
ghost use Rattle.saved_index.specs.Loading.{IsPutTogether, IsSavedFor, Refuses};
ghost use Rattle.subtree_build.specs.Assembly.{AddUp, MakeIndex};
ghost use Rattle.saved_index.specs.Reading.{header_at};
ghost use Rattle.subtree_build.specs.Frame.{frame_parts};

use crate::error::IndexFault;
use crate::header::read_header;
use crate::loading::LoadedIndex;
use crate::reading::{Spelled, read_saved};
use crate::roots::RootsAt;
use isax_word::{Layout, Member};
use outside::NoMemory;
use search_limits::MOST_TEXT_BYTES;
use series_core::Rows;
use std::alloc::Global;
use subtree_build::{Assembly, Frame, Index, Node, Settings};

/// What a text says: the settings of its index, its frame, and its members in a row, which have numbers, and full words later.
#[derive(Drop)]
pub(crate) struct Framed {
    pub(crate) settings: Settings,
    pub(crate) frame: Frame,
    pub(crate) members: Vec<Member>,
}

/// The layout of the header of the bytes; None where they begin with none, or with one of series of another length or of another count than
/// the rows.
pub(crate) fn layout_at<R: Rows>(bytes: &[u8], rows: &R) -> Option<Layout>
    ensures layout { IfSome result (λ layout. layout ≡ layout_for (header_at bytes.now)) }
    ensures length { IfSome result (λ layout. layout.cuts.row_length ≡ (R.collection rows.now).points) }
{
    let fields = read_header(bytes)?;
    if fields.length != rows.length() || fields.count != rows.count() {
        return None;
    }
    Some(fields.settings().layout)
}

/// What the bytes are the text of, where that is an index over series of these rows' length and count.
fn read_for<R: Rows>(alloc: Global, bytes: &[u8], rows: &R) -> Result<Spelled, IndexFault>
    requires { length bytes.now ≤ MOST_TEXT_BYTES }
    ensures read { IfOk result (IsSavedFor (R.collection rows.now) bytes.now) }
    ensures refused { IfErr result (Refuses (R.collection rows.now) bytes.now) }
{
    let read = match read_saved(alloc, bytes) {
        Ok(read) => read,
        Err(e) => return Err(e),
    };
    let fields = &read.fields;
    if fields.length != rows.length() {
        return Err(IndexFault::Length(fields.length, rows.length()));
    }
    if fields.count != rows.count() {
        return Err(IndexFault::Count(fields.count, rows.count()));
    }
    Ok(read)
}

/// The settings that what was read of the bytes was saved with, which are for series of the rows' length.
fn settings_of<R: Rows>(bytes: &[u8], rows: &R, read: &Spelled) -> Settings
    requires { IsSavedFor (R.collection rows.now) bytes.now read.now }
    ensures layout { result.layout ≡ layout_for (header_of read.now.fields) }
    ensures leaf_size { result.leaf_size ≡ read.now.fields.leaf_size }
    ensures length { result.layout.cuts.row_length ≡ (R.collection rows.now).points }
{
    let _ = bytes;
    let _ = rows;
    read.fields.settings()
}

/// The frame of root children that were read, whose leaves have so many members each, and `members` together.
fn frame_of(
    alloc: Global,
    layout: &Layout,
    roots: Vec<u32>,
    nodes: Vec<Node>,
    counts: Vec<u32>,
    members: u32,
) -> Result<Frame, NoMemory>
    requires make { MakeIndex layout.now.cuts.segments roots.items nodes.items (length counts.items) }
    requires few { length counts.items < 2 ^ 32 }
    requires whole { AddUp counts.items members }
    ensures { IfOk result (λ f. f ≡ frame_parts layout.now.cuts.segments roots.items nodes.items counts.items members) }
{
    let segments = layout.cuts.segments();
    match Frame::of(alloc, segments, roots, nodes, counts, members) {
        Ok(frame) => Ok(frame),
        Err(Assembly::Parts) => unreachable!(),
        Err(Assembly::NoMemory) => Err(NoMemory),
    }
}

/// What the bytes are framed as, where they are the text of an index over series of these rows' length and count.
pub(crate) fn read_framed<R: Rows>(
    alloc: Global,
    bytes: &[u8],
    rows: &R,
) -> Result<Framed, IndexFault>
    requires { length bytes.now ≤ MOST_TEXT_BYTES }
    ensures read { IfOk result (IsFramed (R.collection rows.now) bytes.now) }
    ensures refused { IfErr result (Refuses (R.collection rows.now) bytes.now) }
{
    let read = match read_for(alloc, bytes, rows) {
        Ok(read) => read,
        Err(e) => return Err(e),
    };
    let settings = settings_of(bytes, rows, &read);
    let RootsAt {
        roots,
        nodes,
        lists,
        ..
    } = read.found;
    let row = lists.into_members(rows, &settings.layout);
    let many = row.members.len() as u32;
    let frame = frame_of(alloc, &settings.layout, roots, nodes, row.counts, many)?;
    Ok(Framed {
        settings,
        frame,
        members: row.members,
    })
}

/// What was framed, put together with its members, each of which has the full word of its series. It has no means yet.
pub(crate) fn put_together<R: Rows>(bytes: &[u8], rows: &R, framed: Framed) -> LoadedIndex
    requires { IsWorded (R.collection rows.now) bytes.now framed }
    ensures { IsPutTogether (R.collection rows.now) bytes.now result }
{
    let _ = bytes;
    let _ = rows;
    let Framed {
        settings,
        frame,
        members,
    } = framed;
    let Some(index) = Index::of_frame(frame, members) else {
        unreachable!()
    };
    // for the fact that it is an index
    let _leaves = index.leaf_count();
    LoadedIndex { settings, index }
}
