//! Loading a saved index over a collection: nothing of its bytes is believed. What was read is tested against the rows, series by series,
//! before it is handed out, and the first refusal in the order of `IndexFault` is given.
ghost use Rattle.std.specs.Prelude.{◌≡◌, ◌≤◌, IfOk, IfErr, IsTrue, length};
ghost use Rattle.std.specs.Thread.{IsSync};
ghost use Rattle.saved_index.specs.Framing.{IsFramed, IsWorded};
ghost use Rattle.saved_index.specs.IndexText.{CanSave};
ghost use Rattle.saved_index.specs.Loading.{Explains, IsIndexFor, IsLoadedFor, IsPutTogether, IsTested, IsTextFor, Leaves, Loads, LoadsWhole, Refuses};
ghost use Rattle.saved_index.specs.Membership.{AreContained};
ghost use Rattle.saved_index.specs.Words.{HasWords};

use crate::error::IndexFault;
use crate::fitting::{contained_side_by_side, first_unfit};
use crate::framing::{Framed, layout_at, put_together, read_framed};
use crate::words::{SeriesWords, give_words, give_words_in_turn, words_alone, words_for};
use isax_word::Layout;
use outside::{AllError, Files, NoMemory, read_all};
use search_limits::MOST_TEXT_BYTES;
use series_core::Rows;
use std::alloc::Global;
use std::thread::{Threads, join};
use subtree_build::{Index, Settings};

/// What was loaded: an index, and the settings that it was saved with.
#[derive(Drop)]
pub struct LoadedIndex {
    /// How series become words, and the leaf size of the saved index, from 1 to 65535.
    pub settings: Settings,
    /// The index, which fits the rows that it was loaded over.
    pub index: Index,
}

/// Loads the rest of the open file, at most 1073741824 bytes, as a saved index over these rows; 1 or more workers make its means.
/// Of the refusals of the bytes, `TooLong`, `NotIndex`, `Length`, `Count` and `Unfit`, the first is given, and only where it holds.
/// `ReadFault` comes only where a read failed; after `NoMemory` the file may be read in part.
pub fn load<H: Threads + Sync, F: Files, R: Rows + Sync>(
    rt: &H,
    alloc: Global,
    files: &mut F,
    rows: &R,
    workers: u32,
) -> Result<LoadedIndex, IndexFault>
    requires { 1 ≤ workers }
    ensures fits { IfOk result (IsIndexFor (R.collection rows.now)) }
    ensures text { IfOk result (LoadsWhole (R.collection rows.now) (F.left files.old) (F.left files.new)) }
    ensures refused { IfErr result (Explains (R.collection rows.now) (F.left files.old)) }
    ensures left { IfErr result (Leaves (F.left files.old) (F.left files.new)) }
    ensures files { Loads F.held F.at F.blamed F.faults F.misses F.reliable result files.old files.new }
{
    load_with(rt, alloc, files, rows, workers, true)
}

/// Loads as `load` does. Without `tables` nothing is made beside the tree: that takes less time, and a search goes by words alone: it measures
/// each member whose full word does not lie far.
pub fn load_with<H: Threads + Sync, F: Files, R: Rows + Sync>(
    rt: &H,
    alloc: Global,
    files: &mut F,
    rows: &R,
    workers: u32,
    tables: bool,
) -> Result<LoadedIndex, IndexFault>
    requires { 1 ≤ workers }
    ensures fits { IfOk result (IsLoadedFor tables (R.collection rows.now)) }
    ensures text { IfOk result (LoadsWhole (R.collection rows.now) (F.left files.old) (F.left files.new)) }
    ensures refused { IfErr result (Explains (R.collection rows.now) (F.left files.old)) }
    ensures left { IfErr result (Leaves (F.left files.old) (F.left files.new)) }
    ensures files { Loads F.held F.at F.blamed F.faults F.misses F.reliable result files.old files.new }
{
    let bytes = match read_all(alloc, files, MOST_TEXT_BYTES) {
        Ok(bytes) => bytes,
        Err(AllError::Longer) => return Err(IndexFault::TooLong),
        Err(AllError::ReadFault) => return Err(IndexFault::ReadFault),
        Err(AllError::NoMemory) => return Err(IndexFault::NoMemory),
    };
    load_bytes(rt, alloc, bytes.as_slice(), rows, workers, tables)
}

/// Loads these bytes as a saved index over these rows, by one worker in the caller's thread: it wants no leave to start threads. It
/// refuses as `load` does, with the first of `TooLong`, `NotIndex`, `Length`, `Count` and `Unfit` that the bytes have against the rows, and
/// only with that or with `NoMemory`.
pub fn load_alone<R: Rows>(alloc: Global, bytes: &[u8], rows: &R) -> Result<LoadedIndex, IndexFault>
    ensures fits { IfOk result (IsIndexFor (R.collection rows.now)) }
    ensures text { IfOk result (λ loaded. IsTextFor (R.collection rows.now) loaded bytes.now) }
    ensures saves { let count = length (R.collection rows.now).series in
        IfOk result (λ loaded. CanSave loaded.settings count loaded.index) }
    ensures refused { IfErr result (Refuses (R.collection rows.now) bytes.now) }
{
    if bytes.len() as u64 > MOST_TEXT_BYTES {
        return Err(IndexFault::TooLong);
    }
    let framed = match worded_alone(alloc, bytes, rows) {
        Ok(framed) => framed,
        Err(e) => return Err(e),
    };
    let loaded = put_together(bytes, rows, framed);
    let LoadedIndex { settings, index } = match tested(alloc, bytes, rows, loaded, false) {
        Ok(loaded) => loaded,
        Err(e) => return Err(e),
    };
    let index = index.with_means_alone(alloc, rows, &settings.layout)?;
    Ok(LoadedIndex { settings, index })
}

/// Loads these bytes as a saved index over these rows, with tables beside its tree or with none.
pub(crate) fn load_bytes<H: Threads + Sync, R: Rows + Sync>(
    rt: &H,
    alloc: Global,
    bytes: &[u8],
    rows: &R,
    workers: u32,
    tables: bool,
) -> Result<LoadedIndex, IndexFault>
    requires short { length bytes.now ≤ MOST_TEXT_BYTES }
    requires some { 1 ≤ workers }
    ensures fits { IfOk result (IsLoadedFor tables (R.collection rows.now)) }
    ensures text { IfOk result (λ loaded. IsTextFor (R.collection rows.now) loaded bytes.now) }
    ensures refused { IfErr result (Refuses (R.collection rows.now) bytes.now) }
{
    let framed = match worded(rt, alloc, bytes, rows, workers) {
        Ok(framed) => framed,
        Err(e) => return Err(e),
    };
    let loaded = put_together(bytes, rows, framed);
    let contained = are_contained(rt, bytes, rows, &loaded, workers);
    let loaded = match tested(alloc, bytes, rows, loaded, contained) {
        Ok(loaded) => loaded,
        Err(e) => return Err(e),
    };
    if tables {
        let LoadedIndex { settings, index } = loaded;
        let index = index.with_means(rt, alloc, rows, &settings.layout, workers)?;
        return Ok(LoadedIndex { settings, index });
    }
    Ok(loaded)
}

/// What the bytes are framed as, with the full word of each member's series: the text is read in a thread of its own, while the other workers
/// make the words of all series, by number; then all of them give these to the members.
fn worded<H: Threads + Sync, R: Rows + Sync>(
    rt: &H,
    alloc: Global,
    bytes: &[u8],
    rows: &R,
    workers: u32,
) -> Result<Framed, IndexFault>
    requires { length bytes.now ≤ MOST_TEXT_BYTES }
    ensures worded { IfOk result (IsWorded (R.collection rows.now) bytes.now) }
    ensures refused { IfErr result (Refuses (R.collection rows.now) bytes.now) }
{
    let layout = match layout_at(bytes, rows) {
        Some(layout) if workers > 1 => layout,
        _ => return worded_alone(alloc, bytes, rows),
    };
    let (framed, words) = read_beside(rt, alloc, bytes, rows, &layout, workers - 1);
    let mut framed = match framed {
        Ok(framed) => framed,
        Err(e) => return Err(e),
    };
    let words = words?;
    give_words(
        rt,
        rows,
        &layout,
        &words,
        framed.members.as_mut_slice(),
        workers,
    );
    Ok(framed)
}

/// What the bytes are framed as, read in a thread of its own, and the words of all series, made beside it by so many other workers.
fn read_beside<H: Threads + Sync, R: Rows + Sync>(
    rt: &H,
    alloc: Global,
    bytes: &[u8],
    rows: &R,
    layout: &Layout,
    others: u32,
) -> (Result<Framed, IndexFault>, Result<SeriesWords, NoMemory>)
    requires short { length bytes.now ≤ MOST_TEXT_BYTES }
    requires length { layout.now.cuts.row_length ≡ (R.collection rows.now).points }
    ensures framed { IfOk result.0 (IsFramed (R.collection rows.now) bytes.now) }
    ensures refused { IfErr result.0 (Refuses (R.collection rows.now) bytes.now) }
    ensures words { IfOk result.1 (HasWords (R.collection rows.now) layout.now) }
{
    let front = || -> Result<Framed, IndexFault>
        requires { IsSync R.row × (length bytes.now ≤ MOST_TEXT_BYTES) }
        ensures framed { IfOk result (IsFramed (R.collection rows.entry.now) bytes.entry.now) }
        ensures refused { IfErr result (Refuses (R.collection rows.entry.now) bytes.entry.now) }
    { read_framed(alloc, bytes, rows) };
    let back = || -> Result<SeriesWords, NoMemory>
        requires { IsSync H.row × IsSync R.row × (layout.now.cuts.row_length ≡ (R.collection rows.now).points) }
        ensures { IfOk result (HasWords (R.collection rows.entry.now) layout.entry.now) }
    { words_for(rt, alloc, rows, layout, others) };
    join(rt, front, back)
}

/// The same by one worker, in the caller's thread.
fn worded_alone<R: Rows>(alloc: Global, bytes: &[u8], rows: &R) -> Result<Framed, IndexFault>
    requires { length bytes.now ≤ MOST_TEXT_BYTES }
    ensures worded { IfOk result (IsWorded (R.collection rows.now) bytes.now) }
    ensures refused { IfErr result (Refuses (R.collection rows.now) bytes.now) }
{
    let mut framed = match read_framed(alloc, bytes, rows) {
        Ok(framed) => framed,
        Err(e) => return Err(e),
    };
    let words = words_alone(alloc, rows, &framed.settings.layout)?;
    give_words_in_turn(
        rows,
        &framed.settings.layout,
        &words,
        framed.members.as_mut_slice(),
    );
    Ok(framed)
}

/// Whether the word of each leaf contains the full words of its members, which so many workers look at.
fn are_contained<H: Threads + Sync, R: Rows>(
    rt: &H,
    bytes: &[u8],
    rows: &R,
    loaded: &LoadedIndex,
    workers: u32,
) -> bool
    requires { IsPutTogether (R.collection rows.now) bytes.now loaded.now }
    ensures { IsTrue result → AreContained loaded.now.index.leaves }
{
    let _ = bytes;
    let _ = rows;
    contained_side_by_side(rt, &loaded.index, 0, loaded.index.leaf_count(), workers)
}

/// What was put together, where each series fits. No series is a member twice where the leaves' words are known to contain all members; so
/// where there are as many of them as series, each is there once, and no mark is made.
fn tested<R: Rows>(
    alloc: Global,
    bytes: &[u8],
    rows: &R,
    loaded: LoadedIndex,
    contained: bool,
) -> Result<LoadedIndex, IndexFault>
    requires short { length bytes.now ≤ MOST_TEXT_BYTES }
    requires together { IsPutTogether (R.collection rows.now) bytes.now loaded }
    requires contained { IsTrue contained → AreContained loaded.index.leaves }
    ensures tested { IfOk result (IsTested (R.collection rows.now) bytes.now) }
    ensures refused { IfErr result (Refuses (R.collection rows.now) bytes.now) }
{
    let _ = bytes;
    if contained && loaded.index.members().len() == rows.count() as usize {
        return Ok(loaded);
    }
    if let Some(number) = first_unfit(alloc, &loaded.index, rows.count())? {
        return Err(IndexFault::Unfit(number));
    }
    Ok(loaded)
}
