//! The tree of a collection, built by workers in two phases, or by one worker alone in the caller's thread.
ghost use Rattle.std.specs.Prelude.{◌≡◌, ◌^◌, ◌<◌, ◌≤◌, IfOk, length, vec_len};
ghost use Rattle.std.specs.Thread.{IsSync};
ghost use Rattle.series_core.specs.Collection.{IsCollection};
ghost use Rattle.subtree_build.specs.Fits.{Fits, IsTreeOf};
ghost use Rattle.subtree_build.specs.Index.{HasTables, IsTreeAlone};
ghost use Rattle.subtree_build.specs.BareTree.{IsTreeBuilt};
ghost use Rattle.subtree_build.specs.Building.{CanBuild, HoldsRoots};
ghost use Rattle.subtree_build.specs.Summaries.{HoldAllMembers};

use crate::bare_tree::BareTree;
use crate::building::{build_parts, build_parts_alone};
use crate::index::Index;
use crate::means::coded_length;
use crate::room::{Room, room_for};
use crate::settings::Settings;
use crate::splicing::{RootLists, splice};
use crate::summaries::{Summaries, root_numbers, summarise_all, summarise_alone};
use crate::tables::{tables_alone, tables_of};
use outside::{Gate, NoMemory};
use search_limits::MOST_WORKERS;
use series_core::{MAX_LENGTH, Rows};
use std::alloc::Global;
use std::thread::{Threads, join};

/// Builds the tree of a collection with 1 to 64 workers: the one that the settings define, whatever the number of
/// workers and whatever each of them draws. A worker alone starts no thread, and none waits for another within a
/// phase. `gate.pass(worker, turn)` comes before each draw of a chunk and of a root child, turns counted on from
/// the first phase to the second.
pub fn build<H: Threads + Sync, R: Rows + Sync, G: Gate + Sync>(
    rt: &H,
    alloc: Global,
    rows: &R,
    settings: &Settings,
    workers: u32,
    gate: &G,
) -> Result<Index, NoMemory>
    requires length { settings.now.layout.cuts.row_length ≡ (R.collection rows.now).points }
    requires workers { (1 ≤ workers) × (workers ≤ MOST_WORKERS) }
    ensures tree { IfOk result (IsTreeOf (R.collection rows.now) settings.now.layout settings.now.leaf_size) }
    ensures fits { IfOk result (Fits (R.collection rows.now) settings.now.layout) }
    ensures tables { IfOk result HasTables }
{
    let (bare, room) = tree_and_room(rt, alloc, rows, settings, workers, gate)?;
    let tables = tables_of(rt, room, rows, &settings.layout, &bare, workers)?;
    Ok(Index::of_tree(rows, settings, bare, tables))
}

/// Builds the same tree with nothing beside it. That takes about half the time, and a search of it goes by words alone: it measures each
/// member whose full word does not lie far.
pub fn build_bare<H: Threads + Sync, R: Rows + Sync, G: Gate + Sync>(
    rt: &H,
    alloc: Global,
    rows: &R,
    settings: &Settings,
    workers: u32,
    gate: &G,
) -> Result<Index, NoMemory>
    requires length { settings.now.layout.cuts.row_length ≡ (R.collection rows.now).points }
    requires workers { (1 ≤ workers) × (workers ≤ MOST_WORKERS) }
    ensures tree { IfOk result (IsTreeOf (R.collection rows.now) settings.now.layout settings.now.leaf_size) }
    ensures fits { IfOk result (Fits (R.collection rows.now) settings.now.layout) }
    ensures alone { IfOk result IsTreeAlone }
{
    let bare = bare_tree(rt, alloc, rows, settings, workers, gate)?;
    Ok(Index::of_tree_alone(rows, settings, bare))
}

/// The tree without its tables, and room for these, which one thread more takes beside the workers: so nobody waits for it. A worker
/// alone leaves the room to be taken behind the tree.
fn tree_and_room<H: Threads + Sync, R: Rows + Sync, G: Gate + Sync>(
    rt: &H,
    alloc: Global,
    rows: &R,
    settings: &Settings,
    workers: u32,
    gate: &G,
) -> Result<(BareTree, Room), NoMemory>
    requires length { settings.now.layout.cuts.row_length ≡ (R.collection rows.now).points }
    requires workers { (1 ≤ workers) × (workers ≤ MOST_WORKERS) }
    ensures { IfOk result (λ r. IsTreeBuilt (R.collection rows.now) settings.now r.0) }
{
    if workers < 2 {
        let bare = bare_tree(rt, alloc, rows, settings, workers, gate)?;
        return Ok((bare, Room::none(alloc)));
    }
    let count = rows.count() as usize;
    let coded = coded_length(rows);
    let (room, bare) = join(
        rt,
        || -> Result<Room, NoMemory>
            requires { (coded ≤ MAX_LENGTH) × (count < 2 ^ 32) }
        { room_for(alloc, count, coded) },
        || -> Result<BareTree, NoMemory>
            requires { IsSync H.row × IsSync R.row × IsSync G.row
                × (settings.now.layout.cuts.row_length ≡ (R.collection rows.now).points) × (1 ≤ workers) × (workers ≤ MOST_WORKERS) }
            ensures { IfOk result (IsTreeBuilt (R.collection rows.entry.now) settings.entry.now) }
        { bare_tree(rt, alloc, rows, settings, workers, gate) },
    );
    Ok((bare?, room?))
}

/// The tree without its tables.
fn bare_tree<H: Threads + Sync, R: Rows + Sync, G: Gate + Sync>(
    rt: &H,
    alloc: Global,
    rows: &R,
    settings: &Settings,
    workers: u32,
    gate: &G,
) -> Result<BareTree, NoMemory>
    requires length { settings.now.layout.cuts.row_length ≡ (R.collection rows.now).points }
    requires workers { (1 ≤ workers) × (workers ≤ MOST_WORKERS) }
    ensures { IfOk result (IsTreeBuilt (R.collection rows.now) settings.now) }
{
    let summaries = summarise_all(rt, alloc, rows, &settings.layout, workers, gate)?;
    let (found, turns) = roots_in(alloc, rows, settings, summaries)?;
    let parts = build_parts(rt, alloc, settings, &found, turns.as_slice(), gate)?;
    BareTree::of_parts(alloc, rows, settings, found, parts)
}

/// Builds the same tree by one worker, in the caller's thread: it wants no leave to start threads, and passes no gate.
pub fn build_alone<R: Rows>(alloc: Global, rows: &R, settings: &Settings) -> Result<Index, NoMemory>
    requires length { settings.now.layout.cuts.row_length ≡ (R.collection rows.now).points }
    ensures tree { IfOk result (IsTreeOf (R.collection rows.now) settings.now.layout settings.now.leaf_size) }
    ensures fits { IfOk result (Fits (R.collection rows.now) settings.now.layout) }
    ensures tables { IfOk result HasTables }
{
    let layout = &settings.layout;
    let summaries = summarise_alone(alloc, rows, layout)?;
    let (found, _turns) = roots_in(alloc, rows, settings, summaries)?;
    let parts = build_parts_alone(alloc, settings, &found)?;
    let bare = BareTree::of_parts(alloc, rows, settings, found, parts)?;
    let tables = tables_alone(alloc, rows, layout, &bare)?;
    Ok(Index::of_tree(rows, settings, bare, tables))
}

/// What the first phase leaves to the second: the members of each root number that some series has, and how many turns each worker took.
fn roots_in<R: Rows>(
    alloc: Global,
    rows: &R,
    settings: &Settings,
    summaries: Summaries,
) -> Result<(RootLists, Vec<u64>), NoMemory>
    requires sound { IsCollection (R.collection rows.now) }
    requires members { HoldAllMembers settings.now.layout (R.collection rows.now) summaries.buffers.items }
    ensures roots { IfOk result (λ r. HoldsRoots settings.now.layout (R.collection rows.now) r.0) }
    ensures can { IfOk result (λ r. CanBuild settings.now r.0) }
    ensures few { IfOk result (λ r. length r.0.roots.items ≤ 65536) }
    ensures turns { IfOk result (λ r. vec_len r.1 ≡ vec_len summaries.turns) }
{
    let _ = rows;
    let roots = root_numbers(&settings.layout);
    let Summaries { mut buffers, turns } = summaries;
    let found = splice(alloc, roots, buffers.as_mut_slice())?;
    Ok((found, turns))
}
