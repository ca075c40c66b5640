//! What no clause says: that the calls answer with ample memory, rows from outside, the end, and a writer and two readers in
//! threads.
ghost use Rattle.std.specs.Prelude.{◌≡◌, ◌≤◌, IfOk};
ghost use Rattle.live_collection.specs.Sides.{AreAllReaders, IsWriterOf, points_of};

mod threads;

use crate::claims::assert_same;
use breakpoints::Table;
use isax_word::Layout;
use live_collection::{AppendError, LiveCollection, MAX_BATCHES, Reader, Writer};
use outside::NoMemory;
use segment_sums::Cuts;
use series_core::{Flat, Pair};
use std::alloc::Global;
use std::sync::Wait;
use std::test::*;
use std::thread::Threads;
use subtree_build::Settings;

// Four series of four values, of which number 0 is the nearest to four ones, with the distance 4.
const FOUR: [i16; 16] = [0, 0, 0, 0, 10, 10, 10, 10, -10, -10, -10, -10, 0, 0, 10, 10];

fn settings_of_four() -> Settings
    ensures points { result.layout.cuts.row_length ≡ 4 }
    ensures leaf_size { (1 ≤ result.leaf_size) × (result.leaf_size ≤ 65535) }
{
    Settings {
        layout: Layout {
            cuts: Cuts::new(4, 4),
            table: Table::Flat,
        },
        leaf_size: 2,
    }
}

/// Whether the pairs are these.
fn are_same(found: &[Pair], pairs: &[(u64, u32)]) -> bool {
    for (pair, (distance, number)) in found.iter().zip(pairs) {
        if pair.distance != *distance || pair.number != *number {
            return false;
        }
    }
    found.len() == pairs.len()
}

fn fours(alloc: Global) -> Result<Flat, NoMemory>
    ensures { IfOk result (λ f. f.points ≡ 4) }
{
    Ok(Flat::from_values(4, FOUR.to_vec(alloc)?))
}

/// Appends the four series so often, and then no series.
fn append_fours<R: Threads + Wait + Sync>(
    rt: &R,
    alloc: Global,
    live: &LiveCollection,
    writer: &mut Writer,
    times: u32,
) -> Result<u32, AppendError>
    requires writer { IsWriterOf live.now writer.old }
    requires points { points_of live.now ≡ 4 }
    ensures { IsWriterOf live.now writer.new }
{
    for _time in 0..times {
        live.append(rt, alloc, writer, fours(alloc)?)?;
    }
    live.append(rt, alloc, writer, Flat::from_values(4, Vec::new(alloc)))
}

/// What the last reader is answered once the writer told it: how many series stood, and whether the pairs are these.
fn tell_and_ask<R: Threads + Wait + Sync>(
    rt: &R,
    alloc: Global,
    live: &LiveCollection,
    writer: &mut Writer,
    readers: &mut Vec<Reader>,
    k: u32,
    pairs: &[(u64, u32)],
) -> Option<(u32, bool)>
    requires writer { IsWriterOf live.now writer.old }
    requires readers { AreAllReaders live.now readers.old.items }
    requires points { points_of live.now ≡ 4 }
    requires ranks { (1 ≤ k) × (k ≤ 1024) }
{
    let mut reader = readers.pop()?;
    live.tell(writer, &mut reader);
    let reply = live.ask(rt, alloc, &mut reader, &[1, 1, 1, 1], k).ok()?;
    Some((reply.count, are_same(&reply.pairs.items, pairs)))
}

/// What the writer and then a reader that it told are answered: how many series stood each time, and whether the pairs are these.
fn told_and_asked<R: Threads + Wait + Sync>(
    rt: &R,
    alloc: Global,
    times: u32,
    k: u32,
    pairs: &[(u64, u32)],
) -> Option<(u32, u32, bool)>
    requires { (1 ≤ k) × (k ≤ 1024) }
{
    let (live, mut writer, mut readers) = LiveCollection::begin(alloc, settings_of_four(), 2).ok()?;
    let count = append_fours(rt, alloc, &live, &mut writer, times).ok()?;
    let (stood, same) = tell_and_ask(rt, alloc, &live, &mut writer, &mut readers, k, pairs)?;
    Some((count, stood, same))
}

#[test]
fn a_reader_that_was_told_has_all_batches(rt: HostRuntime) -> Result<(), Fail> {
    let one = told_and_asked(&rt, rt.alloc(), 1, 1, &[(4, 0)]).ok_or("no answer")?;
    assert_same!(rt; one, (4, 4, true), "one batch and an empty one");
    let two = told_and_asked(&rt, rt.alloc(), 2, 2, &[(4, 0), (4, 4)]).ok_or("no answer")?;
    assert_same!(rt; two, (8, 8, true), "numbers counted over two batches");
    let none = told_and_asked(&rt, rt.alloc(), 0, 3, &[]).ok_or("no answer")?;
    assert_same!(rt; none, (0, 0, true), "an empty batch alone");
    Ok(())
}

/// What the last of `batches` empty batches is answered, and how many series stand at the end.
fn appended_to_the_end<R: Threads + Wait + Sync>(
    rt: &R,
    alloc: Global,
    batches: u32,
) -> Option<(Result<u32, AppendError>, u32)> {
    let (live, mut writer, readers) = LiveCollection::begin(alloc, settings_of_four(), 3).ok()?;
    let mut last = Ok(0);
    for _batch in 0..batches {
        last = append_fours(rt, alloc, &live, &mut writer, 0);
    }
    Some((last, live.close(writer, readers)))
}

#[test]
fn the_collection_is_full_after_1024_batches(rt: HostRuntime) -> Result<(), Fail> {
    let fits = appended_to_the_end(&rt, rt.alloc(), MAX_BATCHES).ok_or("no end")?;
    assert_same!(rt; fits, (Ok(0), 0), "1024 batches");
    let full = appended_to_the_end(&rt, rt.alloc(), MAX_BATCHES + 2).ok_or("no end")?;
    assert_same!(rt;
        full,
        (Err(AppendError::Full(1024, 0)), 0),
        "two batches more"
    );
    Ok(())
}

/// How many series stand when a collection is closed to which the four were appended so often.
fn closed_after<R: Threads + Wait + Sync>(rt: &R, alloc: Global, times: u32) -> Option<u32> {
    let (live, mut writer, readers) = LiveCollection::begin(alloc, settings_of_four(), 2).ok()?;
    append_fours(rt, alloc, &live, &mut writer, times).ok()?;
    Some(live.close(writer, readers))
}

#[test]
fn a_closed_collection_tells_its_count(rt: HostRuntime) -> Result<(), Fail> {
    for (times, series) in [(0, 0), (1, 4), (3, 12)] {
        let count = closed_after(&rt, rt.alloc(), times).ok_or("no end")?;
        assert_same!(rt; count, series, "{times} batches");
    }
    Ok(())
}
