//! Random small collections: the answer is that of a plain filter over all series, sorted.
use crate::claims::assert_same;
use breakpoints::Table;
use outside::{Gate, NoGate, NoMemory};
use plain_search::{Source, Turns, by_distance, tree_with};
use range_query::within;
use series_core::{Flat, Pair, Rows};
use std::alloc::Global;
use std::test::*;
use std::thread::Threads;
use subtree_build::{Settings, build};

/// `count` series of six values, at most 1000 of them.
fn collection(alloc: Global, source: &mut Source, count: u32) -> Result<Flat, NoMemory> {
    let values = source.values(alloc, 6 * count.min(1000))?;
    Ok(Flat::from_values(6, values))
}

/// Those of these pairs that are within the radius.
fn plain_within(
    alloc: Global,
    pairs: &[(u64, u32)],
    radius: u64,
) -> Result<Vec<(u64, u32)>, NoMemory> {
    let mut near = Vec::new(alloc);
    for (distance, number) in pairs {
        if *distance <= radius {
            near.push((*distance, *number))?;
        }
    }
    Ok(near)
}

/// Pairs as plain ones.
pub fn listed(alloc: Global, pairs: &[Pair]) -> Result<Vec<(u64, u32)>, NoMemory> {
    let mut list = Vec::new(alloc);
    for pair in pairs {
        list.push((pair.distance, pair.number))?;
    }
    Ok(list)
}

/// How a tree is cut into words and leaves, how many workers search it, and whether it has its tables.
#[derive(Clone, Copy)]
struct Shape {
    table: Table,
    segments: u32,
    leaf_size: u32,
    workers: u32,
    tables: bool,
}

fn shaped(table: Table, segments: u32, leaf_size: u32, workers: u32) -> Shape {
    Shape {
        table,
        segments,
        leaf_size,
        workers,
        tables: true,
    }
}

/// What the search finds within the radius.
fn found<T: Threads + Sync, G: Gate + Sync>(
    rt: &T,
    alloc: Global,
    rows: &Flat,
    shape: Shape,
    query: &[i16],
    radius: u64,
    gate: &G,
) -> Result<Vec<(u64, u32)>, NoMemory> {
    let can_cut = shape.segments >= 1 && shape.segments <= 6;
    if !can_cut || shape.workers < 1 || shape.workers > 64 {
        return Err(NoMemory);
    }
    if rows.length() != 6 || query.len() != 6 {
        return Err(NoMemory);
    }
    let settings = Settings::new(6, shape.segments, shape.table, shape.leaf_size);
    let layout = &settings.layout;
    let index = build(rt, alloc, rows, &settings, 1, &NoGate)?;
    let index = tree_with(rows, &settings, index, shape.tables);
    let pairs = within(
        rt,
        alloc,
        rows,
        &index,
        layout,
        query,
        radius,
        shape.workers,
        gate,
    )?;
    listed(alloc, &pairs)
}

/// The first of five radii, two of them at a distance and one below it, within which the search finds other pairs than
/// the plain filter.
fn wrong_radius<T: Threads + Sync>(
    rt: &T,
    alloc: Global,
    rows: &Flat,
    shape: Shape,
    query: &[i16],
) -> Result<Option<u64>, NoMemory> {
    let all = by_distance(alloc, rows, query)?;
    let middle = match all.get(all.len() / 3) {
        Some((distance, _number)) => *distance,
        None => 7,
    };
    for radius in [
        0,
        middle.saturating_sub(1),
        middle,
        281474976710656,
        u64::MAX,
    ] {
        let want = plain_within(alloc, &all, radius)?;
        for tables in [true, false] {
            let shape = Shape { tables, ..shape };
            if found(rt, alloc, rows, shape, query, radius, &NoGate)? != want {
                return Ok(Some(radius));
            }
        }
    }
    Ok(None)
}

#[test]
fn finds_what_a_plain_filter_finds(rt: HostRuntime) -> Result<(), Fail> {
    let alloc = rt.alloc();
    for (seed, count, spread, shape) in [
        (1, 0u32, 3, shaped(Table::Flat, 2, 1, 1)),
        (2, 1, 3, shaped(Table::Bent, 6, 1, 2)),
        (3, 40, 1, shaped(Table::Flat, 3, 2, 1)),
        (4, 60, 300, shaped(Table::Bent, 4, 3, 2)),
        (5, 80, 2000, shaped(Table::Bent, 1, 5, 5)),
        (6, 90, 30000, shaped(Table::Flat, 6, 1, 5)),
        (7, 300, 700, shaped(Table::Bent, 5, 4, 5)),
    ] {
        let mut source = Source::new(seed, spread);
        let rows = collection(alloc, &mut source, count)?;
        let query = source.values(alloc, 6)?;
        assert_same!(rt;
            wrong_radius(&rt, alloc, &rows, shape, &query)?,
            None,
            "radius of seed {seed} over {count} series"
        );
    }
    Ok(())
}

#[test]
fn each_worker_passes_the_gate_before_each_draw(rt: HostRuntime) -> Result<(), Fail> {
    let alloc = rt.alloc();
    let mut source = Source::new(11, 500);
    let rows = collection(alloc, &mut source, 200)?;
    let gate = Turns::of_two();
    let shape = shaped(Table::Flat, 3, 4, 2);
    let pairs = found(&rt, alloc, &rows, shape, &[0; 6], u64::MAX, &gate)?;
    assert_same!(rt; pairs.len(), 200, "all series");
    assert_same!(rt;
        gate.told(),
        (8 + 2, 0),
        "a turn for each of eight root children, and one more for each worker, counted from 0"
    );
    Ok(())
}
