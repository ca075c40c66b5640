//! Random small collections: the discords are those of a plain double loop, sorted.
ghost use Rattle.std.specs.Prelude.{◌≡◌, IfOk};

use crate::claims::assert_same;
use breakpoints::Table;
use discord_query::discord;
use outside::{Gate, NoGate, NoMemory};
use plain_search::{Source, Turns, plain_distance};
use series_core::{Flat, Rows};
use std::alloc::Global;
use std::test::*;
use std::thread::Threads;
use subtree_build::{Settings, build};

/// How a tree is cut into words and leaves, and how many workers search it.
#[derive(Clone, Copy, Debug)]
pub struct Shape {
    table: Table,
    segments: u32,
    leaf_size: u32,
    workers: u32,
}

pub fn shaped(table: Table, segments: u32, leaf_size: u32, workers: u32) -> Shape {
    Shape {
        table,
        segments,
        leaf_size,
        workers,
    }
}

/// The discords as plain triples of number, distance and neighbour.
pub fn found<T: Threads + Sync, G: Gate + Sync>(
    rt: &T,
    alloc: Global,
    rows: &Flat,
    shape: Shape,
    k: u32,
    gate: &G,
) -> Result<Vec<(u32, u64, u32)>, NoMemory> {
    let Shape {
        segments,
        workers,
        ..
    } = shape;
    let length = rows.length();
    let can_cut = segments >= 1 && segments <= 16 && segments <= length;
    if !can_cut || workers < 1 || workers > 64 || k < 1 || k > 1024 {
        return Err(NoMemory);
    }
    let settings = Settings::new(length, segments, shape.table, shape.leaf_size);
    let index = build(rt, alloc, rows, &settings, 1, &NoGate)?;
    let layout = &settings.layout;
    let discords = discord(rt, alloc, rows, &index, layout, k, workers, gate)?;
    let mut found = Vec::new(alloc);
    for discord in &discords.items {
        found.push((discord.number, discord.distance, discord.neighbour))?;
    }
    Ok(found)
}

/// `count` series of three values, at most 1000 of them.
fn collection(alloc: Global, source: &mut Source, count: u32) -> Result<Flat, NoMemory>
    ensures { IfOk result (λ rows. rows.points ≡ 3) }
{
    let values = source.values(alloc, 3 * count.min(1000))?;
    Ok(Flat::from_values(3, values))
}

/// All series with their nearest others, the farthest first, of two as far the one with the smaller number; k of them.
fn plain(alloc: Global, rows: &Flat, k: u32) -> Result<Vec<(u32, u64, u32)>, NoMemory> {
    let mut all = Vec::new(alloc);
    for s in 0..rows.count() {
        let mut nearest = None;
        for t in 0..rows.count() {
            let distance = plain_distance(rows.row(t), rows.row(s));
            if t != s && nearest.is_none_or(|(least, _)| distance < least) {
                nearest = Some((distance, t));
            }
        }
        if let Some((distance, t)) = nearest {
            all.push((!distance, s, t))?;
        }
    }
    all.sort_unstable();
    let mut first = Vec::new(alloc);
    for (far, s, t) in all.iter().take(k as usize) {
        first.push((*s, !*far, *t))?;
    }
    Ok(first)
}

#[test]
fn finds_what_a_plain_double_loop_finds(rt: HostRuntime) -> Result<(), Fail> {
    let alloc = rt.alloc();
    for (seed, count, spread, k, shape) in [
        (1, 2u32, 3, 1, shaped(Table::Flat, 2, 1, 1)),
        (2, 3, 1, 5, shaped(Table::Bent, 3, 1, 2)),
        (3, 40, 1, 3, shaped(Table::Flat, 3, 2, 1)),
        (4, 60, 2, 5, shaped(Table::Bent, 2, 3, 2)),
        (5, 80, 30, 4, shaped(Table::Bent, 1, 5, 5)),
        (6, 90, 30000, 2, shaped(Table::Flat, 3, 4, 5)),
        (7, 120, 700, 1, shaped(Table::Bent, 3, 5, 5)),
        // in groups of sixteen, of twelve and of six, of which the last has twelve, twelve and four; and by 64 workers one by one
        (8, 300, 700, 3, shaped(Table::Flat, 3, 9, 1)),
        (9, 300, 2, 10, shaped(Table::Bent, 3, 9, 3)),
        (10, 400, 500, 400, shaped(Table::Bent, 3, 9, 8)),
        (11, 200, 700, 1024, shaped(Table::Bent, 3, 9, 64)),
    ] {
        let mut source = Source::new(seed, spread);
        let rows = collection(alloc, &mut source, count)?;
        assert_same!(rt;
            found(&rt, alloc, &rows, shape, k, &NoGate)?,
            plain(alloc, &rows, k)?,
            "seed {seed}, {count} series, {shape:?}, k {k}"
        );
    }
    Ok(())
}

#[test]
fn each_worker_passes_the_gate_before_each_draw(rt: HostRuntime) -> Result<(), Fail> {
    let alloc = rt.alloc();
    // Two workers draw five series one by one, fifty in groups of three, and six hundred in groups of sixteen, of which the last has
    // fewer.
    for (count, turns) in [(5u32, 5 + 2u64), (50, 17 + 2), (600, 38 + 2)] {
        let mut source = Source::new(11, 500);
        let rows = collection(alloc, &mut source, count)?;
        let gate = Turns::of_two();
        let discords = found(&rt, alloc, &rows, shaped(Table::Flat, 3, 4, 2), 3, &gate)?;
        assert_same!(rt; discords.len(), 3, "three discords of {count} series");
        assert_same!(rt;
            gate.told(),
            (turns, 0),
            "a turn for each group of {count} series, and one more for each worker, counted from 0"
        );
    }
    Ok(())
}
