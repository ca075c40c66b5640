//! Teams of 1 to 64 workers over small collections in each way and in the one that is chosen, and over one that is great enough to be
//! shared: as a plain sort.
use crate::claims::assert_same;
use breakpoints::Table;
use nearest_answer::{ApartBy, Task, answer_by_stretches, answer_by_team};
use outside::{NoGate, NoMemory};
use plain_search::{Source, are_same, plain_nearest, tree_with};
use series_core::{Flat, Rows};
use std::alloc::Global;
use std::process::Abort;
use std::test::*;
use std::thread::Threads;
use subtree_build::{Settings, build};

const LENGTH: u32 = 32;

/// What the series of a collection are like.
#[derive(Clone, Copy, Debug)]
enum Kind {
    Walks,
    Equal,
    Clusters,
    Noise,
}

/// The value at a place of a series, drawn from -500 to 500, behind the value before it.
fn next_value(kind: Kind, series: u32, drawn: i16, last: i16) -> i16 {
    match kind {
        Kind::Walks => last.saturating_add(drawn),
        Kind::Equal => 7,
        Kind::Clusters if series % 2 == 0 => drawn,
        Kind::Clusters => drawn.saturating_add(20000),
        Kind::Noise => drawn.saturating_mul(60),
    }
}

/// The values of `count` series.
fn values_of(alloc: Global, kind: Kind, count: u32) -> Result<Vec<i16>, NoMemory> {
    let mut source = Source::new(u64::from(count), 500);
    let mut values = Vec::new(alloc);
    for series in 0..count.min(100000) {
        let mut last = 0;
        for drawn in source.values(alloc, LENGTH)? {
            last = next_value(kind, series, drawn, last);
            values.push(last)?;
        }
    }
    Ok(values)
}

/// How many series are sought, in a tree of what leaves, by what tells members apart, by how many workers, and with tables or without.
#[derive(Clone, Copy, Debug)]
struct SearchCase {
    k: u32,
    leaf: u32,
    by: Option<ApartBy>,
    workers: u32,
    tables: bool,
}

/// Whether the answer to a query is what a plain sort finds, for each of these searches.
fn agree<T: Threads + Sync>(
    rt: &T,
    alloc: Global,
    values: Vec<i16>,
    search: SearchCase,
) -> Result<bool, NoMemory> {
    let SearchCase {
        k,
        leaf,
        by,
        workers,
        tables,
    } = search;
    if values.len() % LENGTH as usize != 0 || values.len() > 16777216 {
        return Err(NoMemory);
    }
    if k < 1 || k > 1024 || workers < 1 || workers > 64 {
        return Err(NoMemory);
    }
    let rows = Flat::from_values(LENGTH, values);
    let settings = Settings::new(LENGTH, 16, Table::Bent, leaf);
    let index = build(rt, alloc, &rows, &settings, 1, &NoGate)?;
    let index = tree_with(&rows, &settings, index, tables);
    let query = [100i16; LENGTH as usize];
    let task = Task::new(&rows, &query, k, &settings.layout);
    let found = match by {
        Some(by) => answer_by_stretches(rt, alloc, &task, &index, by, workers, &NoGate)?,
        None => answer_by_team(rt, alloc, &task, &index, workers, &NoGate)?,
    };
    Ok(are_same(&found.items, &plain_nearest(alloc, &rows, &query, k)?))
}

const KINDS: [Kind; 4] = [Kind::Walks, Kind::Equal, Kind::Clusters, Kind::Noise];

// How many workers search; two and eight of them by a tree with nothing beside it.
const WORKERS: [u32; 5] = [1, 2, 3, 8, 64];

// Each way, and none, so that the search chooses one.
const WAYS: [Option<ApartBy>; 4] = [
    Some(ApartBy::Means),
    Some(ApartBy::Codes),
    Some(ApartBy::Nothing),
    None,
];

// How many series there are, and how many are asked for.
const SIZES: [(u32, &[u32]); 5] = [
    (0, &[1]),
    (1, &[1]),
    (2, &[3]),
    (7, &[2, 1000]),
    (1000, &[1, 100, 1024]),
];

/// Claims that this search over `count` series of a kind finds what a plain sort finds.
fn claim<T: Threads + Sync + Abort>(
    rt: &T,
    alloc: Global,
    kind: Kind,
    count: u32,
    search: SearchCase,
) -> Result<(), Fail> {
    let same = agree(rt, alloc, values_of(alloc, kind, count)?, search)?;
    assert_same!(rt; same, true, "{count} series, {kind:?}, {search:?}");
    Ok(())
}

/// Claims it of each number of workers in each way.
fn claim_each_way<T: Threads + Sync + Abort>(
    rt: &T,
    alloc: Global,
    kind: Kind,
    count: u32,
    k: u32,
) -> Result<(), Fail> {
    for workers in WORKERS {
        for by in WAYS {
            let search = SearchCase {
                k,
                leaf: 5,
                by,
                workers,
                tables: workers != 2 && workers != 8,
            };
            claim(rt, alloc, kind, count, search)?;
        }
    }
    Ok(())
}

#[test]
fn each_way_finds_what_a_plain_sort_finds(rt: HostRuntime) -> Result<(), Fail> {
    for kind in KINDS {
        for (count, wanted) in SIZES {
            for k in wanted {
                claim_each_way(&rt, rt.alloc(), kind, count, *k)?;
            }
        }
    }
    Ok(())
}

// How many series there are, how many are asked for, and by how many workers. Of a thousand what is left is shared in two parts, and not
// all of 64 workers are hired.
const SHARED: [(u32, u32, u32); 11] = [
    (1000, 10, 1),
    (1000, 10, 2),
    (1000, 10, 4),
    (70000, 1, 1),
    (70000, 1, 2),
    (70000, 1, 4),
    (70000, 200, 1),
    (70000, 200, 2),
    (70000, 200, 4),
    (70000, 1000, 4),
    (70000, 10, 64),
];

#[test]
fn what_is_great_enough_is_shared(rt: HostRuntime) -> Result<(), Fail> {
    for kind in KINDS {
        for (count, k, workers) in SHARED {
            let search = SearchCase {
                k,
                leaf: 100,
                by: None,
                workers,
                tables: true,
            };
            claim(&rt, rt.alloc(), kind, count, search)?;
        }
    }
    Ok(())
}
