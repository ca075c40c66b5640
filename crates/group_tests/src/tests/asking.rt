//! Batches that are asked: each answer is compared with that of a plain sort.
use crate::tests::kinds::{Kind, drawn_series};
use breakpoints::Table;
use group_answer::{Asked, answers, next_answer, swept_together};
use outside::{NoGate, NoMemory};
use plain_search::{are_same, plain_nearest, tree_with};
use rand_xoshiro::SplitMix64;
use series_core::{Flat, Rows};
use std::alloc::Global;
use std::thread::Threads;
use subtree_build::{Settings, build};

/// How many of all queries are answered together, the first of them first, by a tree with its tables or with nothing beside it. There is no
/// such number where an answer differs from that of a plain sort, in a list or one after another, or where more than 64 are ahead.
pub(super) fn swept_if_right<T: Threads + Sync>(
    rt: &T,
    alloc: Global,
    rows: &Flat,
    queries: &Flat,
    k: u32,
    tables: bool,
) -> Result<Option<usize>, NoMemory> {
    let length = rows.length();
    if queries.length() != length || k < 1 || k > 1024 {
        return Err(NoMemory);
    }
    let settings = Settings::new(length, length.min(16), Table::Bent, 16);
    let index = build(rt, alloc, rows, &settings, 1, &NoGate)?;
    let index = tree_with(rows, &settings, index, tables);
    let asked = Asked {
        rows,
        queries,
        k,
        layout: &settings.layout,
        index: &index,
    };
    let all = answers(alloc, &asked, 0, queries.count())?;
    let mut ahead = Vec::new(alloc);
    for i in 0..queries.count() {
        let plain = plain_nearest(alloc, rows, queries.row(i), k)?;
        let next = next_answer(alloc, &asked, i, queries.count(), &mut ahead)?;
        let Some(pairs) = all.get(i as usize) else {
            return Ok(None);
        };
        if !are_same(&pairs.items, &plain) || !are_same(&next.items, &plain) || ahead.len() > 64 {
            return Ok(None);
        }
    }
    if all.len() != queries.count() as usize || !ahead.is_empty() {
        return Ok(None);
    }
    Ok(Some(swept_together(alloc, &asked, 0, queries.count())?.len()))
}

/// The kinds of the rows and of the queries, how many rows and how many queries there are, how many values each has, and how many are
/// asked for.
pub(super) type Batch<'a> = ([&'a [Kind]; 2], [u32; 2], u32, u32);

/// The same of a batch whose rows and queries are drawn.
pub(super) fn drawn_swept<T: Threads + Sync>(
    rt: &T,
    alloc: Global,
    rng: &mut SplitMix64,
    batch: Batch<'_>,
    tables: bool,
) -> Result<Option<usize>, NoMemory> {
    let ([kinds, asked], [rows, queries], length, k) = batch;
    let rows = drawn_series(alloc, rng, kinds, rows, length)?;
    let queries = drawn_series(alloc, rng, asked, queries, length)?;
    swept_if_right(rt, alloc, &rows, &queries, k, tables)
}
