//! Batches of many sizes, of queries that go by the tree and queries that are swept: each answer is that of a plain sort.
use crate::claims::assert_same;
use crate::tests::asking::{Batch, drawn_swept, swept_if_right};
use crate::tests::kinds::{Kind, drawn_series};
use rand_xoshiro::SplitMix64;
use rand_xoshiro::rand_core::SeedableRng;
use std::test::*;

const NOISE: [Kind; 1] = [Kind::Noise];

const MIXED: [Kind; 5] = [
    Kind::Noise,
    Kind::Walk,
    Kind::Noise,
    Kind::Shrill,
    Kind::Shrill,
];

#[test]
fn batches_of_each_size(rt: HostRuntime) -> Result<(), Fail> {
    let alloc = rt.alloc();
    let mut rng = SplitMix64::seed_from_u64(21);
    let rows = drawn_series(alloc, &mut rng, &MIXED, 500, 256)?;
    for kinds in [&MIXED[..1], &MIXED[1..2], &MIXED[..]] {
        for count in [0, 1, 2, 3, 4, 5, 8, 9, 100] {
            let queries = drawn_series(alloc, &mut rng, kinds, count, 256)?;
            let swept = swept_if_right(&rt, alloc, &rows, &queries, 5, true)?;
            assert_same!(rt; swept.is_some(), true, "{count} queries of {kinds:?}");
        }
    }
    Ok(())
}

// Batches, and whether the tree has its tables or nothing beside it.
const BATCHES: [(Batch<'static>, bool); 14] = [
    (([&MIXED, &MIXED], [100, 9], 256, 5), false),
    (([&MIXED, &MIXED], [200, 3000], 256, 3), true),
    // lengths around those of blocks
    (([&MIXED, &MIXED], [150, 13], 4, 3), true),
    (([&MIXED, &MIXED], [150, 13], 95, 2), true),
    (([&MIXED, &MIXED], [150, 13], 96, 64), true),
    (([&MIXED, &MIXED], [150, 13], 255, 65), true),
    (([&MIXED, &MIXED], [150, 13], 256, 1), true),
    (([&MIXED, &MIXED], [150, 13], 257, 10), true),
    (([&MIXED, &MIXED], [150, 13], 520, 200), true),
    // few rows
    (([&NOISE, &NOISE], [0, 9], 256, 5), true),
    (([&NOISE, &NOISE], [1, 9], 256, 5), true),
    (([&NOISE, &NOISE], [4, 9], 256, 5), true),
    (([&NOISE, &NOISE], [5, 9], 256, 5), true),
    (([&NOISE, &NOISE], [33, 9], 256, 5), true),
];

#[test]
fn batches_over_drawn_rows(rt: HostRuntime) -> Result<(), Fail> {
    let mut rng = SplitMix64::seed_from_u64(22);
    for (batch, tables) in BATCHES {
        let swept = drawn_swept(&rt, rt.alloc(), &mut rng, batch, tables)?;
        assert_same!(rt; swept.is_some(), true, "{batch:?}, tables: {tables}");
    }
    Ok(())
}
