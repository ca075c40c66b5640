//! Which queries are swept together: noise by fours, walks not, and none where the first goes by the tree.
use crate::claims::assert_same;
use crate::tests::asking::{Batch, drawn_swept};
use crate::tests::kinds::Kind;
use rand_xoshiro::SplitMix64;
use rand_xoshiro::rand_core::SeedableRng;
use std::test::*;

const NOISE: [Kind; 1] = [Kind::Noise];

const WALKS: [Kind; 1] = [Kind::Walk];

const MIXED: [Kind; 2] = [Kind::Noise, Kind::Walk];

const OTHER: [Kind; 2] = [Kind::Walk, Kind::Noise];

// Batches, and how many of their queries are swept together.
const CHOICES: [(Batch<'static>, usize); 8] = [
    (([&NOISE, &NOISE], [1500, 10], 256, 3), 8),
    (([&NOISE, &NOISE], [1500, 3], 256, 3), 0),
    (([&NOISE, &NOISE], [1500, 4], 256, 3), 4),
    (([&NOISE, &NOISE], [1500, 10], 64, 3), 0),
    (([&NOISE, &NOISE], [1500, 10], 256, 65), 0),
    (([&WALKS, &WALKS], [1500, 10], 256, 3), 0),
    (([&MIXED, &MIXED], [1500, 10], 256, 3), 4),
    (([&MIXED, &OTHER], [1500, 10], 256, 3), 0),
];

#[test]
fn which_queries_are_swept(rt: HostRuntime) -> Result<(), Fail> {
    let mut rng = SplitMix64::seed_from_u64(31);
    for (batch, wanted) in CHOICES {
        let swept = drawn_swept(&rt, rt.alloc(), &mut rng, batch, true)?;
        assert_same!(rt; swept, Some(wanted), "{batch:?}");
    }
    Ok(())
}
