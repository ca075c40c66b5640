//! Walks as tables. The words of 1234567 and its walks come from the published generator; others from a plain program.

use crate::claims::assert_same;
use rand_core::{Rng, SeedableRng};
use rand_xoshiro::SplitMix64;
use random_walks::{generator, walks};
use series_core::Rows;
use std::test::Fail;

#[test]
fn the_first_words_and_walks(rt: HostRuntime) -> Result<(), Fail> {
    let alloc = rt.alloc();
    let mut words = SplitMix64::from_seed(1234567u64.to_le_bytes());
    for word in [
        6457827717110365317u64,
        3203168211198807973,
        9817491932198370423,
        4593380528125082431,
    ] {
        assert_same!(rt; words.next_u64(), word, "the words of 1234567");
    }
    let mut rng = generator(1234567);
    let series = walks(alloc, &mut rng, 1, 2)?;
    let queries = walks(alloc, &mut rng, 1, 2)?;
    assert_same!(rt; series.values(), [-76i16, -40].as_slice(), "the series");
    assert_same!(rt; queries.values(), [-64i16, -103].as_slice(), "the query");
    assert_same!(rt; rng.state(), words.state(), "where the generator stands");
    Ok(())
}

#[test]
fn walks_are_whole_and_bounded(rt: HostRuntime) -> Result<(), Fail> {
    let alloc = rt.alloc();
    // A seed, how many walks of which length, and the sum and the last of their values.
    let table = [
        (0u64, 0, 5, 0, None),
        (1, 3, 1, -183, Some(-37)),
        (7, 300, 16, 15527, Some(33)),
        (u64::MAX, 2, 65536, -62092878, Some(6355)),
        (5, 1, 60000, -155641196, Some(-15736)),
        // These two reach a bound, the lower one and the upper one.
        (4, 1, 65536, -1278524232, Some(-22994)),
        (16, 1, 65536, 1279979627, Some(18091)),
    ];
    for (seed, count, length, sum, last) in table {
        let mut rng = generator(seed);
        let rows = walks(alloc, &mut rng, count, length)?;
        assert_same!(rt; rows.count(), count, "seed {seed}");
        assert_same!(rt; rows.length(), length, "seed {seed}");
        let values = rows.values();
        let mut total = 0i64;
        for value in values {
            total = total.wrapping_add(i64::from(*value));
        }
        assert_same!(rt; total, sum, "seed {seed}");
        assert_same!(rt; values.last().copied(), last, "seed {seed}");
    }
    Ok(())
}
