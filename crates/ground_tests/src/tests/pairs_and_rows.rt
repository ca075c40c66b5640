//! Tests: the best pairs against a plain sort, and the rows of a flat collection.

use crate::claims::assert_same;
use series_core::{Flat, KBest, Pair, Rows};
use std::test::Fail;

fn pair(distance: u64, number: u32) -> Pair {
    Pair { distance, number }
}

// Lists with ties, repeats, ascending, descending and neither: (distance, number).
const LISTS: [&[(u64, u32)]; 6] = [
    &[],
    &[(5, 1), (5, 0), (9, 2), (1, 7)],
    &[(1, 1), (2, 2), (3, 3), (4, 4), (5, 5)],
    &[(5, 5), (4, 4), (3, 3), (2, 2), (1, 1)],
    &[(7, 3), (7, 3), (7, 1), (7, 3), (7, 2)],
    &[(18446744073709551614, 0), (0, 4294967295), (0, 0), (8, 8)],
];

#[test]
fn best_pairs_are_the_front_of_a_plain_sort(rt: HostRuntime) -> Result<(), Fail> {
    for list in LISTS {
        for k in 1..=6u32 {
            let mut best = KBest::new(rt.alloc(), k)?;
            let mut plain = Vec::new(rt.alloc());
            for (distance, number) in list {
                best.add(pair(*distance, *number));
                plain.push(pair(*distance, *number))?;
            }
            plain.sort()?;
            plain.truncate(k as usize);
            assert_same!(rt; best.pairs(), plain.as_slice(), "k = {k}, list {list:?}");
            let last = plain.get(k as usize - 1).copied();
            assert_same!(rt; best.worst(), last, "worst of k = {k}, list {list:?}");
        }
    }
    Ok(())
}

#[test]
fn two_best_pairs_and_a_merge(rt: HostRuntime) -> Result<(), Fail> {
    let mut best = KBest::new(rt.alloc(), 2)?;
    for added in [pair(5, 1), pair(5, 0), pair(9, 2), pair(1, 7)] {
        best.add(added);
    }
    assert_same!(rt; best.pairs(), [pair(1, 7), pair(5, 0)].as_slice());
    let mut other = KBest::new(rt.alloc(), 3)?;
    other.add(pair(0, 3));
    best.merge(&other);
    assert_same!(rt; best.pairs(), [pair(0, 3), pair(1, 7)].as_slice());
    Ok(())
}

#[test]
fn rows_of_a_flat_collection(rt: HostRuntime) -> Result<(), Fail> {
    let values = [1i16, -2, 3, -4, i16::MAX, i16::MIN].to_vec(rt.alloc())?;
    assert!(rt; values.len() == 6, "six values");
    let flat = Flat::from_values(2, values);
    assert!(rt; flat.count() == 3, "three rows");
    assert_same!(rt; flat.length(), 2);
    assert_same!(rt;
        flat.row(2),
        [i16::MAX, i16::MIN].as_slice(),
        "the last row"
    );
    assert_same!(rt; flat.values().len(), 6);
    Ok(())
}
