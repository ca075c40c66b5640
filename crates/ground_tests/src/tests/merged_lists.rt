//! Tests: what two lists of the best pairs hold after a merge, against a plain sort of the pairs of both.

use crate::claims::assert_same;
use series_core::{KBest, Pair};
use std::alloc::Global;
use std::test::Fail;

// The pairs of two lists as (distance, number), and what is told by them.
const CASES: [(&str, &[(u64, u32)], &[(u64, u32)]); 10] = [
    ("both empty", &[], &[]),
    ("nothing to add", &[(1, 1), (2, 2), (3, 3)], &[]),
    ("nothing held", &[], &[(1, 1), (2, 2), (3, 3)]),
    (
        "the same pairs",
        &[(5, 1), (5, 2), (6, 0)],
        &[(5, 1), (5, 2), (6, 0)],
    ),
    (
        "one pair all over",
        &[(7, 7), (7, 7), (7, 7)],
        &[(7, 7), (7, 7)],
    ),
    (
        "all of the other before",
        &[(7, 1), (8, 2), (9, 3)],
        &[(1, 4), (2, 5), (3, 6)],
    ),
    (
        "all of the other after",
        &[(1, 4), (2, 5), (3, 6)],
        &[(7, 1), (8, 2), (9, 3)],
    ),
    (
        "by turns",
        &[(1, 0), (3, 0), (5, 0), (7, 0)],
        &[(2, 0), (4, 0), (6, 0), (8, 0)],
    ),
    (
        "as near, by numbers",
        &[(4, 8), (4, 2), (4, 6)],
        &[(4, 7), (4, 1), (4, 5), (4, 3)],
    ),
    (
        "one inside",
        &[(1, 1), (9, 9)],
        &[(3, 3), (4, 4), (5, 5), (6, 6), (10, 0)],
    ),
];

#[test]
fn a_merge_is_the_front_of_a_plain_sort(rt: HostRuntime) -> Result<(), Fail> {
    for (case, held, others) in CASES {
        for k in 1..=10u32 {
            for other_k in 1..=6u32 {
                let mut best = KBest::new(rt.alloc(), k)?;
                add_all(&mut best, held);
                let mut other = KBest::new(rt.alloc(), other_k)?;
                add_all(&mut other, others);
                best.merge(&other);
                let mut plain = plain_best(rt.alloc(), k, held)?;
                let added = plain_best(rt.alloc(), other_k, others)?;
                plain.extend_from_slice(&added)?;
                plain.sort()?;
                plain.truncate(k as usize);
                assert_same!(rt; best.pairs(), plain.as_slice(), "{case}: {k} of both, {other_k} of the other");
            }
        }
    }
    Ok(())
}

// Adds pair by pair.
fn add_all(best: &mut KBest, pairs: &[(u64, u32)]) {
    for (distance, number) in pairs {
        best.add(Pair {
            distance: *distance,
            number: *number,
        });
    }
}

// The front of a plain sort.
fn plain_best(alloc: Global, k: u32, pairs: &[(u64, u32)]) -> Result<Vec<Pair>, Fail> {
    let mut plain = Vec::new(alloc);
    for (distance, number) in pairs {
        plain.push(Pair {
            distance: *distance,
            number: *number,
        })?;
    }
    plain.sort()?;
    plain.truncate(k as usize);
    Ok(plain)
}
