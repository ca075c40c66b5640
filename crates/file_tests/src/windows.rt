//! Tests: the windows of a short series and the pairs chosen of them, and drawn values against
//! plain slices.

ghost use Rattle.std.specs.Prelude.{◌<◌};

use crate::claims::assert_same;
use series_core::{KBest, Pair, PairList, Rows};
use std::alloc::{AllocError, Global};
use std::test::Fail;
use window_rows::{Windows, choose};

const SERIES: [i16; 5] = [0, 0, 10, 10, 0];

// Length and step of windows of `SERIES`, and the windows that there are.
const WINDOWS: [(u32, u32, &[&[i16]]); 7] = [
    (2, 1, &[&[0, 0], &[0, 10], &[10, 10], &[10, 0]]),
    (2, 2, &[&[0, 0], &[10, 10]]),
    (2, 3, &[&[0, 0], &[10, 0]]),
    (2, 4, &[&[0, 0]]),
    (5, 9, &[&[0, 0, 10, 10, 0]]),
    (6, 1, &[]),
    (1, 2, &[&[0], &[10], &[0]]),
];

// The windows of values, within the limits.
fn windows_of(values: &[i16], length: u32, step: u32) -> Windows<'_> {
    let few = values.len().min(16777216);
    Windows::new(&values[..few], length.clamp(1, 65536), step.max(1))
}

// Whether all threads may read it.
fn is_shared<T: Sync>(_shared: &T) -> bool {
    true
}

#[test]
fn windows_of_a_series(rt: HostRuntime) {
    for (length, step, want) in WINDOWS {
        let windows = windows_of(&SERIES, length, step);
        assert!(rt; is_shared(&windows));
        assert_same!(rt;
            windows.count() as usize,
            want.len(),
            "length {length} by {step}"
        );
        assert_same!(rt; windows.length(), length, "length {length} by {step}");
        for i in 0..windows.count() {
            let found = windows.row(i);
            let wanted: &[i16] = want.get(i as usize).copied().unwrap_or(&[]);
            assert_same!(rt; found, wanted, "window {i} of {length} by {step}");
        }
    }
}

// Length, step, k, distance apart and how many of the nearest are enough; and the pairs that are
// chosen
// of the windows of `SERIES` for a query of ones, as (distance, number).
const CHOICES: [(u32, u32, u32, u32, u32, &[(u64, u32)]); 6] = [
    (2, 1, 3, 1, 3, &[(2, 0), (82, 1), (82, 3)]),
    (2, 1, 2, 2, 4, &[(2, 0), (82, 3)]),
    (2, 1, 3, 2, 7, &[(2, 0), (82, 3)]),
    (2, 2, 9, 1, 9, &[(2, 0), (162, 1)]),
    (6, 1, 1, 1, 1, &[]),
    (2, 1, 0, 1, 1, &[]),
];

// The squared distance from a series of ones.
fn distance_from_ones(row: &[i16]) -> u64 {
    let mut total = 0u64;
    for value in row {
        let difference = u64::from(value.abs_diff(1));
        total = total.wrapping_add(difference * difference);
    }
    total
}

// The k nearest windows.
fn nearest(alloc: Global, windows: &Windows<'_>, k: u32) -> Result<KBest, Fail> {
    let mut best = KBest::new(alloc, k.clamp(1, 1024))?;
    for number in 0..windows.count() {
        let distance = distance_from_ones(windows.row(number));
        best.add(Pair { distance, number });
    }
    Ok(best)
}

// Whether the list has these pairs.
fn has_pairs(list: &PairList, want: &[(u64, u32)]) -> bool {
    list.items.len() == want.len()
        && list
            .items
            .iter()
            .zip(want.iter())
            .all(|(pair, wanted)| (pair.distance, pair.number) == *wanted)
}

#[test]
fn choices_of_a_series(rt: HostRuntime) -> Result<(), Fail> {
    let alloc = rt.alloc();
    for (length, step, k, apart, enough, want) in CHOICES {
        let windows = windows_of(&SERIES, length, step);
        for asked in [enough, 1024] {
            let best = nearest(alloc, &windows, asked)?;
            let chosen = choose(alloc, best.pairs(), apart.max(1), k)?;
            assert_same!(rt; has_pairs(&chosen, want), true, "{k} of the {asked} nearest by {step}, {apart} apart");
        }
    }
    Ok(())
}

// The next number of a sequence that looks drawn.
fn next(state: &mut u64) -> u64 {
    *state = state
        .wrapping_mul(6364136223846793005)
        .wrapping_add(1442695040888963407);
    *state >> 33
}

#[test]
fn windows_of_drawn_values(rt: HostRuntime) -> Result<(), Fail> {
    let mut state = 5u64;
    let mut values = Vec::new(rt.alloc());
    for _place in 0..23 {
        values.push((next(&mut state) % 1000) as i16)?;
    }
    for size in 0..24 {
        for length in 1..6 {
            let wrong = first_wrong_step(&values[..size.min(values.len())], length);
            assert_same!(rt; wrong, None, "{length} of {size} values");
        }
    }
    Ok(())
}

// The first step by which the windows are not the plain slices, if any is.
fn first_wrong_step(values: &[i16], length: u32) -> Option<u32> {
    (1..6).find(|step| !are_slices(values, length, *step))
}

// Whether the windows are the slices from each place that is a whole number of steps.
fn are_slices(values: &[i16], length: u32, step: u32) -> bool {
    let windows = windows_of(values, length, step);
    let mut count = 0u32;
    for place in 0..values.len() {
        let rest = &values[place..];
        if place % (step.max(1) as usize) == 0 && length as usize <= rest.len() {
            if count >= windows.count() || windows.row(count) != &rest[..length as usize] {
                return false;
            }
            count = count.saturating_add(1);
        }
    }
    windows.count() == count
}

// Each rank is sought from the first pair on.
fn plain_choice(
    alloc: Global,
    pairs: &[Pair],
    apart: u32,
    k: u32,
) -> Result<Vec<Pair>, AllocError> {
    let mut chosen: Vec<Pair> = Vec::new(alloc);
    for _rank in 0..k {
        let Some(pair) = next_rank(pairs, &chosen, apart) else {
            break;
        };
        chosen.push(pair)?;
    }
    Ok(chosen)
}

// The first pair that is apart from those that were chosen.
fn next_rank(pairs: &[Pair], chosen: &[Pair], apart: u32) -> Option<Pair> {
    for pair in pairs {
        let mut near = 0u32;
        for other in chosen {
            if pair.number.abs_diff(other.number) < apart {
                near = 1;
            }
        }
        if near == 0 {
            return Some(*pair);
        }
    }
    None
}

#[test]
fn choices_of_drawn_pairs(rt: HostRuntime) -> Result<(), Fail> {
    let alloc = rt.alloc();
    let mut state = 11u64;
    for apart in 1..9 {
        let mut pairs = Vec::new(alloc);
        for _place in 0..60 {
            let distance = next(&mut state);
            let number = (next(&mut state) % 50) as u32;
            pairs.push(Pair { distance, number })?;
        }
        pairs.sort()?;
        for k in 0..12 {
            let chosen = choose(alloc, &pairs, apart, k)?;
            let want = plain_choice(alloc, &pairs, apart, k)?;
            assert_same!(rt; chosen.items.as_slice(), want.as_slice(), "{k} that are {apart} apart");
        }
    }
    Ok(())
}
