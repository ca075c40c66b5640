//! Worked bounds by means, and bounds of scattered rows against a plain computation of the sums that a mean stands for.
use crate::claims::assert_same;
use crate::drawn::scattered;
use mean_bound::{MeanBox, MeanView, Means};
use segment_sums::Cuts;
use std::alloc::Global;
use std::process::Abort;
use std::test::Fail;

/// The bound of a series by its means for a query, both of one length.
fn bound(rt: &impl Abort, series: &[i16], query: &[i16], w: u32) -> u64 {
    let n = series.len();
    assert!(rt;
        n == query.len() && 1 <= w && w <= 16 && w as usize <= n && n <= 65536,
        "{w} segments of {n} values"
    );
    let cuts = Cuts::new(n as u32, w);
    MeanView::new(&cuts, query).bound(&Means::of(&cuts, series))
}

#[test]
fn worked_bounds(rt: HostRuntime) -> Result<(), Fail> {
    let rows: [(&[i16], &[i16], u32, u64); 10] = [
        (&[5], &[9], 1, 16),
        (&[9], &[5], 1, 16),
        (&[0; 4], &[1; 4], 2, 0),
        (&[0; 4], &[3; 4], 2, 16),
        (&[0; 5], &[10; 5], 2, 324),
        (&[-10; 5], &[0; 5], 2, 324),
        (&[-1, 0, 0, 0, -1], &[0; 5], 2, 0),
        (&[7, 7, -7, -7], &[7, 7, -7, -7], 2, 0),
        (&[-32768; 16], &[32767; 16], 16, 4294443024),
        (&[32767; 16], &[-32768; 16], 16, 4294443024),
    ];
    for (series, query, w, expected) in rows {
        assert_same!(rt;
            bound(&rt, series, query, w),
            expected,
            "{w} segments of {series:?} for {query:?}"
        );
    }
    Ok(())
}

/// The whole number at or below a quotient, for a divisor above 0.
fn floor(number: i64, by: i64) -> i64 {
    if by <= 0 { 0 } else { number.div_euclid(by) }
}

/// How far a query's sum lies outside the sums that a mean stands for, in whole lengths.
fn gap_to_mean(length: i64, mean: i64, query: i64) -> i64 {
    let least = length.wrapping_mul(mean);
    let most = least.wrapping_add(length).wrapping_sub(1);
    let outside = if query < least {
        least.wrapping_sub(query)
    } else if most < query {
        query.wrapping_sub(most)
    } else {
        0
    };
    floor(outside, length).min(16383)
}

/// The length of segment `j` of `w`, and the sums of a series and of a query over it.
fn plain_sums(series: &[i16], query: &[i16], w: usize, j: usize) -> (i64, i64, i64) {
    if w == 0 {
        return (0, 0, 0);
    }
    let n = series.len();
    let from = j.wrapping_mul(n) / w;
    let length = (j.wrapping_add(1).wrapping_mul(n) / w).wrapping_sub(from);
    let mut sums = (0i64, 0i64);
    for (value, asked) in series.iter().zip(query).skip(from).take(length) {
        sums.0 = sums.0.wrapping_add(i64::from(*value));
        sums.1 = sums.1.wrapping_add(i64::from(*asked));
    }
    (i64::try_from(length).unwrap_or(0), sums.0, sums.1)
}

/// The bound, from the definition of a gap.
fn plain_bound(series: &[i16], query: &[i16], w: usize) -> u64 {
    if w == 0 {
        return 0;
    }
    let mut squares = 0i64;
    for j in 0..w {
        let (length, sum, asked) = plain_sums(series, query, w, j);
        let gap = gap_to_mean(length, floor(sum, length), asked);
        squares = squares.wrapping_add(gap.wrapping_mul(gap));
    }
    (squares.unsigned_abs()).wrapping_mul((series.len() / w) as u64)
}

/// Compares the bounds of scattered rows of so many values with those of the sums.
fn compare_scattered(
    rt: &impl Abort,
    alloc: Global,
    seed: u64,
    n: usize,
    w: u32,
) -> Result<(), Fail> {
    let series = scattered(alloc, seed, n, 2 + (seed % 15) as u32)?;
    let query = scattered(alloc, seed.wrapping_add(100), n, 16)?;
    assert_same!(rt;
        bound(rt, &series, &query, w),
        plain_bound(&series, &query, w as usize),
        "{w} segments of {n} values from {seed}"
    );
    Ok(())
}

#[test]
fn bounds_are_those_of_the_sums(rt: HostRuntime) -> Result<(), Fail> {
    for seed in 1..=40u64 {
        for w in 1..=16u32 {
            compare_scattered(&rt, rt.alloc(), seed, 16 + 2 * seed as usize, w)?;
        }
    }
    Ok(())
}

/// The means of series of two values.
fn means_of_pairs(rt: &impl Abort, alloc: Global, series: &[&[i16]]) -> Result<Vec<Means>, Fail> {
    let cuts = Cuts::new(2, 2);
    let mut means = Vec::new(alloc);
    for values in series {
        assert!(rt; values.len() == 2, "two values a series");
        means.push(Means::of(&cuts, values))?;
    }
    Ok(means)
}

#[test]
fn a_box_bounds_what_lies_in_it(rt: HostRuntime) -> Result<(), Fail> {
    let rows: [(&[&[i16]], &[i16], u64); 6] = [
        (&[&[5, 5]], &[9, 9], 32),
        (&[&[5, 5], &[3, 8]], &[9, 9], 17),
        (&[&[5, 5], &[3, 8]], &[4, 6], 0),
        (&[&[5, 5], &[3, 8]], &[0, 0], 34),
        (&[&[5, 5], &[3, 8], &[-1, 20]], &[9, 30], 116),
        (&[], &[9, 9], 4294443024),
    ];
    for (series, query, expected) in rows {
        let cuts = Cuts::new(2, 2);
        assert!(rt; query.len() == 2, "two values a query");
        let view = MeanView::new(&cuts, query);
        let means = means_of_pairs(&rt, rt.alloc(), series)?;
        let mut boxes = Vec::new(rt.alloc());
        for own in &means {
            boxes.push(MeanBox::around(&[*own]))?;
        }
        let around = view.bound_box(&MeanBox::around(&means));
        assert_same!(rt; around, expected, "{series:?} for {query:?}");
        let around = view.bound_box(&MeanBox::around_boxes(&boxes));
        assert_same!(rt;
            around,
            expected,
            "a box for each of {series:?} for {query:?}"
        );
    }
    Ok(())
}

#[test]
fn bounds_of_the_usual_lengths_are_those_of_the_sums(rt: HostRuntime) -> Result<(), Fail> {
    let divisions: [(usize, u32); 7] = [
        (8, 8),
        (32, 16),
        (64, 16),
        (128, 16),
        (256, 16),
        (512, 16),
        (1024, 16),
    ];
    for (n, w) in divisions {
        for seed in 1..=12u64 {
            compare_scattered(&rt, rt.alloc(), seed, n, w)?;
        }
    }
    Ok(())
}
