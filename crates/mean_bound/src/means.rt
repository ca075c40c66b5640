//! The means of a series' segments, as they are stored. Values are raised by 32768, so that no mean is below 0; a mean is
//! rounded down, and never up, so that a series' sum is at least its mean times the length.
ghost use Rattle.std.specs.Prelude.{◌≡◌, ◌*◌, ◌/◌, ◌≤◌, pos, neg_ℤ, ◌+ℤ◌, ◌≤ℤ◌, length, replicate, unsigned_abs};
ghost use Rattle.mean_bound.specs.Means.{of_segments, raised_sum, row_means, AreMeans, NoRaisedSumAbove};

use search_limits::RAISE;
use segment_sums::Cuts;
use series_core::MAX_LENGTH;
use std::marker::Model;
use std::simd::prelude::*;

/// The raised means of the segments of a series, seen as 16 numbers below 65536; those past the segments are 0.
#[derive(Clone, Copy)]
pub struct Means {
    pub(crate) raised: [u16; 16],
}

impl Model for Means {
    ghost use Rattle.std.specs.Prelude.{ℕ, List};

    ghost Value = { List ℕ };

    ghost view = { λ means. means.raised };

    ghost inverse = { λ raised. record { raised = raised } };
}

impl Means {
    /// Sixteen means of 0.
    pub fn zeros() -> Means
        ensures { result ≡ replicate 16 0 }
    {
        Means { raised: [0; 16] }
    }

    /// The means of a row, whose length is that of the cuts.
    pub fn of(cuts: &Cuts, row: &[i16]) -> Means
        requires { length row.now ≡ cuts.now.row_length }
        ensures { result ≡ row_means cuts.now row.now }
    {
        let (_sums, raised) = sums_and_means(cuts, row);
        Means { raised }
    }

    // The means in lanes.
    pub(crate) fn lanes(&self) -> u16x16
        ensures value { result ≡ self.now }
        ensures sixteen { length result ≡ 16 }
    {
        u16x16::from_array(self.raised)
    }
}

/// The sums of a row's values, each raised by 32768, over each segment, and the means of these; the entries from the number of
/// segments on are 0.
#[inline(always)]
pub(crate) fn sums_and_means(cuts: &Cuts, row: &[i16]) -> ([u32; 16], [u16; 16])
    requires { length row.now ≡ cuts.now.row_length }
    ensures { AreMeans cuts.now row.now result.0 result.1 }
{
    match (cuts.segments(), cuts.length()) {
        (8, 8) => of_equal::<8, 1>(cuts, row),
        (16, 32) => of_equal::<16, 2>(cuts, row),
        (16, 64) => of_equal::<16, 4>(cuts, row),
        (16, 128) => of_equal::<16, 8>(cuts, row),
        (16, 256) => of_equal::<16, 16>(cuts, row),
        (16, 512) => of_equal::<16, 32>(cuts, row),
        (16, 1024) => of_equal::<16, 64>(cuts, row),
        _ => of_any(cuts, row),
    }
}

/// The same of W segments of L values each. The compiler knows both numbers, so that it divides without a division.
fn of_equal<const W: usize, const L: usize>(cuts: &Cuts, row: &[i16]) -> ([u32; 16], [u16; 16])
    requires length { length row.now ≡ cuts.now.row_length }
    requires segments { cuts.now.segments ≡ W }
    requires equal { cuts.now.row_length ≡ W * L }
    ensures { AreMeans cuts.now row.now result.0 result.1 }
{
    // for the fact that the cuts divide
    let _segments = cuts.segments();
    let sums = equal_raised_sums::<W, L>(cuts, row);
    let mut means = [0; 16];
    for j in 0..W {
        means[j] = mean_of(sums[j], L as u32);
    }
    (sums, means)
}

/// The same of segments of any lengths.
fn of_any(cuts: &Cuts, row: &[i16]) -> ([u32; 16], [u16; 16])
    requires { length row.now ≡ cuts.now.row_length }
    ensures { AreMeans cuts.now row.now result.0 result.1 }
{
    let sums = raised_sums(cuts, row);
    let mut means = [0; 16];
    for j in 0..cuts.segments() {
        let (from, to) = cuts.cut(j);
        means[j as usize] = mean_of(sums[j as usize], to - from);
    }
    (sums, means)
}

/// The mean of `length` values whose raised sum is `sum`, rounded down.
fn mean_of(sum: u32, length: u32) -> u16
    requires some { 1 ≤ length }
    requires limit { sum ≤ 65535 * length }
    ensures { result ≡ sum / length }
{
    (sum / length) as u16
}

/// The sums of a row's values, each raised by 32768, over each segment; the entries from the number of segments on are 0.
fn raised_sums(cuts: &Cuts, row: &[i16]) -> [u32; 16]
    requires { length row.now ≡ cuts.now.row_length }
    ensures sums { result ≡ of_segments cuts.now (raised_sum cuts.now row.now) }
    ensures limit { NoRaisedSumAbove cuts.now row.now cuts.now.segments }
{
    let mut sums = [0; 16];
    cuts.sums(row, &mut sums);
    let mut raised = [0; 16];
    for j in 0..cuts.segments() {
        let (from, to) = cuts.cut(j);
        raised[j as usize] = raised_by(to - from, sums[j as usize]);
    }
    raised
}

/// The same over W segments of L values each, both of which the compiler knows.
#[inline(always)]
fn equal_raised_sums<const W: usize, const L: usize>(cuts: &Cuts, row: &[i16]) -> [u32; 16]
    requires length { length row.now ≡ cuts.now.row_length }
    requires segments { cuts.now.segments ≡ W }
    requires equal { cuts.now.row_length ≡ W * L }
    ensures sums { result ≡ of_segments cuts.now (raised_sum cuts.now row.now) }
    ensures limit { NoRaisedSumAbove cuts.now row.now cuts.now.segments }
    ensures known { (1 ≤ L) × (L ≤ MAX_LENGTH) }
{
    // for the fact that the cuts divide
    let _segments = cuts.segments();
    let mut sums = [0; 16];
    cuts.sums(row, &mut sums);
    let mut raised = [0; 16];
    for j in 0..W {
        raised[j] = raised_by(L as u32, sums[j]);
    }
    raised
}

/// The sum of `length` values, each raised by 32768, from the sum of the values as they are.
fn raised_by(length: u32, sum: i32) -> u32
    requires few_values { length ≤ MAX_LENGTH }
    requires not_low { neg_ℤ (pos (RAISE * length)) ≤ℤ sum }
    requires not_high { sum ≤ℤ pos (32767 * length) }
    ensures value { result ≡ unsigned_abs (sum +ℤ pos (RAISE * length)) }
    ensures limit { result ≤ 65535 * length }
{
    (i64::from(sum) + i64::from(RAISE) * i64::from(length)) as u32
}
