//! A query as bounds by means see it: for each segment the means between which a series' mean tells nothing, and the least
//! length of a segment. A gap of one counts at least that length.
ghost use Rattle.std.specs.Prelude.{◌≡◌, ◌+◌, ◌-◌, ◌*◌, ◌/◌, ◌<◌, ◌≤◌, ◌^◌, length};
ghost use Rattle.mean_bound.specs.Boxes.{box_bound};
ghost use Rattle.mean_bound.specs.MeanBound.{mean_view_of, mean_bound};

use crate::gaps::squared_gaps;
use crate::mean_box::MeanBox;
use crate::means::{Means, sums_and_means};
use segment_sums::Cuts;
use std::marker::Model;
use std::simd::prelude::*;

/// A query cut into segments, seen as the least length of a segment and for each segment the least and the greatest mean of
/// the series that may be as near as can be.
#[derive(Clone, Copy)]
pub struct MeanView {
    least_length: u32,
    lows: [u16; 16],
    highs: [u16; 16],
}

impl Model for MeanView {
    ghost use Rattle.mean_bound.specs.MeanBound.{View, IsMeanView};

    ghost Value = { View };

    ghost view = { λ v. record { least_length = v.least_length; lows = v.lows; highs = v.highs } };

    ghost invariant = { λ v. IsMeanView (record { least_length = v.least_length; lows = v.lows; highs = v.highs }) };

    ghost inverse = { λ v. record { least_length = v.least_length; lows = v.lows; highs = v.highs } };
}

impl MeanView {
    /// The view of a query, whose length is that of the cuts.
    pub fn new(cuts: &Cuts, query: &[i16]) -> MeanView
        requires { length query.now ≡ cuts.now.row_length }
        ensures { result ≡ mean_view_of cuts.now query.now }
    {
        let (sums, means) = sums_and_means(cuts, query);
        let mut lows = [0; 16];
        let mut highs = [0; 16];
        for j in 0..cuts.segments() {
            let (from, to) = cuts.cut(j);
            let (sum, mean) = (sums[j as usize], means[j as usize]);
            lows[j as usize] = low_mean(sum, to - from, mean);
            highs[j as usize] = high_mean(sum, to - from, mean);
        }
        MeanView {
            least_length: cuts.length() / cuts.segments(),
            lows,
            highs,
        }
    }

    /// The lower bound of a series by its means: the least length of a segment times the sum of the squares of the gaps.
    pub fn bound(&self, means: &Means) -> u64
        ensures value { result ≡ mean_bound self.now means.now }
        ensures small { result < 2 ^ 48 }
    {
        self.bound_between(means.lanes(), means.lanes())
    }

    /// The lower bound of all series whose means lie in a box.
    pub fn bound_box(&self, around: &MeanBox) -> u64
        ensures value { result ≡ box_bound self.now around.now }
        ensures small { result < 2 ^ 48 }
    {
        let leasts = u16x16::from_array(around.lows);
        let greatests = u16x16::from_array(around.highs);
        self.bound_between(leasts, greatests)
    }

    // The lower bound of all series whose means reach from the least to the greatest.
    #[inline(always)]
    fn bound_between(&self, leasts: u16x16, greatests: u16x16) -> u64
        requires leasts { length leasts ≡ 16 }
        requires greatests { length greatests ≡ 16 }
        ensures value { result ≡ box_bound self.now (record { lows = leasts; highs = greatests }) }
        ensures small { result < 2 ^ 48 }
    {
        let lows = u16x16::from_array(self.lows);
        let highs = u16x16::from_array(self.highs);
        u64::from(self.least_length) * u64::from(squared_gaps(lows, highs, leasts, greatests))
    }
}

/// The least mean without a gap for `length` values whose raised sum is `sum`, and whose mean is known. The sum is one short of the
/// next mean's, or it is not.
fn low_mean(sum: u32, length: u32, mean: u16) -> u16
    requires some { 1 ≤ length }
    requires mean { mean ≡ sum / length }
    ensures { result ≡ (sum + 1) / length - 1 }
{
    let rest = sum - length * u32::from(mean);
    if length - rest > 1 {
        mean.saturating_sub(1)
    } else {
        mean
    }
}

/// The greatest such mean. The sum is the mean's, or lies above it.
fn high_mean(sum: u32, length: u32, mean: u16) -> u16
    requires some { 1 ≤ length }
    requires limit { sum ≤ 65535 * length }
    requires mean { mean ≡ sum / length }
    ensures { result ≡ (sum + (length - 1)) / length }
{
    let rest = sum - length * u32::from(mean);
    if rest > 0 { mean + 1 } else { mean }
}
