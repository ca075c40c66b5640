//! Values that may differ by anything: their squares take 32 bits each and add up in 64. That costs much, so a lower bound goes
//! first. No sum wraps, since the distance of any two series stays far below 2^64.

ghost use Rattle.std.specs.Prelude.{◌≡◌, ◌+◌, ◌≤◌, ◌<◌, ◌^◌, length, map, FitsSigned, MatchOption};
ghost use Rattle.std.specs.List.{All};
ghost use Rattle.std.specs.Simd.Lanes.{chunk, sum_l, Each1};
ghost use mir.Syntax.{w16};
ghost use Rattle.series_core.specs.Distance.{squared_distance};
ghost use Rattle.simd_distance.specs.Blocks.{AreBlocks};
ghost use Rattle.simd_distance.specs.Lanes.{square};

use crate::blocks::{BLOCK, rest_distance, within};
use crate::lanes::{LANES, sixteen_differences};
use crate::low::low_quarter;
use series_core::MAX_LENGTH;
use std::simd::prelude::*;

/// The squared Euclidean distance of two series where it is at most `limit`. A lower bound is taken block by block, and the distance
/// itself only of series that it does not give up.
#[inline(never)]
pub(crate) fn far_within(x: &[i16], q: &[i16], limit: u64) -> Option<u64>
    requires same_length { length x.now ≡ length q.now }
    requires short { length x.now ≤ MAX_LENGTH }
    requires x_fits { All (FitsSigned w16) x.now }
    requires q_fits { All (FitsSigned w16) q.now }
    ensures { let d = squared_distance x.now q.now in
        MatchOption result (limit < d) (λ found. (found ≡ d) × (found ≤ limit)) }
{
    let mut low = 0;
    for block in 0..x.len() / BLOCK {
        let at = block * BLOCK;
        low += 4 * low_quarter(&x[at..at + BLOCK], &q[at..at + BLOCK]);
        if low > limit {
            return None;
        }
    }
    within(by_blocks(x, q), limit)
}

/// The squared Euclidean distance, block by block.
fn by_blocks(x: &[i16], q: &[i16]) -> u64
    requires same_length { length x.now ≡ length q.now }
    requires short { length x.now ≤ MAX_LENGTH }
    requires x_fits { All (FitsSigned w16) x.now }
    requires q_fits { All (FitsSigned w16) q.now }
    ensures { result ≡ squared_distance x.now q.now }
{
    let blocks = x.len() / BLOCK;
    let mut sum = 0;
    for block in 0..blocks {
        let at = block * BLOCK;
        sum += far_distance(&x[at..at + BLOCK], &q[at..at + BLOCK]);
    }
    let rest = blocks * BLOCK;
    sum + rest_distance(&x[rest..], &q[rest..])
}

/// The squared Euclidean distance of any two blocks of whole sixteens, in lanes of 64 bits. It stands by itself, so that the
/// compiler keeps near blocks in few instructions.
#[inline(never)]
pub(crate) fn far_distance(x: &[i16], q: &[i16]) -> u64
    requires { AreBlocks x.now q.now }
    ensures { result ≡ squared_distance x.now q.now }
{
    let mut sums = u64x16::splat(0);
    for sixteen in 0..x.len() / LANES {
        sums = lanes_added(sums, sixteen_squares(x, q, LANES * sixteen));
    }
    lane_sum(sums)
}

/// The squared differences of the sixteen pairs of values from place `at` on, stated by their sum.
fn sixteen_squares(x: &[i16], q: &[i16], at: usize) -> u64x16
    requires x_sixteen { at + 16 ≤ length x.now }
    requires q_sixteen { at + 16 ≤ length q.now }
    requires x_fits { All (FitsSigned w16) x.now }
    requires q_fits { All (FitsSigned w16) q.now }
    ensures { sum_l result ≡ squared_distance (chunk at 16 x.now) (chunk at 16 q.now) }
{
    squares(sixteen_differences(x, q, at))
}

/// The squares of sixteen numbers below 65536.
fn squares(numbers: u32x16) -> u64x16
    requires { Each1 (λ n. n < 65536) numbers }
    ensures { result ≡ map square numbers }
{
    (numbers * numbers).cast::<u64>()
}

/// The sums of two vectors, lane by lane, stated by their sum.
fn lanes_added(a: u64x16, b: u64x16) -> u64x16
    requires { sum_l a + sum_l b < 2 ^ 64 }
    ensures { sum_l result ≡ sum_l a + sum_l b }
{
    a.strict_add(b)
}

/// The sum of the lanes.
fn lane_sum(lanes: u64x16) -> u64
    requires { sum_l lanes < 2 ^ 64 }
    ensures { result ≡ sum_l lanes }
{
    lanes.strict_reduce_sum()
}
