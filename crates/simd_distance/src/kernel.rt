//! The kernel: the distance in lanes, given up as soon as it is above a limit: a short first block, since most series are far, and
//! then blocks of 64 values, since a test at each value costs more than the values that it saves.

ghost use Rattle.std.specs.Prelude.{◌≡◌, ◌+◌, ◌%◌, ◌≤◌, ◌<◌, drop, length, FitsSigned, IfSome, MatchOption};
ghost use Rattle.std.specs.List.{All};
ghost use Rattle.std.specs.Simd.Lanes.{chunk};
ghost use mir.Syntax.{w16};
ghost use Rattle.series_core.specs.Distance.{squared_distance};

use crate::blocks::{BLOCK, rest_distance, within};
use crate::far::far_within;
use crate::near::near_distance;
use crate::plain::distance;
use series_core::{MAX_LENGTH, values_fit};

/// The number of values before the first test of the limit.
const FIRST: usize = 32;

/// The squared Euclidean distance of two series of one length, of at most 65536 values, where it is at most `limit`:
/// Some of it exactly there, and None exactly where it is above `limit`. It takes no memory.
pub fn distance_within(x: &[i16], q: &[i16], limit: u64) -> Option<u64>
    requires same_length { length x.now ≡ length q.now }
    requires short { length x.now ≤ MAX_LENGTH }
    ensures { let d = squared_distance x.now q.now in
        MatchOption result (limit < d) (λ found. (found ≡ d) × (found ≤ limit)) }
{
    values_fit(x);
    values_fit(q);
    if x.len() < FIRST {
        return within(distance(x, q), limit);
    }
    let Some(first) = near_part(x, q, 0, FIRST) else {
        return far_within(x, q, limit);
    };
    let mut sum = first;
    if sum > limit {
        return None;
    }
    let blocks = (x.len() - FIRST) / BLOCK;
    for block in 0..blocks {
        let at = FIRST + block * BLOCK;
        let Some(part) = near_part(x, q, at, BLOCK) else {
            return far_behind(x, q, at, sum, limit);
        };
        sum += part;
        if sum > limit {
            return None;
        }
    }
    let rest = FIRST + blocks * BLOCK;
    sum += rest_distance(&x[rest..], &q[rest..]);
    within(sum, limit)
}

/// The distance where it is at most the limit, of which the values before place `at` make so much.
fn far_behind(x: &[i16], q: &[i16], at: usize, sum: u64, limit: u64) -> Option<u64>
    requires same_length { length x.now ≡ length q.now }
    requires short { length x.now ≤ MAX_LENGTH }
    requires inside { at ≤ length x.now }
    requires x_fits { All (FitsSigned w16) x.now }
    requires q_fits { All (FitsSigned w16) q.now }
    requires small { sum ≤ limit }
    requires parts { sum + squared_distance (drop at x.now) (drop at q.now) ≡ squared_distance x.now q.now }
    ensures { let d = squared_distance x.now q.now in
        MatchOption result (limit < d) (λ found. (found ≡ d) × (found ≤ limit)) }
{
    match far_within(&x[at..], &q[at..], limit - sum) {
        Some(rest) => Some(sum + rest),
        None => None,
    }
}

/// The squared Euclidean distance of `count` values from place `at` on, whole sixteens, where they differ by less than 32768 each.
#[inline(always)]
fn near_part(x: &[i16], q: &[i16], at: usize, count: usize) -> Option<u64>
    requires same_length { length x.now ≡ length q.now }
    requires inside { at + count ≤ length x.now }
    requires short { count ≤ 64 }
    requires sixteens { count % 16 ≡ 0 }
    requires x_fits { All (FitsSigned w16) x.now }
    requires q_fits { All (FitsSigned w16) q.now }
    ensures { IfSome result (λ d. d ≡ squared_distance (chunk at count x.now) (chunk at count q.now)) }
{
    near_distance(&x[at..at + count], &q[at..at + count])
}
