//! A lower bound of the distance of blocks that may differ by anything: a quarter of it, from halves of the differences.
//! Halves take 15 bits, so that two products at a time are multiplied and added in one step, as of near blocks.

ghost use Rattle.std.specs.Prelude.{◌≡◌, ◌*◌, ◌<◌, ◌≤◌, length, map};
ghost use Rattle.std.specs.Simd.Lanes.{Each1};
ghost use Rattle.series_core.specs.Distance.{squared_distance};
ghost use Rattle.simd_distance.specs.Blocks.{AreBlocks};
ghost use Rattle.simd_distance.specs.Lanes.{square_of_half};

use crate::lanes::{LANES, sixteen_differences};
use crate::near::{sum_of, sums_added, sums_of_four};
use std::simd::prelude::*;

/// At most a quarter of the squared Euclidean distance of two blocks of whole sixteens.
#[inline(always)]
pub(crate) fn low_quarter(x: &[i16], q: &[i16]) -> u64
    requires { AreBlocks x.now q.now }
    ensures { 4 * result ≤ squared_distance x.now q.now }
{
    let mut sums = u64x4::splat(0);
    for sixteen in 0..x.len() / LANES {
        let numbers = sixteen_differences(x, q, LANES * sixteen);
        sums = sums_added(sums, sums_of_four(squares_of_halves(numbers)));
    }
    sum_of(sums)
}

/// The squares of the halves, rounded down, of sixteen numbers of 16 bits.
fn squares_of_halves(numbers: u32x16) -> u32x16
    requires lanes { length numbers ≡ 16 }
    requires small { Each1 (λ n. n < 65536) numbers }
    ensures { result ≡ map square_of_half numbers }
{
    let halves = numbers >> u32x16::splat(1);
    halves * halves
}
