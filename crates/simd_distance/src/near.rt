//! Blocks that differ by less than 32768 at each place: two products at a time are multiplied and added in one step.
//! Whether a block is near is seen of the same differences, so that none is read twice.

ghost use Rattle.std.specs.Prelude.{◌≡◌, ◌+◌, ◌≤◌, ◌<◌, ◌^◌, length, map, bit_or, IfSome};
ghost use Rattle.std.specs.Simd.Lanes.{zip2, sum_l, fold_l, Each1};
ghost use Rattle.series_core.specs.Distance.{squared_distance};
ghost use Rattle.simd_distance.specs.Blocks.{AreBlocks};
ghost use Rattle.simd_distance.specs.Lanes.{square_of_low};

use crate::lanes::{LANES, sixteen_differences};
use std::simd::prelude::*;

/// Blocks are near where they differ by less than this at each place.
const NEAR: u32 = 32768;

/// The squared Euclidean distance of two blocks of whole sixteens where they differ by less than 32768 at each place. None
/// where they do not.
#[inline(always)]
pub(crate) fn near_distance(x: &[i16], q: &[i16]) -> Option<u64>
    requires { AreBlocks x.now q.now }
    ensures { IfSome result (λ d. d ≡ squared_distance x.now q.now) }
{
    let mut bits = u32x16::splat(0);
    let mut sums = u64x4::splat(0);
    for sixteen in 0..x.len() / LANES {
        let numbers = sixteen_differences(x, q, LANES * sixteen);
        bits = bits_of_both(bits, numbers);
        sums = sums_added(sums, sums_of_four(squares_of_low(numbers)));
    }
    if bits_of_all(bits) < NEAR {
        Some(sum_of(sums))
    } else {
        None
    }
}

/// The squares of the low 15 bits of sixteen numbers. The mask changes no number of a near block: it shows the compiler that it may
/// multiply and add in one step.
fn squares_of_low(numbers: u32x16) -> u32x16
    requires { length numbers ≡ 16 }
    ensures { result ≡ map square_of_low numbers }
{
    let low = numbers & u32x16::splat(0x7fff);
    low * low
}

/// The sums of four lanes each, neighbours first.
pub(crate) fn sums_of_four(squares: u32x16) -> u64x4
    requires lanes { length squares ≡ 16 }
    requires small { Each1 (λ n. n ≤ 1073676289) squares }
    ensures { sum_l result ≡ sum_l squares }
{
    let even = squares.swizzle([0, 2, 4, 6, 8, 10, 12, 14]);
    let odd = squares.swizzle([1, 3, 5, 7, 9, 11, 13, 15]);
    let pairs = even.strict_add(odd);
    let first = pairs.swizzle([0, 1, 2, 3]);
    let last = pairs.swizzle([4, 5, 6, 7]);
    first.strict_add(last).cast::<u64>()
}

/// The lanes of both vectors, bit by bit.
fn bits_of_both(a: u32x16, b: u32x16) -> u32x16
    ensures { result ≡ zip2 bit_or a b }
{
    a | b
}

/// The bits of all lanes.
fn bits_of_all(lanes: u32x16) -> u32
    ensures { result ≡ fold_l bit_or 0 lanes }
{
    lanes.reduce_or()
}

/// The sums of two vectors, lane by lane, stated by their sum.
pub(crate) fn sums_added(a: u64x4, b: u64x4) -> u64x4
    requires { sum_l a + sum_l b < 2 ^ 64 }
    ensures { sum_l result ≡ sum_l a + sum_l b }
{
    a.strict_add(b)
}

/// The sum of the lanes.
pub(crate) fn sum_of(lanes: u64x4) -> u64
    requires { sum_l lanes < 2 ^ 64 }
    ensures { result ≡ sum_l lanes }
{
    lanes.strict_reduce_sum()
}
