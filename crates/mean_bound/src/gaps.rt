//! Gaps of sixteen means in lanes of 16 bits. A gap is cut at 16383, so that the squares of all add up in 32 bits.
ghost use Rattle.std.specs.Prelude.{◌≡◌, ◌-◌, ◌≤◌, ◌<◌, ◌^◌, length, map, min, max};
ghost use Rattle.std.specs.Simd.Lanes.{zip2, sum_l, Each1};
ghost use Rattle.mean_bound.specs.MeanBound.{gaps_between, square};

use std::simd::prelude::*;

/// The most that a gap counts.
const MOST: u16 = 16383;

/// The sum of the squares of the gaps of what reaches from the least to the greatest.
pub(crate) fn squared_gaps(lows: u16x16, highs: u16x16, leasts: u16x16, greatests: u16x16) -> u32
    requires lows { length lows ≡ 16 }
    requires highs { length highs ≡ 16 }
    requires leasts { length leasts ≡ 16 }
    requires greatests { length greatests ≡ 16 }
    ensures value { result ≡ sum_l (map square (gaps_between lows highs leasts greatests)) }
{
    sum_of(squares(gaps(lows, highs, leasts, greatests)))
}

/// How far each lies below the lows or above the highs, and at most 16383.
fn gaps(lows: u16x16, highs: u16x16, leasts: u16x16, greatests: u16x16) -> u16x16
    requires lows { length lows ≡ 16 }
    requires highs { length highs ≡ 16 }
    requires leasts { length leasts ≡ 16 }
    requires greatests { length greatests ≡ 16 }
    ensures value { result ≡ gaps_between lows highs leasts greatests }
    ensures small { Each1 (λ n. n ≤ 16383) result }
{
    let below = excess(lows, greatests);
    let above = excess(leasts, highs);
    cut(greater(below, above))
}

/// How far each number lies above the other, and 0 where it does not.
fn excess(a: u16x16, b: u16x16) -> u16x16
    requires a { length a ≡ 16 }
    requires b { length b ≡ 16 }
    ensures { result ≡ zip2 (λ x y. x - y) a b }
{
    a.saturating_sub(b)
}

/// The lesser of each two numbers.
pub(crate) fn lesser(a: u16x16, b: u16x16) -> u16x16
    requires a { length a ≡ 16 }
    requires b { length b ≡ 16 }
    ensures { result ≡ zip2 min a b }
{
    a.simd_min(b)
}

/// The greater of each two numbers.
pub(crate) fn greater(a: u16x16, b: u16x16) -> u16x16
    requires a { length a ≡ 16 }
    requires b { length b ≡ 16 }
    ensures { result ≡ zip2 max a b }
{
    a.simd_max(b)
}

/// Each number, but at most 16383.
fn cut(numbers: u16x16) -> u16x16
    requires { length numbers ≡ 16 }
    ensures { result ≡ map (λ n. min n 16383) numbers }
{
    numbers.simd_min(u16x16::splat(MOST))
}

/// The squares of sixteen numbers of at most 16383.
#[tactic(auto, using(crate::proofs::Squares::squares_are))]
fn squares(numbers: u16x16) -> u32x16
    requires { Each1 (λ n. n ≤ 16383) numbers }
    ensures { result ≡ map square numbers }
{
    let wide = numbers.cast::<u32>();
    wide * wide
}

/// The sum of the lanes.
fn sum_of(lanes: u32x16) -> u32
    requires { sum_l lanes < 2 ^ 32 }
    ensures { result ≡ sum_l lanes }
{
    lanes.strict_reduce_sum()
}
