//! Sixteen values at a time: their differences, each exact.
//! A difference of two values takes 16 bits without a sign: it is held as those bits and widened by a mask.

ghost use Rattle.std.specs.Prelude.{◌≡◌, ◌+◌, ◌≤◌, ◌<◌, length, FitsSigned};
ghost use Rattle.std.specs.List.{All};
ghost use Rattle.std.specs.Simd.Lanes.{chunk, zip2, Each1};
ghost use mir.Syntax.{w16};
ghost use Rattle.simd_distance.specs.Lanes.{bits_of, difference};

use std::simd::prelude::*;

/// The number of values that are taken at a time.
pub(crate) const LANES: usize = 16;

/// The differences of the sixteen pairs of values from place `at` on.
#[inline(always)]
pub(crate) fn sixteen_differences(x: &[i16], q: &[i16], at: usize) -> u32x16
    requires x_sixteen { at + 16 ≤ length x.now }
    requires q_sixteen { at + 16 ≤ length q.now }
    requires x_fits { All (FitsSigned w16) x.now }
    requires q_fits { All (FitsSigned w16) q.now }
    ensures { result ≡ zip2 difference (chunk at 16 x.now) (chunk at 16 q.now) }
{
    widened(differences(i16x16::from_slice(&x[at..]), i16x16::from_slice(&q[at..])))
}

/// The differences of sixteen pairs of values, greater less lesser, each as the 16 bits of a number without a sign.
fn differences(x: i16x16, q: i16x16) -> i16x16
    requires x_lanes { length x ≡ 16 }
    requires q_lanes { length q ≡ 16 }
    requires x_fits { All (FitsSigned w16) x }
    requires q_fits { All (FitsSigned w16) q }
    ensures { bits_of result ≡ zip2 difference x q }
{
    x.simd_max(q) - x.simd_min(q)
}

/// Sixteen numbers of 16 bits without a sign, as numbers.
fn widened(bits: i16x16) -> u32x16
    requires lanes { length bits ≡ 16 }
    requires small { Each1 (λ n. n < 65536) (bits_of bits) }
    ensures { result ≡ bits_of bits }
{
    (bits.cast::<i32>() & i32x16::splat(0xffff)).cast::<u32>()
}
