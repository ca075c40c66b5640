//! The sum of the products of a block's codes and a query's values, in lanes: two products at a time are multiplied and added in one
//! step. No bound on sums is needed on the way, since they are told up to multiples of 2^32, and the last takes 28 bits.
ghost use Rattle.std.specs.Prelude.{◌≡◌, ◌+◌, ◌*◌, ◌/◌, ◌%◌, ◌+ℤ◌, ◌<◌, ◌≤◌, length, map, FitsSigned};
ghost use Rattle.std.specs.Simd.Lanes.{chunk};
ghost use Rattle.std.specs.List.{All};
ghost use mir.Syntax.{w16, w32};
ghost use Rattle.row_codes.specs.Lanes.{AreBlockValues, AreFourValues, HoldSixteens, IsBlockDot, code_dot, lane_total, words_dot, wrapped};

use std::simd::prelude::*;

/// The sum of the products of the codes that 64 words hold and 256 values.
#[inline(always)]
pub(crate) fn dot(words: &[u16], query: &[i16]) -> i32
    requires words { length words.now ≡ 64 }
    requires query { AreBlockValues query.now }
    ensures { IsBlockDot words.now query.now result }
{
    let mut sums = i32x8::splat(0);
    for sixteen in 0..4 {
        sums = with_sixteen(sums, words, query, sixteen);
    }
    lane_sum(sums)
}

/// The same with the values of each of four queries: what the words hold is taken out once for all of them. Written out without the loop
/// it took longer, since the compiler then goes through one query after another.
#[inline(always)]
pub(crate) fn dots_of_four(
    words: &[u16],
    a: &[i16],
    b: &[i16],
    c: &[i16],
    d: &[i16],
) -> (i32, i32, i32, i32)
    requires words { length words.now ≡ 64 }
    requires values { AreFourValues a.now b.now c.now d.now }
    ensures a { IsBlockDot words.now a.now result.0 }
    ensures b { IsBlockDot words.now b.now result.1 }
    ensures c { IsBlockDot words.now c.now result.2 }
    ensures d { IsBlockDot words.now d.now result.3 }
{
    let none = i32x8::splat(0);
    let (mut to_a, mut to_b, mut to_c, mut to_d) = (none, none, none, none);
    for sixteen in 0..4 {
        to_a = with_sixteen(to_a, words, a, sixteen);
        to_b = with_sixteen(to_b, words, b, sixteen);
        to_c = with_sixteen(to_c, words, c, sixteen);
        to_d = with_sixteen(to_d, words, d, sixteen);
    }
    (
        lane_sum(to_a),
        lane_sum(to_b),
        lane_sum(to_c),
        lane_sum(to_d),
    )
}

/// What lanes hold of so many sixteens of words, with one sixteen more.
#[inline(always)]
fn with_sixteen(sums: i32x8, words: &[u16], query: &[i16], sixteen: usize) -> i32x8
    requires few { sixteen < 4 }
    requires words { length words.now ≡ 64 }
    requires query { AreBlockValues query.now }
    requires held { HoldSixteens sixteen words.now query.now sums }
    ensures { HoldSixteens (sixteen + 1) words.now query.now result }
{
    let at = 16 * sixteen;
    added(sums, sums_of_words(sixteen_words(words, at), query, at))
}

/// What the codes of sixteen words add with the values at their places, of which the first are those from place `at` on.
#[inline(always)]
fn sums_of_words(words: u16x16, query: &[i16], at: usize) -> i32x8
    requires lanes { length words ≡ 16 }
    requires room { 192 + at + 16 ≤ length query.now }
    requires fits { All (FitsSigned w16) query.now }
    ensures value { wrapped (lane_total result) ≡ wrapped (words_dot words at query.now) }
    ensures lanes { length result ≡ 8 }
    ensures fits { All (FitsSigned w32) result }
{
    let two = added(
        part(first(words), query, at),
        part(second(words), query, 64 + at),
    );
    let three = added(two, part(third(words), query, 128 + at));
    added(three, part(fourth(words), query, 192 + at))
}

/// What sixteen codes add with the values from place `at` on.
#[inline(always)]
fn part(codes: u16x16, query: &[i16], at: usize) -> i32x8
    requires lanes { length codes ≡ 16 }
    requires room { at + 16 ≤ length query.now }
    requires fits { All (FitsSigned w16) query.now }
    ensures value { wrapped (lane_total result) ≡ wrapped (code_dot codes (chunk at 16 query.now)) }
    ensures lanes { length result ≡ 8 }
    ensures fits { All (FitsSigned w32) result }
{
    pairs(products(codes, i16x16::from_slice(&query[at..])))
}

/// The products of sixteen codes and sixteen values, stated by their sum.
#[inline(always)]
fn products(codes: u16x16, values: i16x16) -> i32x16
    requires codes { length codes ≡ 16 }
    requires values { length values ≡ 16 }
    requires fits { All (FitsSigned w16) values }
    ensures value { wrapped (lane_total result) ≡ wrapped (code_dot codes values) }
    ensures lanes { length result ≡ 16 }
    ensures fits { All (FitsSigned w32) result }
{
    codes.cast::<i32>() * values.cast::<i32>()
}

/// Neighbours added.
#[inline(always)]
fn pairs(all: i32x16) -> i32x8
    requires lanes { length all ≡ 16 }
    requires fits { All (FitsSigned w32) all }
    ensures value { wrapped (lane_total result) ≡ wrapped (lane_total all) }
    ensures lanes { length result ≡ 8 }
    ensures fits { All (FitsSigned w32) result }
{
    all.swizzle([0, 2, 4, 6, 8, 10, 12, 14]) + all.swizzle([1, 3, 5, 7, 9, 11, 13, 15])
}

/// Lanes added.
#[inline(always)]
fn added(a: i32x8, b: i32x8) -> i32x8
    requires a_lanes { length a ≡ 8 }
    requires b_lanes { length b ≡ 8 }
    requires a_fits { All (FitsSigned w32) a }
    requires b_fits { All (FitsSigned w32) b }
    ensures value { wrapped (lane_total result) ≡ wrapped (lane_total a +ℤ lane_total b) }
    ensures lanes { length result ≡ 8 }
    ensures fits { All (FitsSigned w32) result }
{
    a + b
}

/// The sum of the lanes.
#[inline(always)]
fn lane_sum(all: i32x8) -> i32
    requires { All (FitsSigned w32) all }
    ensures { result ≡ wrapped (lane_total all) }
{
    all.reduce_sum()
}

/// The sixteen words from word `at` on.
#[inline(always)]
fn sixteen_words(words: &[u16], at: usize) -> u16x16
    requires { at + 16 ≤ length words.now }
    ensures { result ≡ chunk at 16 words.now }
{
    u16x16::from_slice(&words[at..])
}

/// The codes in the lowest four bits of words.
#[inline(always)]
fn first(words: u16x16) -> u16x16
    requires { length words ≡ 16 }
    ensures { result ≡ map (λ w. w % 16) words }
{
    words & u16x16::splat(15)
}

/// The codes in the next four bits.
#[inline(always)]
fn second(words: u16x16) -> u16x16
    requires { length words ≡ 16 }
    ensures { result ≡ map (λ w. w / 16 % 16) words }
{
    (words >> u16x16::splat(4)) & u16x16::splat(15)
}

/// The codes in the four bits above these.
#[inline(always)]
fn third(words: u16x16) -> u16x16
    requires { length words ≡ 16 }
    ensures { result ≡ map (λ w. w / 256 % 16) words }
{
    (words >> u16x16::splat(8)) & u16x16::splat(15)
}

/// The codes in the highest four bits.
#[inline(always)]
fn fourth(words: u16x16) -> u16x16
    requires { length words ≡ 16 }
    ensures { result ≡ map (λ w. w / 4096 % 16) words }
{
    words >> u16x16::splat(12)
}
