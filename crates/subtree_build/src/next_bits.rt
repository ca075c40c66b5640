//! The next bits of all segments at once: each segment's bit is tested by its place value, and counted in a lane of its own.
ghost use Rattle.std.specs.Prelude.{◌≡◌, ◌+◌, ◌^◌, ◌<◌, ◌≤◌, length};
ghost use Rattle.std.specs.Simd.Lanes.{zip2, Each1};
ghost use Rattle.subtree_build.specs.NextBits.{has_bit, AreNextPlaces};

use isax_word::Word;
use std::simd::prelude::*;

/// In each segment the place value of the bit behind those that the word has; 0 past the segments.
pub(crate) fn next_places(word: &Word) -> [u8; 16]
    ensures places { AreNextPlaces word.now result }
    ensures few { length word.now ≤ 16 }
    ensures lanes { length result ≡ 16 }
{
    let mut places = [0; 16];
    for j in 0..word.segments() {
        places[j as usize] = 1 << 7u8.saturating_sub(word.bits(j));
    }
    places
}

/// The counts, each with 1 more where the segment's symbol has the bit of its place value.
#[inline(always)]
pub(crate) fn bits_added(counts: u8x16, symbols: &[u8; 16], places: &[u8; 16]) -> u8x16
    requires lanes { length counts ≡ 16 }
    requires room { Each1 (λ n. n + 1 < 2 ^ 8) counts }
    ensures { result ≡ zip2 (λ n b. n + b) counts (zip2 has_bit symbols.now places.now) }
{
    counts + bits_of(symbols, places)
}

/// 1 in the lane of each symbol that has the bit of its place value, and else 0.
#[inline(always)]
fn bits_of(symbols: &[u8; 16], places: &[u8; 16]) -> u8x16
    ensures { result ≡ zip2 has_bit symbols.now places.now }
{
    let shared = u8x16::from_array(*symbols) & u8x16::from_array(*places);
    shared
        .simd_ne(u8x16::splat(0))
        .select(u8x16::splat(1), u8x16::splat(0))
}
