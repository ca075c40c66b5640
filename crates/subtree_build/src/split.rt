//! In which segment a node is split. One pass over the members counts the 1s of all segments.
ghost use Rattle.std.specs.Prelude.{◌≡◌, ℕ, ◌+◌, ◌*◌, ◌^◌, ◌<◌, ◌≤◌, All, length, slice_index, count_by, IfSome, IfNone};
ghost use Rattle.std.specs.Simd.Lanes.{Each1};
ghost use Rattle.isax_word.specs.Word.{IsWord, part_at, next_bit_at};
ghost use Rattle.subtree_build.specs.Division.{bits_left};
ghost use Rattle.subtree_build.specs.Splitting.{goes_high, split_segment, is_less, triple_of, lesser_of, IsBestOf, NoneDivisible};

use crate::next_bits::{bits_added, next_places};
use isax_word::{Full, Member, Word};
use std::simd::prelude::*;

/// In which segment the members of a node are divided, and how many of them have 1 for their next bit there.
#[derive(Clone, Copy)]
pub(crate) struct Split {
    pub(crate) segment: u32,
    pub(crate) high: u32,
}

/// What a split in a segment is judged by; the least triple is the best.
#[derive(Clone, Copy, PartialEq, Eq, PartialOrd, Ord, Debug)]
struct Triple {
    /// How far twice the members of the high child are from all members.
    unevenness: u32,
    /// How many bits the word has in the segment.
    bits: u8,
    /// The segment.
    segment: u32,
}

impl Triple {
    ghost use Rattle.subtree_build.specs.Splitting.{is_less};

    /// Whether this triple is less than the other: the first of their numbers that differ decides.
    fn is_less(&self, other: &Triple) -> bool
        ensures { result ≡ is_less self.now other.now }
    {
        self < other
    }
}

/// The bit of segment `j`'s symbol behind those that the word has.
pub(crate) fn next_bit(word: &Word, full: &Full, j: u32) -> u8
    requires word { j < length word.now }
    requires full { j < length full.now }
    ensures value { result ≡ next_bit_at word.now full.now j }
    ensures bit { result < 2 }
{
    (full.symbol(j) >> 7u8.saturating_sub(word.bits(j))) % 2
}

/// How many members have 1 for their next bit in each segment; the entries past the segments say nothing.
fn high_counts(word: &Word, members: &[Member]) -> [u32; 16]
    requires segments { All (λ m. length m.full ≡ length word.now) members.now }
    requires few { length members.now < 2 ^ 32 }
    ensures { (j : ℕ) → j < length word.now
        → slice_index result j ≡ count_by (goes_high word.now j) members.now }
{
    let mut counts = u32x16::splat(0);
    let mut rest = members;
    while 0 < rest.len() {
        let (few, behind) = rest.split_at(rest.len().min(255));
        counts = counts + high_counts_of_few(word, few).cast::<u32>();
        rest = behind;
    }
    counts.to_array()
}

/// The same of at most 255 members, which are counted in bytes.
fn high_counts_of_few(word: &Word, members: &[Member]) -> u8x16
    requires segments { All (λ m. length m.full ≡ length word.now) members.now }
    requires few { length members.now ≤ 255 }
    ensures counts { (j : ℕ) → j < length word.now
        → slice_index result j ≡ count_by (goes_high word.now j) members.now }
    ensures few { Each1 (λ n. n ≤ length members.now) result }
    ensures lanes { length result ≡ 16 }
    ensures segments { length word.now ≤ 16 }
{
    let places = next_places(word);
    let mut counts = u8x16::splat(0);
    for member in members {
        counts = bits_added(counts, member.full.symbols(), &places);
    }
    counts
}

/// The split of a node of this word and these members; None where the word has eight bits in each segment.
pub(crate) fn best_split(word: &Word, members: &[Member]) -> Option<Split>
    requires segments { All (λ m. length m.full ≡ length word.now) members.now }
    requires few { length members.now < 2 ^ 32 }
    ensures segment { IfSome result (λ s. s.segment ≡ split_segment word.now members.now) }
    ensures used { IfSome result (λ s. s.segment < length word.now) }
    ensures divisible { IfSome result (λ s. (part_at word.now s.segment).bits < 8) }
    ensures high { IfSome result (λ s. s.high ≡ count_by (goes_high word.now s.segment) members.now) }
    ensures none { IfNone result (bits_left word.now ≡ 0) }
{
    let counts = high_counts(word, members);
    let best = best_triple(word, members, &counts)?;
    Some(Split {
        segment: best.segment,
        high: counts[best.segment as usize],
    })
}

/// The least triple of a segment that can be split.
fn best_triple(word: &Word, members: &[Member], counts: &[u32; 16]) -> Option<Triple>
    requires counts { (j : ℕ) → j < length word.now
        → slice_index counts.now j ≡ count_by (goes_high word.now j) members.now }
    requires few { length members.now < 2 ^ 32 }
    ensures some { IfSome result (λ t. IsBestOf word.now members.now (length word.now) t) }
    ensures none { IfNone result (NoneDivisible word.now (length word.now)) }
    ensures is_word { IsWord word.now }
{
    let mut best: Option<Triple> = None;
    for j in 0..word.segments() {
        if word.bits(j) < 8 {
            let triple = triple_of(word, members, counts[j as usize], j);
            best = Some(lesser(best, triple));
        }
    }
    best
}

/// The triple of segment `j`, in which `high` of the members have 1 as their next bit.
fn triple_of(word: &Word, members: &[Member], high: u32, j: u32) -> Triple
    requires used { j < length word.now }
    requires count { high ≡ count_by (goes_high word.now j) members.now }
    requires few { length members.now < 2 ^ 32 }
    ensures { result ≡ triple_of word.now members.now j }
{
    let low = members.len() as u32 - high;
    Triple {
        unevenness: high.abs_diff(low),
        bits: word.bits(j),
        segment: j,
    }
}

/// The lesser of two triples.
fn lesser(best: Option<Triple>, triple: Triple) -> Triple
    ensures { result ≡ lesser_of best triple }
{
    match best {
        Some(best) if !triple.is_less(&best) => best,
        _ => triple,
    }
}
