//! The test of the members against their series: each series is a member of exactly one leaf, once, and the leaf's word contains its
//! full word. Each series has one mark, which rises to 1 where that is so and to 2 where it is not, and stays there. Workers side by side
//! may test the words before, each those of a stretch of the leaves: where all are contained and there are as many members as series, no
//! mark is made.
ghost use Rattle.std.specs.Prelude.{◌≡◌, ℕ, ◌+◌, ◌==◌, ◌<◌, ◌≤◌, ◌↔◌, not, find, min, IfOk, IsTrue, length, slice_index};
ghost use Rattle.std.specs.List.{All, range_with_len};
ghost use Rattle.std.specs.Thread.{IsSync};
ghost use Rattle.list_totals.specs.Totals.{total};
ghost use Rattle.saved_index.specs.Membership.{AreContainedBetween, ContainsAll, first_unfit_of, weight, weight_for};

use isax_word::{Member, Word, contains};
use outside::NoMemory;
use std::alloc::Global;
use std::thread::{Threads, join};
use subtree_build::Index;

/// The mark of a series that fits.
const FITS: u8 = 1;

/// The mark of a series that has too many members, or one in a leaf that is not its own. No mark is greater.
const MISFITS: u8 = 2;

/// Whether the word contains the full word of each member.
fn contains_members(word: &Word, members: &[Member]) -> bool
    requires { All (λ m. length word.now ≡ length m.full) members.now }
    ensures { IsTrue result ↔ ContainsAll word.now members.now }
{
    for member in members {
        if !contains(word, &member.full) {
            return false;
        }
    }
    true
}

/// Whether the word of each leaf from one number up to, but not including, another contains the full words of its members, as one worker
/// in this thread tests them.
pub(crate) fn contained_in_turn(index: &Index, from: u32, to: u32) -> bool
    requires inside { to ≤ length index.now.leaves }
    requires segments { All (λ x. All (λ m. length m.full ≡ index.now.segments) x.members) index.now.leaves }
    ensures { IsTrue result ↔ AreContainedBetween index.now.leaves from to }
{
    // for the fact that it is an index
    let _leaves = index.leaf_count();
    for l in from..to {
        if !contains_members(index.leaf_word(l), index.leaf_members(l)) {
            return false;
        }
    }
    true
}

/// The same by so many workers: this thread starts all others, one after another.
#[cycle(contained)]
pub(crate) fn contained_side_by_side<H: Threads + Sync>(
    rt: &H,
    index: &Index,
    from: u32,
    to: u32,
    workers: u32,
) -> bool
    requires order { from ≤ to }
    requires inside { to ≤ length index.now.leaves }
    requires segments { All (λ x. All (λ m. length m.full ≡ index.now.segments) x.members) index.now.leaves }
    ensures { IsTrue result ↔ AreContainedBetween index.now.leaves from to }
{
    if workers < 2 {
        return contained_in_turn(index, from, to);
    }
    let rest = workers - 1;
    let mid = part_way(from, to, workers);
    let front = || -> bool
        requires { (from ≤ mid) × (mid ≤ length index.now.leaves)
            × All (λ x. All (λ m. length m.full ≡ index.now.segments) x.members) index.now.leaves }
        ensures { IsTrue result ↔ AreContainedBetween index.entry.now.leaves from mid }
    { contained_in_turn(index, from, mid) };
    let back = || -> bool
        requires { IsSync H.row × (mid ≤ to) × (to ≤ length index.now.leaves)
            × All (λ x. All (λ m. length m.full ≡ index.now.segments) x.members) index.now.leaves }
        ensures { IsTrue result ↔ AreContainedBetween index.entry.now.leaves mid to }
    { contained_side_by_side(rt, index, mid, to, rest) };
    let (low, high) = join(rt, front, back);
    low && high
}

/// The number that lies one part of `parts` of the way from one number to another.
fn part_way(from: u32, to: u32, parts: u32) -> u32
    requires { from ≤ to }
    ensures low { from ≤ result }
    ensures high { result ≤ to }
{
    from + (to - from) / parts.max(1)
}

/// What a member of a leaf of this word adds to the mark of its series.
fn weight(word: &Word, member: &Member) -> u8
    requires segments { length word.now ≡ length member.now.full }
    ensures { result ≡ weight word.now member.now }
{
    if contains(word, &member.full) {
        FITS
    } else {
        MISFITS
    }
}

/// Raises the marks of the series of these members, which lie in a leaf of this word.
fn mark_members(word: &Word, members: &[Member], marks: &mut [u8])
    requires below { All (λ m. m.number < length marks.old) members.now }
    requires segments { All (λ m. length word.now ≡ length m.full) members.now }
    requires small { All (λ mark. mark ≤ 2) marks.old }
    ensures len { length marks.new ≡ length marks.old }
    ensures each { (i : ℕ) → i < length marks.old → slice_index marks.new i
        ≡ min 2 (slice_index marks.old i + total (weight_for i word.now) members.now) }
{
    for member in members {
        let mark = &mut marks[member.number as usize];
        *mark = mark.saturating_add(weight(word, member)).min(MISFITS);
    }
}

/// The place of the first mark that is not of a series that fits.
fn first_misfit(marks: &[u8], count: u32) -> Option<u32>
    requires { length marks.now ≡ count }
    ensures { result ≡ find (λ i. not (slice_index marks.now i == 1)) (range_with_len 0 count) }
{
    for number in 0..count {
        if marks[number as usize] != FITS {
            return Some(number);
        }
    }
    None
}

/// The least number below the count of a series that is not a member of exactly one leaf, once, or whose full word that leaf's word does
/// not contain.
pub(crate) fn first_unfit(alloc: Global, index: &Index, count: u32) -> Result<Option<u32>, NoMemory>
    requires below { All (λ x. All (λ m. m.number < count) x.members) index.now.leaves }
    requires segments { All (λ x. All (λ m. length m.full ≡ index.now.segments) x.members) index.now.leaves }
    ensures { IfOk result (λ found. found ≡ first_unfit_of index.now.leaves count) }
{
    let mut marks = vec![in alloc; 0u8; count as usize]?;
    for l in 0..index.leaf_count() {
        mark_members(
            index.leaf_word(l),
            index.leaf_members(l),
            marks.as_mut_slice(),
        );
    }
    Ok(first_misfit(marks.as_slice(), count))
}
