//! The k best pairs of all that were added.
//! It holds the k smallest pairs in ascending order; the room for them is taken once, when it is made.

ghost use Rattle.std.specs.Prelude.{◌≡◌, ◌+◌, ◌-◌, ◌<◌, ◌≤◌, ◌∷◌, ◌++◌, ◌↔◌, [], IfOk, IsNone, length, slice_get, vec_capacity, vec_len, take, true, false, slice_index_or};
ghost use Rattle.series_core.specs.Pairs.{ascending, insert, is_before, smallest};
ghost use Rattle.series_core.specs.Best.{AreBehind, IsBehind, IsBest, IsPlaceOf};

use crate::pair::Pair;
use outside::NoMemory;
use std::alloc::Global;
use std::marker::Model;

/// The greatest number of pairs that a search may be asked for.
pub const MAX_BEST: u32 = 1024;

/// The k smallest of all pairs that were added, a pair that was added twice counted twice.
#[derive(Drop)]
pub struct KBest {
    k: u32,
    pairs: Vec<Pair>,
}

impl Model for KBest {
    ghost use Rattle.std.specs.Prelude.{◌≤◌, vec_capacity};
    ghost use Rattle.series_core.specs.Best.{Best, IsBest};

    ghost Value = { Best };

    ghost view = { λ b. record { k = b.k; pairs = b.pairs.items } };

    ghost invariant = { λ b. IsBest (record { k = b.k; pairs = b.pairs.items }) × (b.k ≤ vec_capacity b.pairs) };
}

impl KBest {
    /// Takes the room for `k` pairs, and holds none yet.
    pub fn new(alloc: Global, k: u32) -> Result<KBest, NoMemory>
        requires some { 0 < k }
        requires limit { k ≤ MAX_BEST }
        ensures { IfOk result (λ best. best ≡ record { k = k; pairs = [] }) }
    {
        let pairs = Vec::with_capacity(alloc, k as usize)?;
        Ok(KBest { k, pairs })
    }

    /// Adds a pair: it stays where it is among the k smallest.
    pub fn add(&mut self, pair: Pair)
        ensures k { self.new.k ≡ self.old.k }
        ensures pairs { self.new.pairs ≡ smallest self.old.k (pair ∷ self.old.pairs) }
    {
        if self.pairs.len() < self.k as usize {
            insert_in_order(&mut self.pairs, pair);
            return;
        }
        let last = self.pairs[self.pairs.len() - 1];
        if pair.is_before(&last) {
            let _ = self.pairs.pop();
            insert_in_order(&mut self.pairs, pair);
        }
    }

    /// Adds each pair that the other list holds. It walks through both lists and takes no memory.
    pub fn merge(&mut self, other: &KBest)
        ensures k { self.new.k ≡ self.old.k }
        ensures pairs { self.new.pairs ≡ smallest self.old.k (other.now.pairs ++ self.old.pairs) }
    {
        let others = other.pairs();
        let k = self.k as usize;
        if self.pairs.len() == k && are_behind(others, &self.pairs) {
            return;
        }
        let count = cut_to(&mut self.pairs, others, k);
        join(&mut self.pairs, &others[..count]);
    }

    /// Lends the pairs that are held, ascending.
    pub fn pairs(&self) -> &[Pair]
        ensures pairs { result.now ≡ self.now.pairs }
        ensures sound { IsBest self.now }
    {
        &self.pairs
    }

    /// The k-th pair, or `None` where fewer than k pairs are held.
    pub fn worst(&self) -> Option<Pair>
        ensures pair { result ≡ slice_get self.now.pairs (self.now.k - 1) }
        ensures none { IsNone result ↔ (length self.now.pairs < self.now.k) }
    {
        self.pairs.get(self.k as usize - 1).copied()
    }
}

// Puts the pair before the first that is not smaller. There is room, so nothing is refused.
fn insert_in_order(pairs: &mut Vec<Pair>, pair: Pair)
    requires ordered { ascending pairs.old.items ≡ pairs.old.items }
    requires room { vec_len pairs.old < vec_capacity pairs.old }
    ensures items { pairs.new.items ≡ insert pair pairs.old.items }
    ensures ordered { ascending pairs.new.items ≡ pairs.new.items }
    ensures len { length pairs.new.items ≡ length pairs.old.items + 1 }
    ensures room { vec_capacity pairs.old ≤ vec_capacity pairs.new }
{
    let at = place_of(pairs, pair);
    let _ = pairs.insert(at, pair);
}

// The place of the first pair that is not smaller, by halving.
fn place_of(pairs: &[Pair], pair: Pair) -> usize
    requires { ascending pairs.now ≡ pairs.now }
    ensures bound { result ≤ length pairs.now }
    ensures parts { IsPlaceOf pair pairs.now result }
{
    let mut low = 0;
    let mut high = pairs.len();
    while low < high {
        let middle = low + (high - low) / 2;
        if pairs[middle].is_before(&pair) {
            low = middle + 1;
        } else {
            high = middle;
        }
    }
    low
}

// Drops the greatest pairs of both lists until no more than k are left, and answers how many of the others these are.
fn cut_to(pairs: &mut Vec<Pair>, others: &[Pair], k: usize) -> usize
    requires pairs { ascending pairs.old.items ≡ pairs.old.items }
    requires others { ascending others.now ≡ others.now }
    requires size { length pairs.old.items ≤ k }
    ensures bound { result ≤ length others.now }
    ensures size { length pairs.new.items + result ≤ k }
    ensures ordered { ascending pairs.new.items ≡ pairs.new.items }
    ensures smallest { smallest k (take result others.now ++ pairs.new.items) ≡ smallest k (others.now ++ pairs.old.items) }
    ensures capacity { vec_capacity pairs.new ≡ vec_capacity pairs.old }
{
    let mut count = others.len();
    while count > k - pairs.len() {
        if is_behind(others[count - 1], pairs, pairs.len()) {
            count -= 1;
        } else {
            let _ = pairs.pop();
        }
    }
    count
}

// Puts the others among the pairs. There is room, so nothing is refused.
fn join(pairs: &mut Vec<Pair>, others: &[Pair])
    requires pairs { ascending pairs.old.items ≡ pairs.old.items }
    requires others { ascending others.now ≡ others.now }
    requires room { length pairs.old.items + length others.now ≤ vec_capacity pairs.old }
    ensures items { pairs.new.items ≡ ascending (others.now ++ pairs.old.items) }
    ensures room { vec_capacity pairs.old ≤ vec_capacity pairs.new }
{
    let held = pairs.len();
    let _ = pairs.extend_from_slice(others);
    fill_from_back(pairs, held, others);
}

// Puts the others among the pairs that are held, from the back: the greatest that is left goes to the last place left.
fn fill_from_back(pairs: &mut [Pair], held: usize, others: &[Pair])
    requires size { length pairs.old ≡ held + length others.now }
    requires held { ascending (take held pairs.old) ≡ take held pairs.old }
    requires others { ascending others.now ≡ others.now }
    ensures { pairs.new ≡ ascending (others.now ++ take held pairs.old) }
{
    let mut left = held;
    let mut count = others.len();
    while count > 0 {
        let last = others[count - 1];
        if is_behind(last, pairs, left) {
            count -= 1;
            pairs[left + count] = last;
        } else {
            left -= 1;
            pairs[left + count] = pairs[left];
        }
    }
}

// Whether no pair comes after one of the others.
fn are_behind(others: &[Pair], pairs: &[Pair]) -> bool
    requires others { ascending others.now ≡ others.now }
    requires pairs { ascending pairs.now ≡ pairs.now }
    ensures { result ≡ true → AreBehind others.now pairs.now }
{
    others.is_empty() || is_behind(others[0], pairs, pairs.len())
}

// Whether no pair before this end comes after p: only the last is looked at.
fn is_behind(p: Pair, pairs: &[Pair], end: usize) -> bool
    requires bound { end ≤ length pairs.now }
    requires ordered { ascending (take end pairs.now) ≡ take end pairs.now }
    ensures yes { result ≡ true → IsBehind p (take end pairs.now) }
    ensures no { result ≡ false → (0 < end) × (is_before p (slice_index_or pairs.now (end - 1) p) ≡ true) }
{
    end == 0 || !p.is_before(&pairs[end - 1])
}
