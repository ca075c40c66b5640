//! A query as bounds see it: for each segment the cost of each symbol, so that the bound of a word is one
//! look-up and one addition a segment. The cost of a prefix is that of its symbol nearest to the query's, and the
//! nearest symbols of all segments are found at once.
ghost use Rattle.std.specs.Prelude.{◌≡◌, ℕ, ◌*◌, ◌<◌, ◌^◌, length, max, min, slice_index};
ghost use Rattle.isax_word.specs.Word.{one_bit_word};
ghost use Rattle.lower_bound.specs.Bound.{IsView, view_of, word_bound, eight_bit_word};

use crate::cost::write_costs;
use crate::roots::bounds_of_bits;
use isax_word::{Full, Layout, Word};
use std::marker::Model;

/// A query under a layout, seen as the layout and the sums of the query's segments. It takes 36 KiB in
/// place: pass it by reference.
#[derive(Drop)]
pub struct QueryView {
    layout: Layout,
    sums: [i32; 16],
    full: Full,
    costs: [[u64; 256]; 16],
    high: [u64; 256],
    low: [u64; 256],
}

impl Model for QueryView {
    ghost use Rattle.std.specs.Prelude.{take, ◌≡◌};
    ghost use Rattle.lower_bound.specs.Bound.{View, IsView, HoldsView};
    ghost use Rattle.lower_bound.specs.Halves.{view_with, HoldsHalves};

    ghost Value = { View };

    ghost view = { λ v. record { layout = v.layout; sums = take v.layout.cuts.segments v.sums } };

    ghost invariant = { λ v. IsView (record { layout = v.layout; sums = take v.layout.cuts.segments v.sums })
        × HoldsView (record { layout = v.layout; sums = take v.layout.cuts.segments v.sums }) v.full v.costs
        × HoldsHalves (view_with v.layout v.sums) v.high v.low };
}

impl QueryView {
    /// The view of a query, whose length is that of the layout.
    pub fn new(layout: &Layout, query: &[i16]) -> QueryView
        requires { length query.now ≡ layout.now.cuts.row_length }
        ensures { result ≡ view_of layout.now query.now }
    {
        let mut sums = [0; 16];
        layout.cuts.sums(query, &mut sums);
        let none = [0; 256];
        let mut costs = [none; 16];
        for j in 0..layout.cuts.segments() {
            let (from, to) = layout.cuts.cut(j);
            write_costs(
                layout.table,
                to - from,
                sums[j as usize],
                &mut costs[j as usize],
            );
        }
        let full = Full::of(layout, query);
        let segments = layout.cuts.segments();
        let high_segments = segments.saturating_sub(8);
        let high = bounds_of_bits(layout, &sums, 0, high_segments);
        let low = bounds_of_bits(layout, &sums, high_segments, segments - high_segments);
        QueryView {
            layout: *layout,
            sums,
            full,
            costs,
            high,
            low,
        }
    }

    /// The lower bound of a word: the sum over its segments of the square of the gap by the length, rounded up.
    pub fn bound_word(&self, word: &Word) -> u64
        requires { length word.now ≡ self.now.layout.cuts.segments }
        ensures value { result ≡ word_bound self.now word.now }
        ensures small { result < 2 ^ 49 }
    {
        let nearest = nearest_symbols(
            self.full.symbols(),
            word.first_symbols(),
            word.last_symbols(),
        );
        let mut bound = 0;
        for j in 0..16 {
            bound += self.costs[j][nearest[j] as usize];
        }
        bound
    }

    /// The lower bound of a full word: that of the word that has all eight bits of each symbol.
    pub fn bound_full(&self, full: &Full) -> u64
        requires { length full.now ≡ self.now.layout.cuts.segments }
        ensures value { result ≡ word_bound self.now (eight_bit_word full.now) }
        ensures small { result < 2 ^ 49 }
    {
        let mut bound = 0;
        for j in 0..full.segments() {
            bound += self.costs[j as usize][full.symbol(j) as usize];
        }
        bound
    }

    /// The lower bound of the word of one bit in each segment, the bits of `root`, segment 0 the most significant.
    pub fn bound_root(&self, root: u32) -> u64
        requires { root < 2 ^ self.now.layout.cuts.segments }
        ensures value { result ≡ word_bound self.now (one_bit_word root self.now.layout.cuts.segments) }
        ensures small { result < 2 ^ 49 }
    {
        let segments = self.layout.cuts.segments();
        let low_segments = segments - segments.saturating_sub(8);
        let high = self.high[(root >> low_segments) as usize];
        let low = self.low[(root % (1 << low_segments)) as usize];
        high + low
    }

    /// The number of segments, from 1 to 16.
    pub fn segments(&self) -> u32
        ensures value { result ≡ self.now.layout.cuts.segments }
        ensures is_view { IsView self.now }
    {
        self.layout.cuts.segments()
    }
}

/// In each place the number nearest to the symbol among those from the first to the last.
#[inline(always)]
fn nearest_symbols(symbols: &[u8; 16], firsts: &[u8; 16], lasts: &[u8; 16]) -> [u8; 16]
    ensures { (j : ℕ) → j < 16 → slice_index result j
        ≡ max (slice_index firsts.now j) (min (slice_index lasts.now j) (slice_index symbols.now j)) }
{
    let mut nearest = [0; 16];
    for j in 0..16 {
        nearest[j] = symbols[j].min(lasts[j]).max(firsts[j]);
    }
    nearest
}
