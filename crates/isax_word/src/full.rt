//! Full words: the symbol of each segment in eight bits, and the root number that their first bits make.
ghost use Rattle.std.specs.Prelude.{◌≡◌, ◌<◌, ◌^◌, length, slice_get, Some};
ghost use Rattle.breakpoints.specs.declared.table.Table.TheVariants.{Bent};
ghost use Rattle.isax_word.specs.FullWord.{IsFullWord, full_word, root_number};
ghost use Rattle.isax_word.specs.Padded.{padded};

use crate::layout::Layout;
use crate::sixteen::{bent_symbols, means_of};
use crate::symbol::symbol_of_sum;
use breakpoints::Table;
use std::marker::Model;

/// The full word of a series, seen as the list of its symbols.
#[derive(Clone, Copy)]
pub struct Full {
    count: u32,
    symbols: [u8; 16],
}

impl Model for Full {
    ghost use Rattle.std.specs.Prelude.{ℕ, List, take, length, ◌≡◌};
    ghost use Rattle.std.proofs.Common.{sym};
    ghost use Rattle.isax_word.specs.Padded.{padded};
    ghost use Rattle.isax_word.specs.FullWord.{IsFullWord};

    ghost Value = { List ℕ };

    ghost view = { λ full. take full.count full.symbols };

    ghost invariant = { λ full. IsFullWord (take full.count full.symbols)
        × (length (take full.count full.symbols) ≡ full.count)
        × (full.symbols ≡ padded 0 (take full.count full.symbols)) };

    ghost inverse = { λ symbols. record { count = length symbols; symbols = padded 0 symbols } };

    ghost inverse_ok = { λ full kept i. record { count = kept.1 i; symbols = sym kept.2 i } };
}

impl Full {
    /// The full word of a row, whose length is that of the layout.
    pub fn of(layout: &Layout, row: &[i16]) -> Self
        requires { length row.now ≡ layout.now.cuts.row_length }
        ensures { result ≡ full_word layout.now row.now }
    {
        match layout.table {
            Table::Flat => Full::one_by_one(layout, row),
            Table::Bent => Full::side_by_side(layout, row),
        }
    }

    // The full word, segment by segment.
    fn one_by_one(layout: &Layout, row: &[i16]) -> Self
        requires { length row.now ≡ layout.now.cuts.row_length }
        ensures { result ≡ full_word layout.now row.now }
    {
        let mut sums = [0; 16];
        layout.cuts.sums(row, &mut sums);
        let count = layout.cuts.segments();
        let mut symbols = [0; 16];
        for j in 0..count {
            let (from, to) = layout.cuts.cut(j);
            symbols[j as usize] = symbol_of_sum(layout.table, to - from, sums[j as usize]);
        }
        Full { count, symbols }
    }

    // The full word by the bent table, all segments at once.
    fn side_by_side(layout: &Layout, row: &[i16]) -> Self
        requires length { length row.now ≡ layout.now.cuts.row_length }
        requires bent { layout.now.table ≡ Bent }
        ensures { result ≡ full_word layout.now row.now }
    {
        let mut sums = [0; 16];
        layout.cuts.sums(row, &mut sums);
        let count = layout.cuts.segments();
        let found = bent_symbols(&means_of(&layout.cuts, &sums));
        let mut symbols = [0; 16];
        for j in 0..count {
            symbols[j as usize] = found[j as usize] as u8;
        }
        Full { count, symbols }
    }

    /// The symbol of segment `j`.
    pub fn symbol(&self, j: u32) -> u8
        requires { j < length self.now }
        ensures { slice_get self.now j ≡ Some result }
    {
        self.symbols[j as usize]
    }

    /// The symbols of all segments, and 0 in the places behind them.
    pub fn symbols(&self) -> &[u8; 16]
        ensures { result.now ≡ padded 0 self.now }
    {
        &self.symbols
    }

    /// The number of segments, from 1 to 16.
    pub fn segments(&self) -> u32
        ensures value { result ≡ length self.now }
        ensures is_full_word { IsFullWord self.now }
    {
        self.count
    }
}

/// The number whose bits are the first bits of the symbols, segment 0 the most significant.
pub fn root_of(full: &Full) -> u32
    ensures value { result ≡ root_number full.now }
    ensures bits { result < 2 ^ length full.now }
{
    let mut root = 0;
    for j in 0..full.segments() {
        root = 2 * root + u32::from(full.symbol(j) >> 7);
    }
    root
}
