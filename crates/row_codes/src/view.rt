//! A query as bounds by codes see it, and the test whether a row may lie within a limit. The test stops behind the first block up to whose
//! end the row is too far.
ghost use Rattle.std.specs.Prelude.{◌≡◌, ◌+◌, ◌-◌, ◌*◌, ◌/◌, ◌<◌, ◌≤◌, ◌∷◌, [], drop, length, leb, slice_index_or, take};
ghost use Rattle.row_codes.specs.Codes.{codes_of, pictured, value_squares};
ghost use Rattle.row_codes.specs.Bound.{AreCodesFor, block_distance, code_bound};
ghost use Rattle.row_codes.specs.Lanes.{AreBlockValues, IsBlockDot};
ghost use Rattle.row_codes.specs.Kept.{filled, sums_at, values_at};

use crate::block::{BLOCK, CodeBlock};
use crate::lanes::dot;
use crate::limit::CodeLimit;
use crate::sums::QuerySums;
use series_core::{MAX_LENGTH, values_fit};
use std::marker::Model;

/// A query, seen as its values: it is lent, and beside it stand the sums of each block and the last block, with zeros behind where it has
/// fewer than 256 values.
#[derive(Drop)]
pub struct CodeView<'a> {
    query: &'a [i16],
    last: [i16; 256],
    sums: [QuerySums; 256],
}

impl<'a> Model for CodeView<'a> {
    ghost use Rattle.std.specs.Prelude.{List, ℤ};
    ghost use Rattle.row_codes.specs.Kept.{IsCodeView};

    ghost Value = { List ℤ };

    ghost view = { λ v. v.query.now };

    ghost invariant = { λ v. IsCodeView v.query.now v.last v.sums };
}

impl<'a> CodeView<'a> {
    /// The view of a query of at most 65536 values. It takes no memory.
    pub fn new(query: &'a [i16]) -> CodeView<'a>
        requires { length query.now ≤ MAX_LENGTH }
        ensures { result ≡ query.now }
    {
        let mut sums = [QuerySums::zeros(); 256];
        for k in 0..(query.len() + 255) / BLOCK {
            let from = BLOCK * k;
            let to = query.len().min(from + BLOCK);
            sums[k] = QuerySums::of(&query[from..to]);
        }
        CodeView {
            query,
            last: filled(&query[query.len().saturating_sub(1) / BLOCK * BLOCK..]),
            sums,
        }
    }

    /// Whether the lower bound of a row by its codes is at most a limit of the squared distance. The codes are those of a row as long as the
    /// query: a row that is not within is farther than the limit. A row of no values has no codes, and is always within.
    #[inline(always)]
    pub fn is_within(&self, codes: &[CodeBlock], limit: &CodeLimit) -> bool
        requires { AreCodesFor (length self.now) codes.now }
        ensures { result ≡ leb (code_bound self.now codes.now) limit.now }
    {
        if let [code] = codes {
            return self.is_only_within(code, limit);
        }
        self.are_within(codes, limit)
    }

    // The same for the only block of a row. It stays a call: in a loop over rows the query's values were widened before, and narrowed again
    // for each row.
    #[inline(never)]
    fn is_only_within(&self, code: &CodeBlock, limit: &CodeLimit) -> bool
        requires { AreCodesFor (length self.now) (code.now ∷ []) }
        ensures { result ≡ leb (code_bound self.now (code.now ∷ [])) limit.now }
    {
        let dot = dot(&code.words, self.only_values());
        self.only_is_allowed(code, dot, limit)
    }

    // The same, block by block.
    fn are_within(&self, codes: &[CodeBlock], limit: &CodeLimit) -> bool
        requires { AreCodesFor (length self.now) codes.now }
        ensures { result ≡ leb (code_bound self.now codes.now) limit.now }
    {
        let mut squared = 0;
        for k in 0..codes.len() {
            let code = &codes[k];
            squared += self.far_from(k, code, dot(&code.words, self.values(k)));
            if !limit.allows(squared, code.rest) {
                return false;
            }
        }
        true
    }

    // The same where the sum of the products of its codes and the query's values is known.
    #[inline(always)]
    pub(crate) fn only_is_allowed(&self, code: &CodeBlock, dot: i32, limit: &CodeLimit) -> bool
        requires codes { AreCodesFor (length self.now) (code.now ∷ []) }
        requires dot { IsBlockDot code.now.words (filled (values_at self.now 0)) dot }
        ensures { result ≡ leb (code_bound self.now (code.now ∷ [])) limit.now }
    {
        limit.allows(self.far_from(0, code, dot), code.rest)
    }

    // The values of the only block, with zeros behind them where there are fewer than 256.
    #[inline(always)]
    pub(crate) fn only_values(&self) -> &[i16]
        requires { length self.now ≤ 256 }
        ensures value { result.now ≡ filled (values_at self.now 0) }
        ensures block { AreBlockValues result.now }
    {
        values_fit(&self.last);
        &self.last
    }

    // The values of block `k`, with zeros behind them where there are fewer than 256.
    #[inline(always)]
    pub(crate) fn values(&self, k: usize) -> &[i16]
        requires { 256 * k < length self.now }
        ensures value { result.now ≡ filled (values_at self.now k) }
        ensures block { AreBlockValues result.now }
    {
        values_of(self.query, &self.last, k)
    }

    // How far the query lies from what the codes of block `k` stand for, squared, where the sum of their products is known.
    #[inline(always)]
    pub(crate) fn far_from(&self, k: usize, code: &CodeBlock, dot: i32) -> u64
        requires inside { 256 * k < length self.now }
        requires squares { code.now.squares
            ≡ value_squares (pictured code.now.low code.now.step (take (length self.now - 256 * k) (codes_of code.now.words))) }
        requires dot { IsBlockDot code.now.words (filled (values_at self.now k)) dot }
        ensures value { result ≡ block_distance (drop (256 * k) self.now) code.now }
        ensures small { result ≤ 8000000000000 }
        ensures limit { length self.now ≤ MAX_LENGTH }
    {
        sums_of(&self.sums, k).distance(code.low, code.step, code.squares, dot)
    }
}

/// The sums of block `k`.
#[inline(always)]
fn sums_of(sums: &[QuerySums], k: usize) -> &QuerySums
    requires { k < length sums.now }
    ensures { result.now ≡ slice_index_or sums.now k result.now }
{
    &sums[k]
}

/// The values of block `k` of a query, with zeros behind them where there are fewer than 256.
#[inline(always)]
fn values_of<'a>(query: &'a [i16], last: &'a [i16], k: usize) -> &'a [i16]
    requires inside { 256 * k < length query.now }
    requires last { last.now ≡ filled (drop (256 * ((length query.now - 1) / 256)) query.now) }
    ensures value { result.now ≡ filled (values_at query.now k) }
    ensures block { AreBlockValues result.now }
{
    values_fit(query);
    let from = BLOCK * k;
    if from + BLOCK < query.len() {
        &query[from..from + BLOCK]
    } else {
        values_fit(last);
        last
    }
}

/// Some values with zeros behind them.
pub(crate) fn filled(values: &[i16]) -> [i16; 256]
    requires { length values.now ≤ 256 }
    ensures { result ≡ filled values.now }
{
    let mut all = [0; 256];
    for i in 0..values.len() {
        all[i] = values[i];
    }
    all
}
