//! What is kept of a row: blocks of 256 values each, in 4 bits a value. Each value has a code, and the last block may have fewer.
ghost use Rattle.std.specs.Prelude.{◌≡◌, ◌+◌, ◌*◌, ◌≤◌, length, replicate};
ghost use Rattle.row_codes.specs.Rows.{block_count, block_of, forgotten, row_codes};

use crate::coding::{codes_of, forgotten_of, greatest_of, least_of, packed, squares_of, step_of};
use crate::roots::root_up_of;
use series_core::MAX_LENGTH;
use std::marker::Model;

/// The number of values of a block.
pub(crate) const BLOCK: usize = 256;

/// What is kept of a block of at most 256 values of a row, in 144 bytes: for each value a code of 4 bits, four in a word, which tells in which
/// of 16 equal steps from the least value to the greatest it lies; the step, from 1 to 4096; the least value; twice how long what the codes of
/// the row forget up to the end of this block is, rounded up; and the squares of what the codes stand for, added up: the approximation of a
/// VA-file (Weber, Schek and Blott, VLDB 1998), but with steps of each block's own.
#[derive(Clone, Copy)]
pub struct CodeBlock {
    pub(crate) words: [u16; 64],
    pub(crate) step: u16,
    pub(crate) low: u16,
    pub(crate) rest: u32,
    pub(crate) squares: u64,
}

impl Model for CodeBlock {
    ghost use Rattle.std.specs.Prelude.{◌≡◌, ◌≤◌, length};
    ghost use Rattle.row_codes.specs.Rows.{Block};

    ghost Value = { Block };

    ghost view = { λ b. record { words = b.words; step = b.step; low = b.low; rest = b.rest; squares = b.squares } };

    ghost invariant = { λ b. (length b.words ≡ 64) × (b.step ≤ 4096) × (b.rest ≤ 33554432) × (b.squares ≤ 4398046511104) };

    ghost inverse = { λ b. record { words = b.words; step = b.step; low = b.low; rest = b.rest; squares = b.squares } };
}

impl CodeBlock {
    /// A block of zeros, for places that are filled later.
    pub fn zeros() -> CodeBlock
        ensures { result ≡ record { words = replicate 64 0; step = 0; low = 0; rest = 0; squares = 0 } }
    {
        CodeBlock {
            words: [0; 64],
            step: 0,
            low: 0,
            rest: 0,
            squares: 0,
        }
    }

    // What is kept of a block, where so much is forgotten before it, and how much is up to its end.
    fn of(values: &[i16], before: u64) -> (CodeBlock, u64)
        requires few { length values.now ≤ 256 }
        requires before { before ≤ 65280 * 4194304 }
        ensures block { result.0 ≡ block_of before values.now }
        ensures forgotten { result.1 ≡ before + forgotten values.now }
        ensures small { result.1 ≤ before + length values.now * 4194304 }
    {
        let low = least_of(values);
        let step = step_of(low, greatest_of(values));
        let codes = codes_of(values, low, step);
        let own = &codes[..values.len()];
        let after = before + forgotten_of(values, own, low, step);
        let block = CodeBlock {
            words: packed(&codes),
            step,
            low,
            rest: root_up_of(4 * after) as u32,
            squares: squares_of(own, low, step),
        };
        (block, after)
    }
}

/// How many blocks are kept of a row of `n` values: one for each 256 of them and one for what is left.
pub fn block_count(n: u32) -> u32
    requires { n ≤ MAX_LENGTH }
    ensures value { result ≡ block_count n }
    ensures few { result ≤ 256 }
{
    (n + 255) / 256
}

/// Puts the codes of a row of at most 65536 values in their places, of which there are as many as the row has blocks (`block_count`). Several
/// rows of one length may stand one behind the other in a table, and be coded side by side. It takes no memory, and is never refused.
pub fn code_row(row: &[i16], codes: &mut [CodeBlock])
    requires limit { length row.now ≤ MAX_LENGTH }
    requires places { length codes.old ≡ block_count (length row.now) }
    ensures { codes.new ≡ row_codes row.now }
{
    let mut before = 0;
    for k in 0..codes.len() {
        let from = BLOCK * k;
        let to = row.len().min(from + BLOCK);
        let (block, after) = CodeBlock::of(&row[from..to], before);
        codes[k] = block;
        before = after;
    }
}
