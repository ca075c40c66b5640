//! The cost of a symbol for a query's segment: how far the query's sum lies outside the symbol's sums.
ghost use Rattle.std.specs.Prelude.{◌≡◌, ◌+◌, ◌*◌, ◌<◌, ◌≤◌, pos, ◌-ℤ◌, ◌*ℤ◌};
ghost use Rattle.breakpoints.specs.Breakpoint.{breakpoint};
ghost use Rattle.isax_word.specs.declared.word.Part.{Part};
ghost use Rattle.lower_bound.specs.Gap.{excess, gap, gap_below, gap_above, cost_of_gap, symbol_cost, part_cost, IsSum, HoldsCosts};

use breakpoints::Table;
use series_core::MAX_LENGTH;

/// A breakpoint times the length of a segment.
fn scaled(table: Table, length: u32, place: u32) -> i32
    requires few_values { length ≤ MAX_LENGTH }
    requires first { 1 ≤ place }
    requires last { place ≤ 255 }
    ensures { result ≡ pos length *ℤ breakpoint table place }
{
    length as i32 * table.at(place)
}

/// How far one sum lies above another, and 0 where it does not.
fn excess_over(high: i32, low: i32) -> u64
    ensures { result ≡ excess (high -ℤ low) }
{
    if low < high {
        (i64::from(high) - i64::from(low)) as u64
    } else {
        0
    }
}

/// How far a sum lies below the least sum of the symbols from `first` on.
fn below(table: Table, length: u32, sum: i32, first: u32) -> u64
    requires few_values { length ≤ MAX_LENGTH }
    requires last { first ≤ 255 }
    ensures { result ≡ gap_below table length sum first }
{
    if first == 0 {
        0
    } else {
        excess_over(scaled(table, length, first), sum)
    }
}

/// How far a sum lies above the greatest sum of the symbols before `end`.
fn above(table: Table, length: u32, sum: i32, end: u32) -> u64
    requires few_values { length ≤ MAX_LENGTH }
    requires some { 1 ≤ end }
    requires last { end ≤ 256 }
    ensures { result ≡ gap_above table length sum end }
{
    if end == 256 {
        0
    } else {
        excess_over(sum, scaled(table, length, end) - 1)
    }
}

/// How far a sum lies outside the sums of one symbol.
fn gap_of_symbol(table: Table, length: u32, sum: i32, symbol: u32) -> u32
    requires is_sum { IsSum length sum }
    requires eight_bits { symbol < 256 }
    ensures value { result ≡ gap table length sum symbol (symbol + 1) }
    ensures bound { result ≤ 4278190080 }
{
    let gap = below(table, length, sum, symbol) + above(table, length, sum, symbol + 1);
    gap as u32
}

/// The square of a gap by the length of the segment, rounded up. A length that is a power of two needs no division.
fn cost_over(length: u32, gap: u32) -> u64
    requires some_values { 1 ≤ length }
    requires within_reach { gap ≤ 4278190080 }
    ensures { result ≡ cost_of_gap length gap }
{
    let square = u64::from(gap) * u64::from(gap) + u64::from(length - 1);
    let bits = length.ilog2();
    if length == 1 << bits {
        square >> bits
    } else {
        square / u64::from(length)
    }
}

/// The cost of one symbol for a segment of this length and sum: the square of the gap by the length, rounded up.
fn cost_of_symbol(table: Table, length: u32, sum: i32, symbol: u32) -> u64
    requires is_sum { IsSum length sum }
    requires eight_bits { symbol < 256 }
    ensures { result ≡ symbol_cost table length sum symbol }
{
    let gap = gap_of_symbol(table, length, sum, symbol);
    cost_over(length, gap)
}

/// How far a sum lies outside the sums of the symbols that begin with one bit.
fn gap_of_bit(table: Table, length: u32, sum: i32, bit: u32) -> u32
    requires is_sum { IsSum length sum }
    requires one_bit { bit < 2 }
    ensures value { result ≡ gap table length sum (bit * 128) ((bit + 1) * 128) }
    ensures bound { result ≤ 4278190080 }
{
    let gap = below(table, length, sum, bit * 128) + above(table, length, sum, (bit + 1) * 128);
    gap as u32
}

/// The cost of one bit as a part, for a segment of this length and sum.
pub(crate) fn cost_of_bit(table: Table, length: u32, sum: i32, bit: u32) -> u64
    requires is_sum { IsSum length sum }
    requires one_bit { bit < 2 }
    ensures { result ≡ part_cost table length sum (record { prefix = bit; bits = 1 }) }
{
    let gap = gap_of_bit(table, length, sum, bit);
    cost_over(length, gap)
}

/// Writes the costs of all 256 symbols for a segment of this length and sum.
pub(crate) fn write_costs(table: Table, length: u32, sum: i32, costs: &mut [u64; 256])
    requires { IsSum length sum }
    ensures { HoldsCosts table length sum costs.new }
{
    for symbol in 0..256u32 {
        costs[symbol as usize] = cost_of_symbol(table, length, sum, symbol);
    }
}
