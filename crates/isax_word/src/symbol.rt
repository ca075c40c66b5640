//! The symbol of a segment's sum. A symbol is defined as a count of breakpoints; here it is found by
//! arithmetic, in the flat table, or by halving, in the bent one, without a branch on the values. The bent table is searched by the mean of
//! the segment, rounded down: that lies on the same side of each breakpoint as the sum does, and takes 16 bits.
ghost use Rattle.std.specs.Prelude.{◌≡◌, ◌*◌, ◌≤◌, pos, neg_ℤ, ◌+ℤ◌, ◌≤ℤ◌, if◌then◌else◌};
ghost use Rattle.breakpoints.specs.declared.table.Table.TheVariants.{Flat, Bent};
ghost use Rattle.isax_word.specs.Symbol.{is_reached, mean_of, symbol_of};

use breakpoints::Table;
use search_limits::RAISE;

/// The symbol of a segment of this length and sum, the sum of as many values of 16 bits.
pub fn symbol_of_sum(table: Table, length: u32, sum: i32) -> u8
    requires some_values { 1 ≤ length }
    requires few_values { length ≤ 65536 }
    requires not_low { neg_ℤ (pos (RAISE * length)) ≤ℤ sum }
    requires not_high { sum ≤ℤ pos (32767 * length) }
    ensures { result ≡ symbol_of table length sum }
{
    match table {
        Table::Flat => flat_symbol(length, sum),
        Table::Bent => bent_symbol(mean_of(length, sum)),
    }
}

/// How far a sum lies above the least sum of a segment of this length.
#[inline(always)]
fn above_least(length: u32, sum: i32) -> u32
    requires some_values { 1 ≤ length }
    requires few_values { length ≤ 65536 }
    requires not_low { neg_ℤ (pos (RAISE * length)) ≤ℤ sum }
    requires not_high { sum ≤ℤ pos (32767 * length) }
    ensures value { pos result ≡ sum +ℤ pos (RAISE * length) }
    ensures bound { result ≤ 65535 * length }
{
    (i64::from(sum) + i64::from(RAISE) * i64::from(length)) as u32
}

/// The symbol in the flat table: how many steps of 256 a value fit between the least sum and the sum.
fn flat_symbol(length: u32, sum: i32) -> u8
    requires some_values { 1 ≤ length }
    requires few_values { length ≤ 65536 }
    requires not_low { neg_ℤ (pos (RAISE * length)) ≤ℤ sum }
    requires not_high { sum ≤ℤ pos (32767 * length) }
    ensures { result ≡ symbol_of Flat length sum }
{
    (above_least(length, sum) / (256 * length)) as u8
}

/// The mean of a segment of this length and sum, rounded down.
#[inline(always)]
pub(crate) fn mean_of(length: u32, sum: i32) -> i16
    requires some_values { 1 ≤ length }
    requires few_values { length ≤ 65536 }
    requires not_low { neg_ℤ (pos (RAISE * length)) ≤ℤ sum }
    requires not_high { sum ≤ℤ pos (32767 * length) }
    ensures { result ≡ mean_of length sum }
{
    let raised = above_least(length, sum) / length;
    (raised as i32 - RAISE as i32) as i16
}

/// 1 where the bent breakpoint at place `i` is at or below the mean, and else 0.
#[inline(always)]
pub(crate) fn bent_reached(mean: i16, i: u16) -> u16
    requires first { 1 ≤ i }
    requires last { i ≤ 255 }
    ensures { result ≡ (if is_reached Bent 1 mean i then 1 else 0) }
{
    u16::from(Table::Bent.at(u32::from(i)) <= i32::from(mean))
}

/// The symbol of a mean in the bent table, found in eight halvings of the places that are left.
fn bent_symbol(mean: i16) -> u8
    ensures { result ≡ symbol_of Bent 1 mean }
{
    let mut symbol = 0;
    for round in 0..8u32 {
        let step = 128 >> round;
        symbol += step * bent_reached(mean, symbol + step);
    }
    symbol as u8
}
