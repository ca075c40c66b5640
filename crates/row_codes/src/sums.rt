//! The sums of a block of a query, and how far the query lies from what codes stand for, multiplied out.
ghost use Rattle.std.specs.Prelude.{◌≡◌, ◌+◌, ◌*◌, ◌/◌, ◌≤◌, ◌-ℤ◌, ◌+ℤ◌, ◌*ℤ◌, ◌≤ℤ◌, pos, length, unsigned_abs};
ghost use Rattle.row_codes.specs.Codes.{value_squares};
ghost use Rattle.row_codes.specs.Kept.{multiplied_out, value_total};

use search_limits::RAISE;
use std::marker::Model;

/// The sum of a block's values, and that of their squares.
#[derive(Clone, Copy)]
pub(crate) struct QuerySums {
    total: i32,
    squares: u64,
}

impl Model for QuerySums {
    ghost use Rattle.std.specs.Prelude.{◌≤◌, unsigned_abs};
    ghost use Rattle.row_codes.specs.Kept.{Sums};

    ghost Value = { Sums };

    ghost view = { λ s. record { total = s.total; squares = s.squares } };

    ghost invariant = { λ s. (unsigned_abs s.total ≤ 8388608) × (s.squares ≤ 274877906944) };

    ghost inverse = { λ s. record { total = s.total; squares = s.squares } };
}

impl QuerySums {
    // The sums of no values.
    pub(crate) fn zeros() -> QuerySums
        ensures { result ≡ record { total = pos 0; squares = 0 } }
    {
        QuerySums {
            total: 0,
            squares: 0,
        }
    }

    // The sums of at most 256 values. The squares are added in two halves of 16 bits, whose sums take 32.
    pub(crate) fn of(values: &[i16]) -> QuerySums
        requires { length values.now ≤ 256 }
        ensures { result ≡ record { total = value_total values.now; squares = value_squares values.now } }
    {
        let (mut total, mut small, mut great) = (0i32, 0u32, 0u32);
        for i in 0..values.len() {
            let value = i32::from(values[i]);
            let square = square_of(value);
            total += value;
            small += square % 65536;
            great += square / 65536;
        }
        QuerySums {
            total,
            squares: u64::from(small) + 65536 * u64::from(great),
        }
    }

    // How far the query lies from what codes stand for, squared: of their least value, their step, the squares of what they stand for, and
    // the sum of their products with the values.
    #[inline(always)]
    pub(crate) fn distance(&self, low: u16, step: u16, squares: u64, dot: i32) -> u64
        requires step { step ≤ 4096 }
        requires squares { squares ≤ 4398046511104 }
        requires dot { unsigned_abs dot ≤ 125829120 }
        requires whole { pos 0 ≤ℤ multiplied_out low step squares dot self.now }
        ensures value { pos result ≡ multiplied_out low step squares dot self.now }
        ensures small { result ≤ 8000000000000 }
    {
        let products = products(low, step, dot, self.total);
        far(squares, self.squares, products)
    }
}

/// The sum of the products of a query's values and what codes stand for: of their least value, their step, the sum of the products of codes
/// and values, and the sum of the values.
#[inline(always)]
fn products(low: u16, step: u16, dot: i32, total: i32) -> i64
    requires step { step ≤ 4096 }
    requires dot { unsigned_abs dot ≤ 125829120 }
    requires total { unsigned_abs total ≤ 8388608 }
    ensures value { result ≡ (pos step *ℤ dot) +ℤ ((pos (low + step / 2) *ℤ total) -ℤ (pos RAISE *ℤ total)) }
    ensures small { unsigned_abs result ≤ 1400000000000 }
{
    let center = u32::from(low) + u32::from(step) / 2;
    times(u32::from(step), dot) + (times(center, total) - RAISE as i64 * i64::from(total))
}

/// How far two lists lie from each other, of the sums of their squares and that of their products.
#[inline(always)]
fn far(one: u64, other: u64, products: i64) -> u64
    requires one { one ≤ 4398046511104 }
    requires other { other ≤ 274877906944 }
    requires products { unsigned_abs products ≤ 1400000000000 }
    requires whole { pos 0 ≤ℤ ((pos one -ℤ (pos 2 *ℤ products)) +ℤ pos other) }
    ensures value { pos result ≡ (pos one -ℤ (pos 2 *ℤ products)) +ℤ pos other }
    ensures small { result ≤ 8000000000000 }
{
    (one as i64 + other as i64 - 2 * products) as u64
}

/// A number of at most 17 bits times a sum.
#[inline(always)]
fn times(number: u32, sum: i32) -> i64
    requires { number ≤ 131072 }
    ensures value { result ≡ pos number *ℤ sum }
    ensures small { unsigned_abs result ≤ number * unsigned_abs sum }
{
    i64::from(number) * i64::from(sum)
}

/// The square of a number of 16 bits and a sign.
#[inline(always)]
pub(crate) fn square_of(number: i32) -> u32
    requires { unsigned_abs number ≤ 65535 }
    ensures { result ≡ unsigned_abs number * unsigned_abs number }
{
    let size = number.unsigned_abs();
    size * size
}
