//! Codes of the values of one block: the least and the greatest value, the step between codes, and what codes stand for and forget. A code
//! is found by a product with a reciprocal of the step in place of a division; it is exact, since no value lies outside of the 16 codes.
ghost use Rattle.std.specs.Prelude.{◌≡◌, ◌+◌, ◌-◌, ◌*◌, ◌/◌, ◌<◌, ◌≤◌, length, unsigned_abs};
ghost use Rattle.std.specs.List.{All};
ghost use Rattle.row_codes.specs.Codes.{greatest, least, packed, picture_of, pictured, raised, step_of, value_squares};
ghost use Rattle.row_codes.specs.Rows.{block_codes, forgotten, value_codes};

use crate::sums::square_of;
use search_limits::RAISE;

/// A value, counted from the least of 16 bits.
#[inline(always)]
fn raised(value: i16) -> u16
    ensures { result ≡ raised value }
{
    (i32::from(value) + RAISE as i32) as u16
}

/// The least of some values, counted from the least of 16 bits.
pub(crate) fn least_of(values: &[i16]) -> u16
    ensures { result ≡ least values.now }
{
    let mut low = 65535;
    for i in 0..values.len() {
        low = raised(values[i]).min(low);
    }
    low
}

/// The greatest of some values, counted so.
pub(crate) fn greatest_of(values: &[i16]) -> u16
    ensures { result ≡ greatest values.now }
{
    let mut high = 0;
    for i in 0..values.len() {
        high = raised(values[i]).max(high);
    }
    high
}

/// The least step of which 16 reach from the least of some values to the greatest.
pub(crate) fn step_of(low: u16, high: u16) -> u16
    ensures value { result ≡ (high - low) / 16 + 1 }
    ensures limit { result ≤ 4096 }
    ensures top { low + 15 * result ≤ 65550 }
{
    high.saturating_sub(low) / 16 + 1
}

/// The codes of at most 256 values, by their least one and their step; behind them zeros.
pub(crate) fn codes_of(values: &[i16], low: u16, step: u16) -> [u16; 256]
    requires few { length values.now ≤ 256 }
    requires low { low ≡ least values.now }
    requires step { step ≡ step_of values.now }
    requires limit { step ≤ 4096 }
    ensures value { result ≡ block_codes values.now }
    ensures small { All (λ c. c < 16) result }
{
    let step = u32::from(step);
    let reciprocal = 268435456 / step + 1;
    let mut codes = [0; 256];
    for i in 0..values.len() {
        codes[i] = code_of(raised(values[i]) - low, step, reciprocal);
    }
    codes
}

/// The code of a value that lies so far above the least one, by a reciprocal of the step.
#[inline(always)]
fn code_of(above: u16, step: u32, reciprocal: u32) -> u16
    requires step { step ≤ 4096 }
    requires near { above < 16 * step }
    requires reciprocal { reciprocal ≡ 268435456 / step + 1 }
    ensures value { result ≡ above / step }
    ensures small { result < 16 }
{
    (u32::from(above) * reciprocal / 268435456) as u16
}

/// What a code stands for.
#[inline(always)]
fn picture(code: u16, low: u16, step: u16) -> i32
    requires code { code < 16 }
    requires step { step ≤ 4096 }
    requires top { low + 15 * step ≤ 65550 }
    ensures value { result ≡ picture_of low step code }
    ensures small { unsigned_abs result ≤ 34830 }
{
    let code = u32::from(code);
    let step = u32::from(step);
    (u32::from(low) + step * code + step / 2) as i32 - RAISE as i32
}

/// The squares of what codes stand for, added up. They are added in two halves of 16 bits, whose sums take 32.
pub(crate) fn squares_of(codes: &[u16], low: u16, step: u16) -> u64
    requires few { length codes.now ≤ 256 }
    requires small { All (λ c. c < 16) codes.now }
    requires step { step ≤ 4096 }
    requires top { low + 15 * step ≤ 65550 }
    ensures value { result ≡ value_squares (pictured low step codes.now) }
    ensures small { result ≤ 4398046511104 }
{
    let (mut small, mut great) = (0u32, 0u32);
    for i in 0..codes.len() {
        let square = square_of(picture(codes[i], low, step));
        small += square % 65536;
        great += square / 65536;
    }
    u64::from(small) + 65536 * u64::from(great)
}

/// What the codes of at most 256 values forget.
pub(crate) fn forgotten_of(values: &[i16], codes: &[u16], low: u16, step: u16) -> u64
    requires few { length values.now ≤ 256 }
    requires codes { codes.now ≡ value_codes values.now }
    requires small { All (λ c. c < 16) codes.now }
    requires low { low ≡ least values.now }
    requires step { step ≡ step_of values.now }
    requires limit { step ≤ 4096 }
    requires top { low + 15 * step ≤ 65550 }
    ensures value { result ≡ forgotten values.now }
    ensures small { result ≤ length values.now * 4194304 }
{
    let mut lost = 0u32;
    for i in 0..values.len() {
        lost += square_of(i32::from(values[i]) - picture(codes[i], low, step));
    }
    u64::from(lost)
}

/// The words of 256 codes.
pub(crate) fn packed(codes: &[u16; 256]) -> [u16; 64]
    requires { All (λ c. c < 16) codes.now }
    ensures { result ≡ packed codes.now }
{
    let mut words = [0; 64];
    for j in 0..64 {
        words[j] = codes[j] + 16 * codes[64 + j] + 256 * codes[128 + j] + 4096 * codes[192 + j];
    }
    words
}
