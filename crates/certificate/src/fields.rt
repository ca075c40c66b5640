//! The fields of a line, read from the front of a text: each reading gives a value and the rest of the text.

ghost use Rattle.std.specs.Prelude.{◌≡◌, true, ◌≤◌, ◌<◌, ◌^◌, IfSome, length, take, decimal};
ghost use Rattle.std.specs.List.{prefix_len, list_all};
ghost use Rattle.std.specs.Char.{is_ascii_digit};
ghost use Rattle.std.specs.Option.{SomeIff};
ghost use Rattle.std.specs.Str.Parse.{digits_value};
ghost use Rattle.certificate.specs.Fields.{Sees, after, is_spelled, number_at, stops, is_end};

use crate::block::Said;
use isax_word::Word;
use itoa::Buffer;
use series_core::{Entry, NONE};

/// What stands behind `front`, where the text begins with it.
pub fn after<'a>(text: &'a [u8], front: &[u8]) -> Option<&'a [u8]>
    ensures { Sees (λ rest. rest.now) result (after front.now text.now) }
{
    text.strip_prefix(front)
}

/// What stands behind a number, where the text begins with its decimals.
pub fn after_number(text: &[u8], n: u64) -> Option<&[u8]>
    ensures { Sees (λ rest. rest.now) result (after (decimal n) text.now) }
{
    let mut buffer = Buffer::new();
    after(text, buffer.format(n).as_bytes())
}

/// A number of at most `most`, which is all digits at the front: a 0 alone, or digits that begin with another.
pub fn number(text: &[u8], most: u64) -> Option<(u64, &[u8])>
    ensures read { Sees (λ x. (x.0, x.1.now)) result (number_at most text.now) }
    ensures limit { IfSome result (λ x. x.0 ≤ most) }
{
    let (digits, rest) = text.split_at(digits_at(text));
    let n = value_of(digits)?;
    if is_spelled(digits) && n <= most {
        Some((n, rest))
    } else {
        None
    }
}

// How many digits stand at the front.
fn digits_at(text: &[u8]) -> usize
    ensures size { result ≡ prefix_len is_ascii_digit text.now }
    ensures within { result ≤ length text.now }
    ensures digits { list_all is_ascii_digit (take result text.now) ≡ true }
{
    for i in 0..text.len() {
        if !text[i].is_ascii_digit() {
            return i;
        }
    }
    text.len()
}

// The number that the digits write, where it is below 2^64.
fn value_of(digits: &[u8]) -> Option<u64>
    requires { list_all is_ascii_digit digits.now ≡ true }
    ensures { SomeIff result (digits_value 10 digits.now < 2 ^ 64) (digits_value 10 digits.now) }
{
    let mut n = 0u64;
    for digit in digits {
        n = n.checked_mul(10)?.checked_add(u64::from(*digit - b'0'))?;
    }
    Some(n)
}

// Whether digits are spelled well: there is one, and a 0 stands alone.
fn is_spelled(digits: &[u8]) -> bool
    ensures { result ≡ is_spelled digits.now }
{
    match digits {
        [] => false,
        [b'0', rest @ ..] => rest.is_empty(),
        [_, ..] => true,
    }
}

/// Whether the line ends here: with a line feed, and nothing behind it.
pub fn is_end(text: &[u8]) -> bool
    ensures { result ≡ is_end text.now }
{
    matches!(text, [b'\n'])
}

/// Whether no digit stands at the front.
pub fn stops(text: &[u8]) -> bool
    ensures { result ≡ stops text.now }
{
    match text {
        [] => true,
        [first, ..] => !first.is_ascii_digit(),
    }
}
