//! The distance as its definition reads, one value at a time and to the end.
//! The kernel in lanes is held against it, and it serves callers that have no limit.

ghost use Rattle.std.specs.Prelude.{◌≡◌, ◌*◌, ◌≤◌, length};
ghost use Rattle.series_core.specs.Distance.{squared_difference, squared_distance};

use series_core::MAX_LENGTH;

/// The squared Euclidean distance of two series of one length, of at most 65536 values.
pub fn distance(x: &[i16], q: &[i16]) -> u64
    requires same_length { length x.now ≡ length q.now }
    requires short { length x.now ≤ MAX_LENGTH }
    ensures value { result ≡ squared_distance x.now q.now }
    ensures bounded { result ≤ length x.now * 4294836225 }
{
    let mut sum = 0;
    for i in 0..x.len() {
        sum += squared_difference(x[i], q[i]);
    }
    sum
}

/// The square of the difference of two values, which is at most 65535 * 65535.
pub(crate) fn squared_difference(a: i16, b: i16) -> u64
    ensures value { result ≡ squared_difference a b }
    ensures bounded { result ≤ 4294836225 }
{
    let difference = u64::from(a.abs_diff(b));
    difference * difference
}
