//! The kernel at worked distances, with limits about each, at all lengths about a block and about the end of a row.
//! Expected distances are worked by hand, or those of the plain function.

ghost use Rattle.std.specs.Prelude.{◌≤◌};

use crate::claims::assert_same;
use simd_distance::{distance, distance_within};
use std::process::Abort;
use std::test::Fail;

/// The longest series of the tables.
const LONGEST: usize = 4097;

/// Compares both functions with an expected distance: the kernel with this limit, with one more and with one less.
fn compare(rt: &impl Abort, x: &[i16], q: &[i16], expected: u64) {
    let length = x.len();
    assert!(rt;
        length == q.len() && length <= 65536,
        "{length} values are no row"
    );
    assert_same!(rt; distance(x, q), expected, "the distance of {length} values");
    assert_same!(rt;
        distance_within(x, q, expected),
        Some(expected),
        "{length} values within their distance {expected}"
    );
    assert_same!(rt;
        distance_within(x, q, expected.wrapping_add(1)),
        Some(expected),
        "{length} values within one more than {expected}"
    );
    if expected > 0 {
        let less = distance_within(x, q, expected - 1);
        assert_same!(rt;
            less,
            None,
            "{length} values within one less than {expected}"
        );
    }
}

#[test]
fn worked_distances(rt: HostRuntime) -> Result<(), Fail> {
    let rows: [(usize, i16, i16, u64); 9] = [
        (0, 0, 0, 0),
        (1, 3, 0, 9),
        (4, 1, 10, 324),
        (64, 4096, -4095, 4293918784),
        (64, 4096, -4096, 4294967296),
        (64, 16384, -16383, 68715282496),
        (64, 16384, -16384, 68719476736),
        (4096, -32768, 32767, 17591649177600),
        (65536, -32768, 32767, 281466386841600),
    ];
    for (length, value, asked, expected) in rows {
        let x = Vec::from_elem(rt.alloc(), value, length)?;
        let q = Vec::from_elem(rt.alloc(), asked, length)?;
        compare(&rt, &x, &q, expected);
    }
    Ok(())
}

/// Compares rows that differ by 1 everywhere, and by 65535 at one place, for each place.
fn compare_extremes(rt: &impl Abort, length: usize)
    requires { length ≤ 4097 }
{
    let mut x = [1; LONGEST];
    let mut q = [0; LONGEST];
    compare(rt, &x[..length], &q[..length], length as u64);
    for place in 0..length {
        x[place] = -32768;
        q[place] = 32767;
        compare(rt, &x[..length], &q[..length], length as u64 + 4294836224);
        x[place] = 1;
        q[place] = 0;
    }
}

#[test]
fn an_extreme_at_each_place(rt: HostRuntime) -> Result<(), Fail> {
    for length in 0..=100 {
        compare_extremes(&rt, length);
    }
    for length in 4095..=4097 {
        compare_extremes(&rt, length);
    }
    Ok(())
}

/// A row of values scattered over all 16 bits.
fn scattered(seed: u64) -> [i16; LONGEST] {
    let mut state = seed;
    let mut values = [0; LONGEST];
    for value in &mut values {
        state = state
            .wrapping_mul(6364136223846793005)
            .wrapping_add(1442695040888963407);
        *value = ((state >> 48) as u16).cast_signed();
    }
    values
}

#[test]
fn scattered_values(rt: HostRuntime) -> Result<(), Fail> {
    let x = scattered(7);
    let q = scattered(8);
    for length in 0..LONGEST + 1 {
        if length <= 130 || length >= 4095 {
            let plain = distance(&x[..length], &q[..length]);
            compare(&rt, &x[..length], &q[..length], plain);
        }
    }
    Ok(())
}
