//! Roots of whole numbers, rounded down and up. They are exact.
ghost use Rattle.std.specs.Prelude.{◌≡◌, ◌<◌, ◌≤◌, ◌^◌};
ghost use Rattle.row_codes.specs.Roots.{root, root_up};

use std::num::{nearest_i64_to_f64, saturating_f64_to_u32};

/// The root of a number, rounded down. What the processor gives of a float is a first guess, and is mended where it is not the root.
pub(crate) fn root_of(n: u64) -> u64
    requires { n < 2 ^ 62 }
    ensures value { result ≡ root n }
    ensures small { result < 2 ^ 31 }
{
    let guess = nearest_i64_to_f64(n as i64).sqrt();
    let mut root = u64::from(saturating_f64_to_u32(guess));
    while root * root > n {
        root -= 1;
    }
    while (root + 1) * (root + 1) <= n {
        root += 1;
    }
    root
}

/// The root of a number, rounded up.
pub(crate) fn root_up_of(n: u64) -> u64
    requires { n < 2 ^ 62 }
    ensures { result ≡ root_up n }
{
    if n == 0 { 0 } else { root_of(n - 1) + 1 }
}
