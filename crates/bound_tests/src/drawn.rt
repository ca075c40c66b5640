//! Rows of scattered values, which the tests of all bounds share.
ghost use Rattle.std.specs.Prelude.{◌≤◌};

use std::alloc::{AllocError, Global};

/// A row of so many values, scattered over some bits.
pub(crate) fn scattered(
    alloc: Global,
    seed: u64,
    length: usize,
    bits: u32,
) -> Result<Vec<i16>, AllocError>
    requires some { 1 ≤ bits }
    requires limit { bits ≤ 16 }
{
    let mut state = seed;
    let mut values = Vec::with_capacity(alloc, length)?;
    for _place in 0..length {
        state = state
            .wrapping_mul(6364136223846793005)
            .wrapping_add(1442695040888963407);
        values.push((((state >> 48) as u16).cast_signed()) >> (16 - bits))?;
    }
    Ok(values)
}
