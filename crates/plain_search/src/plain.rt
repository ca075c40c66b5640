//! The nearest series, by a distance value by value and a sort of all pairs.
use outside::NoMemory;
use series_core::{Flat, Pair, Rows};
use std::alloc::Global;

/// The squared distance, value by value.
pub fn plain_distance(x: &[i16], q: &[i16]) -> u64 {
    let mut sum = 0u64;
    for (a, b) in x.iter().zip(q) {
        let difference = i32::from(*a).abs_diff(i32::from(*b));
        let square = u64::from(difference).wrapping_mul(u64::from(difference));
        sum = sum.wrapping_add(square);
    }
    sum
}

/// All series, by distance and then by number.
pub fn by_distance(alloc: Global, rows: &Flat, query: &[i16]) -> Result<Vec<(u64, u32)>, NoMemory> {
    let mut all = Vec::new(alloc);
    for number in 0..rows.count() {
        all.push((plain_distance(rows.row(number), query), number))?;
    }
    all.sort_unstable();
    Ok(all)
}

/// The k nearest, by distance and then by number.
pub fn plain_nearest(
    alloc: Global,
    rows: &Flat,
    query: &[i16],
    k: u32,
) -> Result<Vec<(u64, u32)>, NoMemory> {
    let mut near = by_distance(alloc, rows, query)?;
    near.truncate(k as usize);
    Ok(near)
}

/// Whether the pairs are these.
pub fn are_same(found: &[Pair], pairs: &[(u64, u32)]) -> bool {
    for (pair, (distance, number)) in found.iter().zip(pairs) {
        if pair.distance != *distance || pair.number != *number {
            return false;
        }
    }
    found.len() == pairs.len()
}
