//! Files of drawn series, and what is written of the nearest to queries, by a plain sort.

use outside::NoMemory;
use plain_search::plain_nearest;
use run_traffic::push_line;
use series_core::{Flat, Rows};
use std::alloc::Global;

/// A file of these series without a header.
pub fn raw(alloc: Global, rows: &Flat) -> Result<Vec<u8>, NoMemory> {
    let mut bytes = Vec::new(alloc);
    for value in rows.values() {
        bytes.extend_from_slice(&value.to_le_bytes())?;
    }
    Ok(bytes)
}

/// The text of the k series nearest to each query, by a plain sort.
pub fn plain_text(alloc: Global, rows: &Flat, queries: &Flat, k: u32) -> Result<Vec<u8>, NoMemory> {
    let mut text = Vec::new(alloc);
    for i in 0..queries.count() {
        text.extend_from_slice(b"query ")?;
        push_line(&mut text, u64::from(i), &[])?;
        let mut rank = 0u64;
        for (distance, number) in plain_nearest(alloc, rows, queries.row(i), k)? {
            rank = rank.saturating_add(1);
            push_line(&mut text, rank, &[u64::from(number), distance])?;
        }
    }
    Ok(text)
}
