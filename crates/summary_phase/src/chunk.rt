//! Chunks of a collection: `CHUNK` series in a row, fewer in the last one.
ghost use Rattle.std.specs.Prelude.{◌≡◌, ◌<◌, ◌≤◌, ◌+◌, ◌*◌, ◌^◌, min};
ghost use Rattle.summary_phase.specs.Chunks.{chunk_count};

use std::ops::Range;

/// The number of series in a chunk; the last chunk of a collection may have fewer.
pub(crate) const CHUNK: u32 = 256;

/// The number of chunks of `count` series. It takes no memory.
pub fn chunks(count: u32) -> u64
    ensures value { result ≡ chunk_count count }
    ensures few { result ≤ 2 ^ 24 }
{
    (u64::from(count) + u64::from(CHUNK - 1)) / u64::from(CHUNK)
}

/// The numbers of the series in a chunk of a collection of `count` series.
pub(crate) fn numbers(chunk: u64, count: u32) -> Range<u32>
    requires chunk { chunk < chunk_count count }
    requires limit { count ≤ 2 ^ 24 }
    ensures start { result.start ≡ chunk * CHUNK }
    ensures end { result.end ≡ min count (chunk * CHUNK + CHUNK) }
    ensures some { result.start < result.end }
{
    let start = chunk as u32 * CHUNK;
    start..count.min(start + CHUNK)
}
