//! What a command line asks for: a command with the files, numbers and options that it holds.

use crate::options::Options;
use crate::text::Text;

/// What the program is asked to do. Files are named, and numbers are within their limits.
#[derive(Drop)]
pub enum Command {
    /// The `k` nearest series of each query.
    Nearest {
        series: Text,
        queries: Text,
        options: Options,
    },
    /// The series within `radius` of each query, from 0 to 281474976710656.
    Range {
        series: Text,
        queries: Text,
        radius: u64,
        options: Options,
    },
    /// Checks a certificate.
    Verify {
        series: Text,
        queries: Text,
        certificate: Text,
        options: Options,
    },
    /// Searches up to 16777216 random walks of up to 65536 values, in all up to 134217728,
    /// for up to 1000 queries.
    Trial {
        seed: u64,
        count: u32,
        length: u32,
        queries: u32,
        options: Options,
    },
    /// Writes a series file in version 2, with a label for each series.
    Convert {
        series: Text,
        options: Options,
    },
    /// Writes the index of a series file.
    Save {
        series: Text,
        options: Options,
    },
    /// The `k` nearest windows of one long series, `apart` or more from one another. A window begins
    /// at each `step` values, from 1 to 16777216.
    Windows {
        series: Text,
        queries: Text,
        step: u32,
        options: Options,
    },
    /// The `k` series whose nearest other is farthest.
    Discord {
        series: Text,
        options: Options,
    },
}
