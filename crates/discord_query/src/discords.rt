//! What is found: discords, and a list of them.
use series_core::Listed;

/// A series with its nearest other: of two as near, the one with the smaller number.
#[derive(Clone, Copy, PartialEq, Eq, Debug)]
pub struct Discord {
    /// The number of the series: its place in the collection, from 0.
    pub number: u32,
    /// The squared Euclidean distance to its nearest other.
    pub distance: u64,
    /// The number of that other.
    pub neighbour: u32,
}

/// A list of discords.
pub type DiscordList = Listed<Discord>;
