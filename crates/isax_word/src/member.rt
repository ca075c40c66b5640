//! A series as the index keeps it: its number and its full word.
use crate::full::Full;

/// A member of a leaf: the number of a series and its full word.
#[derive(Clone, Copy)]
pub struct Member {
    /// The number of the series.
    pub number: u32,
    /// The full word of the series.
    pub full: Full,
}
