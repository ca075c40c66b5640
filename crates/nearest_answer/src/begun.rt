//! A search by leaves on its way. Its one rule: each leaf was met, is left, or is farther than the limit.
use series_core::{Entry, KBest};

/// What a search by leaves has, knows and has to do.
#[derive(Drop)]
pub(crate) struct Begun {
    /// The k nearest of the leaves that were met.
    pub(crate) list: KBest,
    /// A limit that is not below the last distance.
    pub(crate) limit: u64,
    /// The leaves that are left.
    pub(crate) left: Vec<Entry>,
}
