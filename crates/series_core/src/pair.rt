//! Pairs, their order, and lists of them.
//! A pair comes before another where it is nearer, and of two as near where its number is smaller.

ghost use Rattle.std.specs.Prelude.{◌≡◌};

use crate::listed::Listed;

/// A series and its squared distance to a query.
#[derive(Clone, Copy, PartialEq, Eq, PartialOrd, Ord, Debug)]
pub struct Pair {
    /// The squared Euclidean distance.
    pub distance: u64,
    /// The number of the series: its place in the collection, from 0.
    pub number: u32,
}

impl Pair {
    ghost use Rattle.series_core.specs.Pairs.{is_before};

    /// Whether this pair comes before the other: it is nearer, or as near with a smaller number.
    pub fn is_before(&self, other: &Pair) -> bool
        ensures { result ≡ is_before self.now other.now }
    {
        self < other
    }
}

/// A list of pairs.
pub type PairList = Listed<Pair>;

/// A list of labels, one a series, in the order of the series.
pub type LabelList = Listed<u64>;
