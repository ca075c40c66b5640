//! What a search ends with: the pairs, the start, what each queue gave, and what became of each
//! leaf.
use series_core::{Entry, Listed, PairList};

/// The leaf that is scanned first, and the limit that it gives.
#[derive(Clone, Copy, PartialEq, Eq, Debug)]
pub struct Start {
    /// The number of the start leaf.
    pub leaf: u32,
    /// The distance of the k-th pair of its members, or `NONE` where it has fewer than k.
    pub limit: u64,
}

/// What became of a leaf.
#[derive(Clone, Copy, PartialEq, Eq, Debug)]
pub enum Fate {
    /// It is the start leaf.
    Start,
    /// It was taken from this queue and scanned.
    Queue(u32),
    /// Its put was refused, and this worker scanned it.
    Late(u32),
    /// It was not scanned, and has this lower bound.
    Bound(u64),
}

/// A list of entries.
pub type EntryList = Listed<Entry>;

/// What is reported of a closed queue.
#[derive(Drop, Debug)]
pub struct QueueLine {
    /// The entries that were taken, in the order in which they were taken.
    pub taken: EntryList,
    /// The limit with which the queue was shut.
    pub kept: u64,
}

/// A list of lines, one for each closed queue, in the order of the queues.
pub type LineList = Listed<QueueLine>;

/// A list of fates, one a leaf, in the order of the leaves.
pub type FateList = Listed<Fate>;

/// The outcome of a search.
#[derive(Drop, Debug)]
pub struct Outcome {
    /// The answer.
    pub pairs: PairList,
    /// The start; None exactly where there is no leaf.
    pub start: Option<Start>,
    /// The line of each queue.
    pub lines: LineList,
    /// The fate of each leaf.
    pub fates: FateList,
}
