//! What a certificate says of the queries, block by block.
//! A block has the answers of one query, where the search of it started, what each queue gave, and each leaf.

ghost use Rattle.std.specs.Prelude.{◌≡◌, length};

use isax_word::Word;
use search_machine::{EntryList, Start};
use series_core::{LabelList, Listed, Pair, PairList};

/// What a certificate says of a leaf.
#[derive(Clone, Copy, PartialEq, Eq, Debug)]
pub enum Said {
    /// It was scanned.
    Scanned,
    /// It was not scanned, and its word has this lower bound.
    Bound(u64),
}

/// The line of a leaf.
#[derive(Clone, Copy)]
pub struct LeafLine {
    /// The word of the leaf.
    pub word: Word,
    /// What is said of it.
    pub said: Said,
}

/// A list of lists of entries, one list a queue, in the order of the queues.
pub type EntryLists = Listed<EntryList>;

/// A list of leaf lines, one a leaf, in the order of the leaves.
pub type LeafLineList = Listed<LeafLine>;

/// The block of one query.
#[derive(Drop)]
pub struct Block {
    /// The answers, by rank.
    pub answers: PairList,
    /// The labels of the answers, one an answer, or none at all where the series have no labels.
    pub labels: LabelList,
    /// The leaf that was scanned first and its limit, which is `NONE` where it gave none; None where there is no leaf.
    pub start: Option<Start>,
    /// The entries that were taken from each queue.
    pub lines: EntryLists,
    /// What is said of each leaf.
    pub leaves: LeafLineList,
}

impl Block {
    /// Lends the answers.
    pub fn pairs(&self) -> &[Pair]
        ensures { result.now ≡ self.now.answers }
    {
        &self.answers.items
    }

    /// Lends the labels of the answers.
    pub fn written_labels(&self) -> &[u64]
        ensures { result.now ≡ self.now.labels }
    {
        &self.labels.items
    }

    /// The number of queues.
    pub fn queue_count(&self) -> u64
        ensures { result ≡ length self.now.lines }
    {
        self.lines.items.len() as u64
    }

    /// Lends the leaf lines.
    pub fn leaf_lines(&self) -> &[LeafLine]
        ensures { result.now ≡ self.now.leaves }
    {
        &self.leaves.items
    }
}
