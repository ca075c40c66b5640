//! Outcomes of small searches, as worked by hand.
use query_core::{Fate, Outcome, Start};
use series_core::{Entry, Pair};

/// What the outcome of a search is to be.
#[derive(Clone, Copy)]
pub(crate) struct Worked<'a> {
    /// The nearest pairs.
    pub pairs: &'a [Pair],
    /// The leaf that is scanned first, and the limit behind it.
    pub start: Start,
    /// Of each queue the entries that are taken, and the limit that shuts it, where the schedule does not change it.
    pub lines: &'a [(&'a [Entry], Option<u64>)],
    /// What becomes of each leaf.
    pub fates: &'a [Fate],
}

/// Whether an outcome is this one.
pub(crate) fn is_as_worked(outcome: &Outcome, worked: &Worked<'_>) -> bool {
    if outcome.lines.items.len() != worked.lines.len() {
        return false;
    }
    for (line, (taken, kept)) in outcome.lines.items.iter().zip(worked.lines) {
        let other = match kept {
            Some(kept) => line.kept != *kept,
            None => false,
        };
        if other || line.taken.items.as_slice() != *taken {
            return false;
        }
    }
    outcome.pairs.items.as_slice() == worked.pairs
        && outcome.start == Some(worked.start)
        && outcome.fates.items.as_slice() == worked.fates
}
