//! Stretches of leaves that are listed: what a worker draws at a time is some entries in a row. Each entry is in one stretch alone.
ghost use Rattle.std.specs.Prelude.{◌≡◌, ℕ, ◌*◌, ◌<◌, ◌≤◌, ◌++◌, All, IfOk, List, length};
ghost use Rattle.list_totals.specs.Totals.{times};
ghost use Rattle.search_machine.specs.Sound.{ListSound};
ghost use Rattle.search_task.specs.Questions.{ground_of, last_of};
ghost use Rattle.nearest_answer.specs.Listed.{AreStretches, entries_of};
ghost use Rattle.nearest_answer.specs.NearLeaves.{IsLeafEntry, leaves_in};

use crate::near_leaves::scan_entries;
use crate::tuning::ENTRIES_OF_STRETCH;
use outside::NoMemory;
use search_task::Search;
use series_core::{Entry, KBest, Rows};

/// How many stretches so many entries are. Want of memory where they are more than leaves can be.
pub(crate) fn stretches_of(entries: &[Entry]) -> Result<u32, NoMemory>
    ensures { IfOk result (λ count. AreStretches (length entries.now) count) }
{
    match u32::try_from(entries.len().div_ceil(ENTRIES_OF_STRETCH)) {
        Ok(count) => Ok(count),
        Err(_) => Err(NoMemory),
    }
}

/// Scans the leaves of the stretch of this number into a list.
pub(crate) fn scan_listed<R: Rows>(
    search: &Search<'_, R>,
    entries: &[Entry],
    number: usize,
    limit: u64,
    list: &mut KBest,
)
    requires number { number * 16 < length entries.now }
    requires limit { last_of search.now.question ≤ limit }
    requires leaves { All (IsLeafEntry (ground_of search.now)) entries.now }
    requires list { (list.old.k ≡ search.now.question.k) × (length list.old.pairs ≤ search.now.question.k) }
    ensures list { (list.new.k ≡ search.now.question.k) × (length list.new.pairs ≤ search.now.question.k) }
    ensures met { let g = ground_of search.now in let drawn = leaves_in (entries_of entries.now number) in (met : List ℕ)
        → ((l : ℕ) → times l (met ++ drawn) ≤ 1) → ListSound g met list.old.pairs → ListSound g (met ++ drawn) list.new.pairs }
{
    let first = number * ENTRIES_OF_STRETCH;
    let end = first + ENTRIES_OF_STRETCH.min(entries.len() - first);
    scan_entries(search, &entries[first..end], limit, list);
}
