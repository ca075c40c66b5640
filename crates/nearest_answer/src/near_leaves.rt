//! The leaves that may have a member within a limit, each with its bound, and how they are scanned.
//! In which order they are scanned changes how many are passed over, and never what is found.
ghost use Rattle.std.specs.Prelude.{◌≡◌, ℕ, ◌+◌, ◌*◌, ◌<◌, ◌≤◌, ◌++◌, ◌∷◌, List, [], IfOk, length};
ghost use Rattle.std.specs.List.{All};
ghost use Rattle.list_totals.specs.Totals.{once_below, times};
ghost use Rattle.search_machine.specs.Sound.{ListSound};
ghost use Rattle.search_task.specs.Questions.{ground_of, last_of};
ghost use Rattle.nearest_answer.specs.NearLeaves.{AreNear, AreNearBelow, IsLeafEntry, leaves_in};

use outside::NoMemory;
use search_task::{Search, distance_of_worst};
use series_core::{Entry, KBest, Rows};
use std::alloc::Global;
use subtree_build::{GROUP, WIDE_GROUP};

/// Scans the leaves of these entries into a list. One whose bound is above the limit or the k-th pair so far is passed over: it has
/// nothing that the list would keep at the end.
pub(crate) fn scan_entries<R: Rows>(
    search: &Search<'_, R>,
    entries: &[Entry],
    limit: u64,
    list: &mut KBest,
)
    requires limit { last_of search.now.question ≤ limit }
    requires leaves { All (IsLeafEntry (ground_of search.now)) entries.now }
    requires list { (list.old.k ≡ search.now.question.k) × (length list.old.pairs ≤ search.now.question.k) }
    ensures list { (list.new.k ≡ search.now.question.k) × (length list.new.pairs ≤ search.now.question.k) }
    ensures met { let g = ground_of search.now in (met : List ℕ)
        → ((l : ℕ) → times l (met ++ leaves_in entries.now) ≤ 1) → ListSound g met list.old.pairs
        → ListSound g (met ++ leaves_in entries.now) list.new.pairs }
{
    for entry in entries {
        scan_entry(search, entry, limit, list);
    }
}

/// Scans the leaf of an entry where the entry's bound is above neither the limit nor the k-th pair so far.
pub(crate) fn scan_entry<R: Rows>(
    search: &Search<'_, R>,
    entry: &Entry,
    limit: u64,
    list: &mut KBest,
)
    requires limit { last_of search.now.question ≤ limit }
    requires entry { IsLeafEntry (ground_of search.now) entry.now }
    requires k { list.old.k ≡ search.now.question.k }
    ensures k { list.new.k ≡ search.now.question.k }
    ensures size { length list.old.pairs ≤ search.now.question.k → length list.new.pairs ≤ search.now.question.k }
    ensures met { let g = ground_of search.now in (met : List ℕ) → times entry.now.leaf met ≡ 0
        → ListSound g met list.old.pairs → ListSound g (met ++ entry.now.leaf ∷ []) list.new.pairs }
{
    // for the fact that the index can be searched for the question
    let _k = search.k();
    if entry.bound > distance_of_worst(list).min(limit) {
        return;
    }
    search.scan_leaf(entry.leaf, limit, list);
}

/// The leaves that may have a member within the limit, each once. A group of leaves whose box is too far is passed over, and so
/// are all groups of a wide one.
pub(crate) fn near_leaves<R: Rows>(
    alloc: Global,
    search: &Search<'_, R>,
    limit: u64,
) -> Result<Vec<Entry>, NoMemory>
    ensures { let g = ground_of search.now in
        IfOk result (λ es. AreNear g limit (λ l. once_below l (length search.now.index.leaves)) es.items) }
{
    let mut entries = Vec::new(alloc);
    let leaves = search.leaf_count();
    let groups = leaves.div_ceil(GROUP);
    for wide in 0..leaves.div_ceil(WIDE_GROUP) {
        if search.wide_group_bound(wide) > limit {
            continue;
        }
        let first = wide * (WIDE_GROUP / GROUP);
        let end = first + (WIDE_GROUP / GROUP).min(groups - first);
        for group in first..end {
            add_group(search, group, limit, &mut entries)?;
        }
    }
    Ok(entries)
}

// Looks at the leaves of a group, where all before it were looked at.
fn add_group<R: Rows>(
    search: &Search<'_, R>,
    group: u32,
    limit: u64,
    entries: &mut Vec<Entry>,
) -> Result<(), NoMemory>
    requires group { group * 16 < length search.now.index.leaves }
    ensures { let g = ground_of search.now in AreNearBelow g limit (group * 16) entries.old.items
        → IfOk result (λ _. AreNearBelow g limit (group * 16 + 16) entries.new.items) }
{
    let leaves = search.leaf_count();
    if search.group_bound(group) > limit {
        return Ok(());
    }
    let first = group * GROUP;
    let end = first + GROUP.min(leaves - first);
    for leaf in first..end {
        let bound = search.leaf_bound(leaf);
        if bound > limit {
            continue;
        }
        entries.push(Entry { bound, leaf })?;
    }
    Ok(())
}
