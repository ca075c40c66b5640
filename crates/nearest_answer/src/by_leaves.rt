//! The answer by the leaves that are near: those of least bound are scanned first, which tells a closer limit, and then the others in the
//! order of their numbers. The list that the first gave is handed on; but where k is small and many leaves are left, these are listed
//! anew by the closer limit.
ghost use Rattle.std.specs.Prelude.{◌≡◌, ◌≤◌, ◌++◌, IfOk, IsPermutation, length};
ghost use Rattle.list_totals.specs.Totals.{once_below};
ghost use Rattle.series_core.specs.Answer.{answer};
ghost use Rattle.search_task.specs.Questions.{ground_of, last_of};
ghost use Rattle.nearest_answer.specs.Begun.{IsBegun, IsLeft};
ghost use Rattle.nearest_answer.specs.NearLeaves.{AreNear, within_bound};

use crate::all_rows::answer_by_rows;
use crate::begun::Begun;
use crate::near_leaves::{near_leaves, scan_entries};
use crate::sweep::answer_by_codes;
use crate::telling::{ApartBy, what_tells};
use crate::tuning::{
    CLOSEST_LEAVES, CLOSEST_MEMBERS, CLOSEST_MEMBERS_EACH, MOST_RANKS_BY_SAMPLE,
    MOST_SORTED_ENTRIES,
};
use outside::NoMemory;
use search_task::{Search, distance_of_worst};
use series_core::{Entry, KBest, NONE, Rows};
use std::alloc::Global;

/// In which order leaves are scanned.
#[derive(Clone, Copy)]
enum Order {
    /// That of their bounds, which tells a closer limit soon.
    Bounds,
    /// That of their numbers, as they lie in memory.
    Numbers,
}

/// The list of the answer, by the leaves that may have a member within the limit, or where the closer limit shows that means tell
/// too little, by the codes of all members' rows or by these themselves.
pub(crate) fn nearest_by_leaves<R: Rows>(
    alloc: Global,
    search: &Search<'_, R>,
    first: u64,
) -> Result<KBest, NoMemory>
    requires limit { last_of search.now.question ≤ first }
    ensures { let a = search.now.question in IfOk result (λ best. best.pairs ≡ answer a.collection a.query a.k) }
{
    let begun = begin_by_leaves(alloc, search, first)?;
    if begun.left.is_empty() {
        return Ok(finish(search, begun));
    }
    match what_tells(search, begun.limit) {
        ApartBy::Means => finish_in_order(alloc, search, begun),
        ApartBy::Codes => {
            let empty = KBest::new(alloc, search.k())?;
            Ok(answer_by_codes(search, begun.limit, empty))
        }
        ApartBy::Nothing => answer_by_rows(alloc, search, begun.limit),
    }
}

/// The leaves that may have a member within the limit are listed, and those of least bound scanned for a closer one.
pub(crate) fn begin_by_leaves<R: Rows>(
    alloc: Global,
    search: &Search<'_, R>,
    first: u64,
) -> Result<Begun, NoMemory>
    requires limit { last_of search.now.question ≤ first }
    ensures { IfOk result (λ b. IsBegun search.now b) }
{
    let listed = all_near(alloc, search, first)?;
    let Begun {
        mut list,
        limit,
        mut left,
    } = listed;
    let (closest, others) = split_closest(alloc, left.as_mut_slice(), closest_count(search))?;
    scan_entries(search, &closest, limit, &mut list);
    narrowed(alloc, search, list, limit, others)
}

/// The leaves that are left within a first limit: all of them, or where there is no such limit, those that the closest leave.
pub(crate) fn left_by_first<R: Rows>(
    alloc: Global,
    search: &Search<'_, R>,
    first: u64,
) -> Result<Begun, NoMemory>
    requires limit { last_of search.now.question ≤ first }
    ensures { IfOk result (λ b. IsBegun search.now b) }
{
    if first < NONE {
        return all_near(alloc, search, first);
    }
    begin_by_leaves(alloc, search, first)
}

// Before any leaf is met: those that may have a member within the limit are left.
fn all_near<R: Rows>(alloc: Global, search: &Search<'_, R>, limit: u64) -> Result<Begun, NoMemory>
    requires limit { last_of search.now.question ≤ limit }
    ensures { IfOk result (λ b. IsBegun search.now b) }
{
    let left = near_leaves(alloc, search, limit)?;
    let list = KBest::new(alloc, search.k())?;
    Ok(Begun { list, limit, left })
}

/// The list of the answer, from what is left.
pub(crate) fn finish_in_order<R: Rows>(
    alloc: Global,
    search: &Search<'_, R>,
    begun: Begun,
) -> Result<KBest, NoMemory>
    requires begun { IsBegun search.now begun }
    ensures { let a = search.now.question in IfOk result (λ best. best.pairs ≡ answer a.collection a.query a.k) }
{
    if begun.left.len() > MOST_SORTED_ENTRIES && search.k() <= MOST_RANKS_BY_SAMPLE {
        let again = all_near(alloc, search, begun.limit)?;
        return Ok(finish(search, again));
    }
    let Begun { list, limit, left } = begun;
    let left = ordered(left, Order::Numbers);
    Ok(finish(search, Begun { list, limit, left }))
}

// The list of the answer, from what is left, in the order in which it is.
fn finish<R: Rows>(search: &Search<'_, R>, mut begun: Begun) -> KBest
    requires begun { IsBegun search.now begun }
    ensures { let a = search.now.question in result.pairs ≡ answer a.collection a.query a.k }
{
    // for the fact that the index can be searched for the question
    let _k = search.k();
    scan_entries(search, &begun.left, begun.limit, &mut begun.list);
    begun.list
}

// How many leaves of least bound are scanned for a closer limit.
fn closest_count<R: Rows>(search: &Search<'_, R>) -> usize {
    let leaves = u64::from(search.index().leaf_count());
    let count = u64::from(search.task().count()).max(1);
    let members = CLOSEST_MEMBERS.max(CLOSEST_MEMBERS_EACH * u64::from(search.k()));
    (members * leaves / count).max(CLOSEST_LEAVES) as usize
}

/// So many entries of least bound and one, in the order of their bounds, and the others; all of them and none where there are no more.
pub(crate) fn split_closest<'a>(
    alloc: Global,
    entries: &'a mut [Entry],
    count: usize,
) -> Result<(Vec<Entry>, &'a [Entry]), NoMemory>
    ensures { IfOk result (λ r. IsPermutation entries.old (r.0.items ++ r.1.now)) }
{
    if entries.len() <= count {
        return Ok((ordered(entries.to_vec(alloc)?, Order::Bounds), &[]));
    }
    let (closest, next, others) = entries.select_nth_unstable_by_key(count, |entry| entry.bound);
    let mut first = closest.to_vec(alloc)?;
    first.push(*next)?;
    Ok((ordered(first, Order::Bounds), others))
}

/// A search with this list and limit, and these leaves left: the limit falls to the k-th pair of the list, and what is beyond it is left
/// no more.
pub(crate) fn narrowed<R: Rows>(
    alloc: Global,
    search: &Search<'_, R>,
    list: KBest,
    limit: u64,
    left: &[Entry],
) -> Result<Begun, NoMemory>
    requires left { IsLeft search.now limit list left.now }
    ensures { IfOk result (λ b. IsBegun search.now b) }
{
    // for the fact that the index can be searched for the question
    let _k = search.k();
    let closer = distance_of_worst(&list).min(limit);
    let within = within_bound(alloc, left, closer)?;
    Ok(Begun {
        list,
        limit: closer,
        left: within,
    })
}

// The entries whose bound is not above the limit.
fn within_bound(alloc: Global, entries: &[Entry], limit: u64) -> Result<Vec<Entry>, NoMemory>
    ensures { IfOk result (λ es. es.items ≡ within_bound limit entries.now) }
{
    let mut within = Vec::new(alloc);
    for entry in entries {
        if entry.bound <= limit {
            within.push(*entry)?;
        }
    }
    Ok(within)
}

// The entries in an order.
fn ordered(mut entries: Vec<Entry>, order: Order) -> Vec<Entry>
    ensures { IsPermutation entries.items result.items }
{
    match order {
        Order::Bounds => entries.sort_unstable_by_key(|entry| entry.bound),
        Order::Numbers => entries.sort_unstable_by_key(|entry| entry.leaf),
    }
    entries
}
