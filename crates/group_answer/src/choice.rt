//! The choice: whether a query is swept with others, as a sample of leaves shows it. A wrong choice costs time, and never changes what is
//! found.
ghost use Rattle.std.specs.Prelude.{◌<◌, ◌≤◌, IfOk, IfSome, IsSome, length};
ghost use Rattle.search_task.specs.Questions.{last_of, leaf_series};

use crate::tuning::{
    CLOSER_MEMBERS, CLOSER_PART, FIRST_MEMBERS, LEAST_VALUES, MOST_RANKS, SAMPLE_LEAVES,
    SAMPLE_MEMBERS, SHARE_BY_TREE, SHARE_OF, SHARE_TO_SWEEP,
};
use nearest_answer::first_limit;
use outside::NoMemory;
use row_codes::CodeLimit;
use search_task::Search;
use series_core::Rows;
use std::alloc::Global;

/// What is asked of a member of the sample.
#[derive(Clone, Copy)]
enum Test {
    /// Whether its means leave it near.
    Means,
    /// Whether the codes of its row do.
    Codes,
}

/// A limit with which a query is swept, not below its last distance; none where means tell most rows apart, so that the tree serves it,
/// or where codes do not, so that all rows are read, or the index has none.
pub(crate) fn limit_to_sweep<R: Rows>(
    alloc: Global,
    search: &Search<'_, R>,
) -> Result<Option<u64>, NoMemory>
    ensures limit { IfOk result (λ r. IfSome r (λ v. last_of search.now.question ≤ v)) }
    ensures coded { IfOk result (λ r. IfSome r (λ _. IsSome search.now.index.codes)) }
{
    if search.index().has_codes() {
        limit_by_codes(alloc, search)
    } else {
        Ok(None)
    }
}

// The same where the index has codes.
fn limit_by_codes<R: Rows>(alloc: Global, search: &Search<'_, R>) -> Result<Option<u64>, NoMemory>
    ensures { IfOk result (λ r. IfSome r (λ v. last_of search.now.question ≤ v)) }
{
    if search.k() > MOST_RANKS || search.task().row_length() < LEAST_VALUES {
        return Ok(None);
    }
    let first = first_limit(alloc, search, FIRST_MEMBERS)?;
    if are_few(search, Test::Means, first, 1, SHARE_BY_TREE) {
        return Ok(None);
    }
    let closer = first_limit(alloc, search, CLOSER_MEMBERS)?;
    let likely = closer - closer / CLOSER_PART;
    if are_few(search, Test::Codes, likely, SAMPLE_MEMBERS, SHARE_TO_SWEEP) {
        return Ok(Some(closer));
    }
    Ok(None)
}

// Whether a test leaves near at most this share of the members of the sample, which has so many members of each of its leaves.
fn are_few<R: Rows>(
    search: &Search<'_, R>,
    test: Test,
    limit: u64,
    each: usize,
    share: u64,
) -> bool {
    let leaves = search.leaf_count();
    let most = CodeLimit::new(limit);
    let step = leaves / SAMPLE_LEAVES + 1;
    let (mut members, mut near) = (0u64, 0u64);
    for i in 0..SAMPLE_LEAVES {
        let leaf = i * step;
        if leaf >= leaves {
            break;
        }
        for place in 0..each.min(search.leaf_size(leaf)) {
            members = members.wrapping_add(1);
            near = near.wrapping_add(u64::from(is_near(search, test, leaf, place, &most)));
        }
    }
    near.saturating_mul(SHARE_OF) <= members.saturating_mul(share)
}

// Whether a test leaves the member at a place of a leaf near. Of a member without means its own full word tells.
fn is_near<R: Rows>(
    search: &Search<'_, R>,
    test: Test,
    leaf: u32,
    place: usize,
    limit: &CodeLimit,
) -> bool
    requires leaf { leaf < length search.now.index.leaves }
    requires place { place < length (leaf_series search.now.index leaf) }
{
    let index = search.index();
    match test {
        Test::Means => match index.leaf_means(leaf).get(place) {
            Some(means) => search.task().means().bound(means) <= limit.limit(),
            None => {
                let member = &index.leaf_members(leaf)[place];
                search.view().bound_full(&member.full) <= limit.limit()
            }
        },
        Test::Codes => search.codes_may_be_within(leaf, place, limit),
    }
}
