//! The choice of the way: what tells members apart by a first limit. A wrong choice costs time, and never changes what is found.
ghost use Rattle.std.specs.Prelude.{◌≤◌, IfOk};
ghost use Rattle.search_task.specs.Questions.{last_of};

use crate::limits::{first_limit, limit_and_guess};
use crate::telling::{ApartBy, means_tell_little, what_tells};
use crate::tuning::{
    CLOSER_MEMBERS, CLOSER_MEMBERS_EACH, CLOSER_PART, FIRST_MEMBERS, MOST_RANKS_BY_SAMPLE,
};
use outside::NoMemory;
use search_task::Search;
use series_core::Rows;
use std::alloc::Global;

/// What tells members apart, and a first limit: by leaves where means tell series apart, else by the codes of all rows, and else
/// by all rows themselves.
pub(crate) fn first_way<R: Rows>(
    alloc: Global,
    search: &Search<'_, R>,
) -> Result<(ApartBy, u64), NoMemory>
    ensures limit { IfOk result (λ r. last_of search.now.question ≤ r.1) }
{
    if search.k() > MOST_RANKS_BY_SAMPLE {
        return way_for_many(alloc, search);
    }
    let first = first_limit(alloc, search, FIRST_MEMBERS)?;
    if means_tell_little(search, first) {
        return way_by_sample(alloc, search);
    }
    Ok((ApartBy::Means, first))
}

// The way for a great k. Where nothing tells members apart even by a limit that is too close for the k-th, all rows are read; else the
// leaves within a first limit are listed, and the closest of them tell a closer one.
fn way_for_many<R: Rows>(alloc: Global, search: &Search<'_, R>) -> Result<(ApartBy, u64), NoMemory>
    ensures limit { IfOk result (λ r. last_of search.now.question ≤ r.1) }
{
    let (wide, guess) = limit_and_guess(alloc, search)?;
    match what_tells(search, guess) {
        ApartBy::Nothing => Ok((ApartBy::Nothing, wide)),
        ApartBy::Means | ApartBy::Codes => Ok((ApartBy::Means, wide)),
    }
}

// The way where means may tell too little. The first limit may be too wide, so a closer one decides it, less a quarter: the last
// distance lies below that of a few members, and no list of all leaves is made to learn it. Where nothing tells most of them apart by this
// limit, but means tell half, the leaves of least bound give a closer one before all rows are read.
fn way_by_sample<R: Rows>(alloc: Global, search: &Search<'_, R>) -> Result<(ApartBy, u64), NoMemory>
    ensures limit { IfOk result (λ r. last_of search.now.question ≤ r.1) }
{
    let members = CLOSER_MEMBERS.max(CLOSER_MEMBERS_EACH * search.k() as usize);
    let close = first_limit(alloc, search, members)?;
    let guess = close - close / CLOSER_PART;
    match what_tells(search, guess) {
        ApartBy::Nothing if !means_tell_little(search, guess) => Ok((ApartBy::Means, close)),
        by => Ok((by, close)),
    }
}
