//! What a search for the answer alone learns before it begins: a limit that is not below the last distance.
ghost use Rattle.std.specs.Prelude.{◌≡◌, ◌-◌, ◌≤◌, IfOk};
ghost use Rattle.series_core.specs.Order.{distance_at};
ghost use Rattle.search_task.specs.Questions.{last_of};

use crate::first_leaf::first_leaf;
use crate::tuning::{FIRST_MEMBERS, GUESSED_PLACE, MOST_RANKS_OF_NEXT_LEAVES};
use outside::NoMemory;
use search_task::{Search, distance_of_worst};
use series_core::{KBest, NONE, Rows};
use std::alloc::Global;

/// A limit that is not below the last distance: that of the k-th pair of the first leaf's members, and where these are fewer
/// than k or than `least`, of those of the next leaves too; `NONE` where k is above 256 or all members are fewer than k.
pub fn first_limit<R: Rows>(
    alloc: Global,
    search: &Search<'_, R>,
    least: usize,
) -> Result<u64, NoMemory>
    ensures limit { IfOk result (λ v. last_of search.now.question ≤ v) }
{
    if search.k() > MOST_RANKS_OF_NEXT_LEAVES {
        return Ok(NONE);
    }
    let list = first_members(alloc, search, least)?;
    Ok(distance_of_worst(&list))
}

/// The same limit, and a guess beside it: the distance of the tenth of the members that gave the limit, or else of some 128 members. The
/// k-th of all is mostly farther where k is great. The guess is `NONE` where members are fewer than ten.
pub(crate) fn limit_and_guess<R: Rows>(
    alloc: Global,
    search: &Search<'_, R>,
) -> Result<(u64, u64), NoMemory>
    ensures limit { IfOk result (λ r. last_of search.now.question ≤ r.0) }
{
    let list = first_members(alloc, search, FIRST_MEMBERS)?;
    let guess = match list.pairs().get(GUESSED_PLACE) {
        Some(pair) => pair.distance,
        None => NONE,
    };
    Ok((distance_of_worst(&list), guess))
}

// The list of the first leaf's members and, where these are fewer than `least`, of those of the next leaves; and up to k = 256 of as
// many leaves as give k pairs.
fn first_members<R: Rows>(
    alloc: Global,
    search: &Search<'_, R>,
    least: usize,
) -> Result<KBest, NoMemory>
    ensures k { IfOk result (λ list. list.k ≡ search.now.question.k) }
    ensures limit { IfOk result (λ list. last_of search.now.question ≤ distance_at (list.k - 1) list.pairs) }
{
    let k = search.k();
    let mut list = KBest::new(alloc, k)?;
    let Some(first) = first_leaf(search) else {
        return Ok(list);
    };
    let mut members = 0usize;
    for leaf in first..search.leaf_count() {
        if members >= least && (k > MOST_RANKS_OF_NEXT_LEAVES || list.worst().is_some()) {
            break;
        }
        members = members.saturating_add(search.leaf_size(leaf));
        search.scan_leaf(leaf, NONE, &mut list);
    }
    Ok(list)
}
