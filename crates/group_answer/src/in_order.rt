//! The answers to queries in their order: from what was found ahead, with those behind, or by one worker alone.
ghost use Rattle.std.specs.Prelude.{◌≡◌, ◌-◌, ◌<◌, ◌≤◌, IfOk, length, map, max};
ghost use Rattle.std.specs.List.{range_with_len};
ghost use Rattle.group_answer.specs.Asking.{AreAnswers, IsAsked, answer_to};
ghost use Rattle.group_answer.specs.declared.tuning.TheConstants.{GROUP};

use crate::asked::{Answered, Asked};
use crate::together::swept_together;
use crate::tuning::{GROUP, QUERIES_OF_LOOK};
use nearest_answer::one_worker_answer;
use outside::NoMemory;
use series_core::{PairList, Rows};
use std::alloc::Global;

/// The answers to the queries from `first` up to but not including `end`, in their order.
pub fn answers<R: Rows>(
    alloc: Global,
    asked: &Asked<'_, R>,
    first: u32,
    end: u32,
) -> Result<Vec<PairList>, NoMemory>
    requires asked { IsAsked R.collection asked.now }
    requires end { end ≤ length asked.now.queries.now.series }
    requires order { first ≤ end }
    ensures { IfOk result (λ all. all.items ≡ map (answer_to R.collection asked.now) (range_with_len first (end - first))) }
{
    let mut all = Vec::new(alloc);
    let mut ahead = Vec::new(alloc);
    for i in first..end {
        all.push(next_answer(alloc, asked, i, end, &mut ahead)?)?;
    }
    Ok(all)
}

/// The answer to query i. Where the last that was found ahead is that of this query, it is taken. Else, where nothing is ahead, i is a
/// multiple of 4 and a sample chooses the query, it is swept with others before query `end`, whose answers are then ahead; of all there
/// are at most 64. Else one worker finds it alone.
pub fn next_answer<R: Rows>(
    alloc: Global,
    asked: &Asked<'_, R>,
    i: u32,
    end: u32,
    ahead: &mut Vec<Answered>,
) -> Result<PairList, NoMemory>
    requires asked { IsAsked R.collection asked.now }
    requires below { i < end }
    requires end { end ≤ length asked.now.queries.now.series }
    requires ahead { AreAnswers R.collection asked.now ahead.old.items }
    ensures right { IfOk result (λ pairs. pairs ≡ answer_to R.collection asked.now i) }
    ensures ahead { AreAnswers R.collection asked.now ahead.new.items }
    ensures few { length ahead.new.items ≤ max (length ahead.old.items) GROUP }
{
    if ahead.is_empty() && i % QUERIES_OF_LOOK == 0 {
        *ahead = swept_together(alloc, asked, i, end.min(i.saturating_add(GROUP)))?;
    }
    if let Some(pairs) = asked.take(ahead, i) {
        return Ok(pairs);
    }
    one_worker_answer(alloc, &asked.task(i), asked.index)
}
