//! The answer by all rows in the order of their numbers, as they lie in memory: where bounds pass over few of them, nothing is faster.
ghost use Rattle.std.specs.Prelude.{◌≡◌, ◌≤◌, IfOk};
ghost use Rattle.series_core.specs.Answer.{answer};
ghost use Rattle.search_task.specs.Questions.{last_of};

use outside::NoMemory;
use search_task::{Search, most_to_add};
use series_core::{KBest, Rows};
use std::alloc::Global;

/// The list of the answer, by all rows. No index is looked at.
pub(crate) fn answer_by_rows<R: Rows>(
    alloc: Global,
    search: &Search<'_, R>,
    limit: u64,
) -> Result<KBest, NoMemory>
    requires limit { last_of search.now.question ≤ limit }
    ensures { let a = search.now.question in IfOk result (λ best. best.pairs ≡ answer a.collection a.query a.k) }
{
    let task = search.task();
    let mut list = KBest::new(alloc, task.k())?;
    let mut most = most_to_add(limit, &list);
    for number in 0..task.count() {
        most = task.measure(number, limit, most, &mut list);
    }
    Ok(list)
}
