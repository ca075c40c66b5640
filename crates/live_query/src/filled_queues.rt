//! Queues between the parts of a search over locked queues: the leaves that the searchers put wait in them.
//! Each leaf is put once, whoever marked it, and before a lock is round its queue.
ghost use Rattle.std.specs.Prelude.{◌≡◌, ℕ, ◌<◌, ◌≤◌, All, IfOk, Some, length, slice_get, vec_len};
ghost use Rattle.leaf_queues.specs.PlainQueue.{PlainQueue};
ghost use Rattle.live_query.specs.FilledQueues.{AreFilled, IsFilledBy};

use crate::marked::marked_entries;
use crate::plan::Plan;
use crate::searcher::{Rested, Searcher};
use leaf_queues::Queue;
use outside::NoMemory;
use query_core::{Worker, empty_queues};
use search_limits::MOST_QUEUES;
use series_core::{Entry, Rows};
use std::alloc::Global;

/// A queue for each number below the count of queues, in which the leaves that some searcher put wait, each with its bound.
pub(crate) fn filled_queues<'a, R: Rows>(
    alloc: Global,
    plan: &Plan<'a, R>,
    team: &[Searcher<Worker<'a, R>, Rested>],
) -> Result<Vec<Queue>, NoMemory>
    requires over { All (λ c. (c.worker.question ≡ plan.now.search.question) × (c.worker.index ≡ plan.now.search.index)) team.now }
    requires queues { (1 ≤ plan.now.queues) × (plan.now.queues ≤ MOST_QUEUES) }
    ensures count { IfOk result (λ qs. length qs.items ≡ plan.now.queues) }
    ensures filled { let a = plan.now.search.question in
        IfOk result (λ qs. AreFilled a plan.now.search.index team.now plan.now.queues qs.items) }
{
    let entries = marked_entries(alloc, plan, team)?;
    let mut queues = empty_queues(alloc, plan.search.leaf_count(), plan.queues)?;
    put_all(&mut queues, &entries);
    Ok(queues)
}

// Puts each entry into the queue of its leaf.
fn put_all(queues: &mut Vec<Queue>, entries: &[Entry])
    requires some { 0 < vec_len queues.old }
    ensures len { vec_len queues.new ≡ vec_len queues.old }
    ensures filled { (j : ℕ) (q r : PlainQueue) → slice_get queues.old.items j ≡ Some q → slice_get queues.new.items j ≡ Some r
        → IsFilledBy (vec_len queues.old) j entries.now q r }
{
    let count = queues.len();
    for entry in entries {
        queues[entry.leaf as usize % count].put(*entry);
    }
}
