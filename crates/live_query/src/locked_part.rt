//! The drain part over locked queues: the leaves that were put wait in queues, the searchers take them, each queue under a lock of
//! its own, and the locks are closed. No lock outlives the part, so that the queues come back with all that was taken from them.
ghost use Rattle.std.specs.Prelude.{◌≡◌, ◌≤◌, IfOk, length};
ghost use Rattle.live_query.specs.Parts.{AllFilled, HaveDrained};

use crate::filled_queues::filled_queues;
use crate::lines::queue_lines;
use crate::locked_team::{dismiss, equip};
use crate::locking::drain_locked;
use crate::locks::{begin_locks, close_locks};
use crate::plan::Plan;
use crate::searcher::{Rested, Searcher};
use best_word::BestWord;
use outside::{Gate, NoMemory};
use query_core::{LineList, Worker};
use search_limits::{MOST_QUEUES, MOST_WORKERS};
use series_core::Rows;
use std::alloc::Global;
use std::sync::Wait;
use std::thread::Threads;

/// Lets all searchers that have filled drain side by side: the workers as they end, and the line of each queue.
pub(crate) fn locked_part<'a, T: Threads + Wait + Sync, R: Rows + Sync, G: Gate + Sync>(
    rt: &T,
    alloc: Global,
    gate: &G,
    plan: &Plan<'a, R>,
    word: &BestWord,
    team: Vec<Searcher<Worker<'a, R>, Rested>>,
) -> Result<(Vec<Worker<'a, R>>, LineList), NoMemory>
    requires queues { (1 ≤ plan.now.queues) × (plan.now.queues ≤ MOST_QUEUES) }
    requires team { (1 ≤ length team.items) × (length team.items ≤ MOST_WORKERS) }
    requires filled { AllFilled plan.now.search.question plan.now.search.index plan.now.queues word.now team.items }
    ensures sizes { IfOk result (λ r. (length r.0.items ≡ length team.entry.items) × (length r.1 ≡ plan.now.queues)) }
    ensures drained { IfOk result (λ r.
        HaveDrained plan.now.search.question plan.now.search.index plan.now.queues r.0.items r.1) }
{
    let queues = filled_queues(alloc, plan, &team)?;
    let (locks, rows) = begin_locks(alloc, queues, team.len() as u32)?;
    let roots = u64::from(plan.search.root_count());
    let mut team = equip(rt, alloc, word, roots, locks.as_slice(), team, rows)?;
    drain_locked(rt, gate, &mut team);
    let (workers, rows) = dismiss(alloc, team)?;
    let queues = close_locks(alloc, locks, rows)?;
    let lines = queue_lines(alloc, &queues)?;
    Ok((workers, lines))
}
