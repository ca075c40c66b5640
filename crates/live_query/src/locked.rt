//! The search over locked queues, as MESSI has it: in the drain part a queue is a list of leaves under a lock of its own, for which
//! a worker may wait. The leaves are put before the locks are there, so that no put comes between pops.
ghost use Rattle.std.specs.Prelude.{◌≡◌, ◌≤◌, IfOk};
ghost use Rattle.series_core.specs.Answer.{answer};
ghost use Rattle.subtree_build.specs.Fits.{Fits as IndexFits};
ghost use Rattle.search_machine.specs.Legal.{Legal, IsStraight};
ghost use Rattle.search_task.specs.Questions.{search_over};

use crate::concluding::outcome_of;
use crate::fill_part::fill_part;
use crate::locked_part::locked_part;
use crate::opening::{Opened, open};
use crate::plan::Plan;
use crate::portions::begin_limits;
use outside::{Gate, NoMemory};
use query_core::{Outcome, Search, Task};
use search_limits::{MOST_QUEUES, MOST_WORKERS};
use series_core::Rows;
use std::alloc::Global;
use std::sync::Wait;
use std::thread::Threads;
use subtree_build::Index;

/// The search for the answer by 1 to 64 workers over 1 to 64 locked queues, each worker in a thread of its own; a worker alone
/// starts none. Whatever the order of their steps, the outcome is legal and straight, and its pairs are the answer: the k
/// nearest rows. It may wait for a lock, and says this where it returns; want of memory is its one refusal, and no memory is
/// taken under a lock. Before each turn comes `gate.pass(worker, turn)`, with turns counted from 0 over both parts.
pub fn nearest<T: Threads + Wait + Sync, R: Rows + Sync, G: Gate + Sync>(
    rt: &T,
    alloc: Global,
    task: &Task<'_, R>,
    index: &Index,
    workers: u32,
    queues: u32,
    gate: &G,
) -> Result<Outcome, NoMemory>
    requires fits { IndexFits task.now.collection task.now.layout index.now }
    requires workers { (1 ≤ workers) × (workers ≤ MOST_WORKERS) }
    requires queues { (1 ≤ queues) × (queues ≤ MOST_QUEUES) }
    ensures legal { IfOk result (λ o. Legal (search_over task.now index.now workers queues) o) }
    ensures straight { IfOk result IsStraight }
    ensures answer { IfOk result (λ o. o.pairs ≡ answer task.now.collection task.now.query task.now.k) }
{
    let search = Search::new(task, index);
    let plan = Plan { search, queues };
    let (limits, passes) = begin_limits(alloc, &plan, workers)?;
    let opened = open(alloc, &plan, workers, &limits, passes)?;
    let Opened {
        start,
        word,
        claims,
        team,
    } = opened;
    let filled = fill_part(rt, alloc, gate, &plan, claims, &word, team)?;
    let (ended, lines) = locked_part(rt, alloc, gate, &plan, &word, filled)?;
    outcome_of(alloc, &plan, start, &ended, lines)
}
