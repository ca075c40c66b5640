//! What a search ends with in both of its forms.
ghost use Rattle.std.specs.Prelude.{◌≡◌, ◌≤◌, IfOk, length};
ghost use Rattle.series_core.specs.Answer.{answer};
ghost use Rattle.search_machine.specs.Basics.{start_of};
ghost use Rattle.search_machine.specs.Legal.{IsStraight, Legal};
ghost use Rattle.search_task.specs.Questions.{search_over};
ghost use Rattle.live_query.specs.Parts.{HaveDrained};

use crate::plan::Plan;
use outside::NoMemory;
use query_core::{LineList, Outcome, Start, Worker, conclude};
use search_limits::{MOST_QUEUES, MOST_WORKERS};
use series_core::Rows;
use std::alloc::Global;

/// The outcome of workers and lines that end right.
pub(crate) fn outcome_of<R: Rows>(
    alloc: Global,
    plan: &Plan<'_, R>,
    start: Option<Start>,
    ended: &[Worker<'_, R>],
    lines: LineList,
) -> Result<Outcome, NoMemory>
    requires few { (length ended.now ≤ MOST_WORKERS) × (length lines ≤ MOST_QUEUES) }
    requires drained { HaveDrained plan.now.search.question plan.now.search.index plan.now.queues ended.now lines }
    requires start { start ≡ start_of (search_over plan.now.search.question plan.now.search.index 1 1) }
    ensures legal { let g = search_over plan.now.search.question plan.now.search.index (length ended.now) plan.now.queues in
        IfOk result (λ o. Legal g o) }
    ensures straight { IfOk result IsStraight }
    ensures answer { let a = plan.now.search.question in IfOk result (λ o. o.pairs ≡ answer a.collection a.query a.k) }
{
    conclude(alloc, &plan.search, start, ended, lines)
}
