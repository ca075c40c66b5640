//! Sealing between the parts: the leaves that the searchers put become runs, one for each queue.
//! Each leaf is sealed once, whoever put it.
ghost use Rattle.std.specs.Prelude.{◌≡◌, ◌<◌, ◌≤◌, true, false, All, IfOk, length, replicate};
ghost use Rattle.sealed_runs.specs.Sealing.{fresh_visits};
ghost use Rattle.sealed_runs.specs.Visits.{IsPass};
ghost use Rattle.search_task.specs.Questions.{leaf_bound, view_in};
ghost use Rattle.live_query.specs.Marked.{IsMarked};
ghost use Rattle.live_query.specs.Parts.{AreEntriesOf, AreRunsOf, marks_of};

use crate::plan::Plan;
use crate::searcher::{Rested, Searcher};
use outside::NoMemory;
use query_core::Worker;
use sealed_runs::{RunPass, Runs};
use search_limits::{MOST_QUEUES, MOST_WORKERS};
use series_core::{Entry, Rows};
use std::alloc::Global;

/// Seals the leaves that some searcher put, each with its bound, with one pass of the runs for each searcher.
pub(crate) fn seal_marked<'a, R: Rows>(
    alloc: Global,
    plan: &Plan<'a, R>,
    team: &[Searcher<Worker<'a, R>, Rested>],
) -> Result<(Runs, Vec<RunPass>), NoMemory>
    requires queues { (1 ≤ plan.now.queues) × (plan.now.queues ≤ MOST_QUEUES) }
    requires over { All (λ c. (c.worker.question ≡ plan.now.search.question) × (c.worker.index ≡ plan.now.search.index)) team.now }
    requires team { (1 ≤ length team.now) × (length team.now ≤ MOST_WORKERS) }
    ensures count { IfOk result (λ r. length r.0.runs ≡ plan.now.queues) }
    ensures callers { IfOk result (λ r. r.0.callers ≡ length team.now) }
    ensures runs { let a = plan.now.search.question in
        IfOk result (λ r. AreRunsOf a plan.now.search.index team.now plan.now.queues r.0.runs) }
    ensures passes { IfOk result (λ r. r.1.items ≡ replicate (length team.now) (fresh_visits r.0.runs)) }
    ensures own { IfOk result (λ r. All (IsPass r.0.runs) r.1.items) }
{
    let entries = marked_entries(alloc, plan, team)?;
    Runs::seal(alloc, entries, plan.queues, team.len() as u32)
}

/// The entries of all leaves that some searcher put.
pub(crate) fn marked_entries<'a, R: Rows>(
    alloc: Global,
    plan: &Plan<'a, R>,
    team: &[Searcher<Worker<'a, R>, Rested>],
) -> Result<Vec<Entry>, NoMemory>
    requires over { All (λ c. (c.worker.question ≡ plan.now.search.question) × (c.worker.index ≡ plan.now.search.index)) team.now }
    ensures { IfOk result (λ es. AreEntriesOf plan.now.search.question plan.now.search.index team.now es.items) }
{
    let leaves = plan.search.leaf_count();
    let mut entries = Vec::with_capacity(alloc, leaves as usize)?;
    for leaf in 0..leaves {
        if was_put(team, leaf) {
            let bound = bound_in(plan, team, leaf);
            entries.push_reserved(Entry { bound, leaf });
        }
    }
    Ok(entries)
}

// The bound of a leaf: that of the worker in whose share it is.
fn bound_in<'a, R: Rows>(
    plan: &Plan<'a, R>,
    team: &[Searcher<Worker<'a, R>, Rested>],
    leaf: u32,
) -> u64
    requires over { All (λ c. (c.worker.question ≡ plan.now.search.question) × (c.worker.index ≡ plan.now.search.index)) team.now }
    requires leaf { leaf < length plan.now.search.index.leaves }
    ensures { result ≡ leaf_bound (view_in plan.now.search.question) plan.now.search.index leaf }
{
    for searcher in team {
        if let Some(bound) = searcher.worker.bound_of(leaf) {
            return bound;
        }
    }
    plan.search.word_bound(leaf)
}

// Whether some searcher put the leaf.
fn was_put<'a, R: Rows>(team: &[Searcher<Worker<'a, R>, Rested>], leaf: u32) -> bool
    ensures yes { result ≡ true → IsMarked (marks_of team.now) leaf }
    ensures no { result ≡ false → ¬ (IsMarked (marks_of team.now) leaf) }
{
    for searcher in team {
        if searcher.hand.has_put(leaf) {
            return true;
        }
    }
    false
}
