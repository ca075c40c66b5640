//! The drain part without locks: what was put is sealed into runs, the searchers take the leaves, and the runs are closed.
ghost use Rattle.std.specs.Prelude.{◌≡◌, ◌≤◌, All, IfOk, List, length, map, vec_len};
ghost use Rattle.sealed_runs.specs.Entries.{Run};
ghost use Rattle.sealed_runs.specs.Visits.{IsPass};
ghost use Rattle.live_query.specs.Parts.{AllFilled, AreEquipped, HaveDrained};
ghost use Rattle.live_query.specs.SealedQueues.{IsFresh, IsFreshPass};

use crate::drain_hand::DrainHand;
use crate::draining::{Draining, drain_together};
use crate::lines::lines;
use crate::marked::seal_marked;
use crate::plan::Plan;
use crate::sealed_queues::SealedQueues;
use crate::searcher::{Rested, Searcher};
use best_word::BestWord;
use outside::{Gate, NoMemory};
use query_core::{LineList, Worker};
use sealed_runs::{RunPass, Runs};
use search_limits::{MOST_QUEUES, MOST_WORKERS};
use series_core::Rows;
use std::alloc::Global;
use std::thread::Threads;

/// Lets all searchers that have filled drain side by side: the workers as they end, and the line of each queue.
pub(crate) fn drain_part<'a, T: Threads + Sync, R: Rows + Sync, G: Gate + Sync>(
    rt: &T,
    alloc: Global,
    gate: &G,
    plan: &Plan<'a, R>,
    word: &BestWord,
    team: Vec<Searcher<Worker<'a, R>, Rested>>,
) -> Result<(Vec<Worker<'a, R>>, LineList), NoMemory>
    requires queues { (1 ≤ plan.now.queues) × (plan.now.queues ≤ MOST_QUEUES) }
    requires team { (1 ≤ length team.items) × (length team.items ≤ MOST_WORKERS) }
    requires filled { AllFilled plan.now.search.question plan.now.search.index plan.now.queues word.now team.items }
    ensures sizes { IfOk result (λ r. (length r.0.items ≡ length team.entry.items) × (length r.1 ≡ plan.now.queues)) }
    ensures drained { IfOk result (λ r.
        HaveDrained plan.now.search.question plan.now.search.index plan.now.queues r.0.items r.1) }
{
    let (runs, passes) = seal_marked(alloc, plan, &team)?;
    let roots = u64::from(plan.search.root_count());
    let mut team = equip(alloc, plan.queues, roots, word, &runs, team, passes)?;
    drain_together(rt, gate, &mut team);
    let (workers, passes) = dismiss(alloc, team)?;
    let lines = lines(alloc, &runs.close(passes), plan.queues)?;
    Ok((workers, lines))
}

// Gives each searcher its hand of the drain part, with a fresh pass of the runs.
fn equip<'a, 'b, R: Rows>(
    alloc: Global,
    count: u32,
    roots: u64,
    word: &'b BestWord,
    runs: &'b Runs,
    team: Vec<Searcher<Worker<'a, R>, Rested>>,
    mut passes: Vec<RunPass>,
) -> Result<Vec<Draining<'a, 'b, R>>, NoMemory>
    requires runs { count ≡ length runs.now.runs }
    requires word { All (λ c. c.hand.seen.best ≡ word.now) team.items }
    requires passes { All (IsFreshPass runs.now.runs) passes.items }
    requires count { vec_len passes ≡ vec_len team }
    ensures { IfOk result (λ ready. AreEquipped (IsFresh runs.now.runs) roots team.entry.items ready.items) }
{
    let mut ready = Vec::with_capacity(alloc, team.len())?;
    for searcher in team {
        let Some(pass) = passes.pop() else {
            unreachable!()
        };
        let (hand, rest) = searcher.let_go();
        let Rested { seen, .. } = hand;
        let queues = SealedQueues::new(runs, pass, count);
        ready.push_reserved(rest.take(DrainHand::new(word, seen, roots, queues)));
    }
    Ok(ready)
}

// The workers, and their passes of the runs.
fn dismiss<'a, 'b, R: Rows>(
    alloc: Global,
    team: Vec<Draining<'a, 'b, R>>,
) -> Result<(Vec<Worker<'a, R>>, Vec<RunPass>), NoMemory>
    ensures workers { IfOk result (λ r. r.0.items ≡ map (λ c. c.worker) team.entry.items) }
    ensures passes { IfOk result (λ r. r.1.items ≡ map (λ c. c.hand.queues.visits) team.entry.items) }
    ensures own { (runs : List Run) → All (λ c. c.hand.queues.runs ≡ runs) team.entry.items
        → IfOk result (λ r. All (IsPass runs) r.1.items) }
{
    let mut workers = Vec::with_capacity(alloc, team.len())?;
    let mut passes = Vec::with_capacity(alloc, team.len())?;
    for searcher in team {
        let Searcher { worker, hand, .. } = searcher;
        workers.push_reserved(worker);
        passes.push_reserved(hand.into_queues().into_pass());
    }
    Ok((workers, passes))
}
