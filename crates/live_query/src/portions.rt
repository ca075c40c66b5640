//! The limits of portions, of which each worker has a pass: a word for each queue. A portion's last distance is a number of the collection
//! and the index alone, so that no word has to know who scans which leaf.
ghost use Rattle.std.specs.Prelude.{◌≡◌, ℕ, suc, ◌<◌, ◌≤◌, IfOk, List, Some, slice_get, vec_len};
ghost use Rattle.best_word.specs.Passes.{Best};
ghost use Rattle.search_machine.specs.Ground.{Ground};
ghost use Rattle.query_core.specs.Portions.{portion_last};
ghost use Rattle.search_task.specs.Questions.{search_over};
ghost use Rattle.live_query.specs.PortionRows.{AreRows, AreTaken, PassRow};
ghost use Rattle.query_core.specs.Teams.{AreHired};

use crate::plan::Plan;
use best_word::{BestWord, Floor, WordPass};
use outside::NoMemory;
use query_core::{Limits, Worker};
use search_limits::{MOST_QUEUES, MOST_WORKERS};
use series_core::{NONE, Rows};
use std::alloc::Global;

/// The leaves of one queue; the start leaf is among those of queue 0.
#[derive(Drop)]
struct Portion<'b, 'a, R: Rows> {
    plan: &'b Plan<'a, R>,
    number: u32,
}

/// How far the pair of the portion reaches that is wanted of it: no limit of the portion falls below it.
impl<'b, 'a, R: Rows> Floor for Portion<'b, 'a, R> {
    ghost floor = { λ p.
        portion_last (search_over p.plan.now.search.question p.plan.now.search.index 1 p.plan.now.queues) p.number };
}

/// The words of the limits, and for each word a row of passes, one for each worker. There are none over one queue, since its limit would be
/// the best-so-far, and none where some queue is no worker's first, since no worker would lower the limit of that queue.
pub(crate) fn begin_limits<'a, R: Rows>(
    alloc: Global,
    plan: &Plan<'a, R>,
    workers: u32,
) -> Result<(Vec<BestWord>, Vec<Vec<WordPass>>), NoMemory>
    requires workers { (1 ≤ workers) × (workers ≤ MOST_WORKERS) }
    requires queues { (1 ≤ plan.now.queues) × (plan.now.queues ≤ MOST_QUEUES) }
    ensures { let g = search_over plan.now.search.question plan.now.search.index 1 plan.now.queues in
        IfOk result (λ r. AreRows g r.0.items workers r.1.items) }
{
    // for the fact that the index can be searched
    let _k = plan.search.k();
    let portions = if plan.queues == 1 || workers < plan.queues {
        0
    } else {
        plan.queues
    };
    let mut words = Vec::with_capacity(alloc, portions as usize)?;
    let mut rows = Vec::with_capacity(alloc, portions as usize)?;
    for number in 0..portions {
        let portion = Portion {
            plan: &*plan,
            number,
        };
        let (word, passes) = BestWord::begin(alloc, &portion, NONE, workers)?;
        words.push_reserved(word);
        rows.push_reserved(passes);
    }
    Ok((words, rows))
}

/// Lets the workers, as they open, share these limits where there is one for each queue. They are else as they opened.
pub(crate) fn share_limits<'a, R: Rows>(
    alloc: Global,
    plan: &Plan<'a, R>,
    words: &'a [BestWord],
    mut rows: Vec<Vec<WordPass>>,
    workers: &mut Vec<Worker<'a, R>>,
) -> Result<(), NoMemory>
    requires queues { (1 ≤ plan.now.queues) × (plan.now.queues ≤ MOST_QUEUES) }
    requires few { vec_len workers.old ≤ MOST_WORKERS }
    requires hired { AreHired plan.now.search.question plan.now.search.index plan.now.queues workers.old.items }
    requires rows { let g = search_over plan.now.search.question plan.now.search.index 1 plan.now.queues in
        AreRows g words.now (vec_len workers.old) rows.items }
    ensures len { IfOk result (λ _. vec_len workers.new ≡ vec_len workers.old) }
    ensures hired { IfOk result (λ _.
        AreHired plan.now.search.question plan.now.search.index plan.now.queues workers.new.items) }
{
    if words.len() != plan.queues as usize {
        return Ok(());
    }
    for i in 0..workers.len() {
        let passes = take_passes(alloc, &mut rows)?;
        workers[i].share(Limits::new(words, passes, i as u32 % plan.queues));
    }
    Ok(())
}

// A pass from each row.
fn take_passes(alloc: Global, rows: &mut Vec<Vec<WordPass>>) -> Result<Vec<WordPass>, NoMemory>
    requires some { (c : ℕ) (row : PassRow) → slice_get rows.old.items c ≡ Some row → 0 < vec_len row }
    ensures dealt { (g : Ground) (words : List Best) (n : ℕ) → AreRows g words (suc n) rows.old.items
        → IfOk result (λ passes. AreTaken g words passes.items × AreRows g words n rows.new.items) }
{
    let mut passes = Vec::with_capacity(alloc, rows.len())?;
    for portion in 0..rows.len() {
        let Some(pass) = rows[portion].pop() else {
            unreachable!()
        };
        passes.push_reserved(pass);
    }
    Ok(passes)
}
