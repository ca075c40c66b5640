//! The queries of a run and what they are asked of: each is answered by one worker, alone or with others, or by all.
//! Its one rule: what is found ahead stands beside the number of its query, and is the answer to that query.

ghost use Rattle.std.specs.Prelude.{◌≡◌, ◌<◌, ◌≤◌, IfOk, length};
ghost use Rattle.command_words.specs.Limits.{IsWithin};
ghost use Rattle.search_limits.specs.declared.numbers.TheConstants.{MOST_WORKERS};
ghost use Rattle.group_answer.specs.Asking.{answer_to};
ghost use Rattle.series_core.specs.declared.best.TheConstants.{MAX_BEST};
ghost use Rattle.search_run.specs.Batches.{Asks, IsBatch};
ghost use Rattle.search_run.specs.Finding.{IsTreeFor};

use crate::crew::Crew;
use crate::tree::Tree;
use group_answer::Asked;
use nearest_answer::answer_by_team;
use outside::{Gate, NoMemory};
use series_core::{Flat, PairList, Rows};
use std::thread::Threads;

/// Queries with what they are asked of, and how many workers there are.
#[derive(Drop)]
pub struct Batch<'a, R> {
    /// The queries, and what they are asked of.
    pub asked: Asked<'a, R>,
    /// How many workers answer them.
    pub workers: u32,
}

impl<'a, R: Rows> Batch<'a, R> {
    /// Queries of the series that a tree is of: of each the `k` nearest are wanted.
    pub fn new(rows: &'a R, tree: &'a Tree, queries: &'a Flat, k: u32, workers: u32) -> Batch<'a, R>
        requires tree { IsTreeFor (R.collection rows.now) tree.now }
        requires length { queries.now.points ≡ (R.collection rows.now).points }
        requires k { (1 ≤ k) × (k ≤ MAX_BEST) }
        requires workers { IsWithin 1 MOST_WORKERS workers }
        ensures batch { IsBatch R.collection result }
        ensures asks { Asks rows.entry queries.entry k result }
    {
        let asked = Asked {
            rows,
            queries,
            k,
            layout: &tree.settings.layout,
            index: &tree.index,
        };
        Batch { asked, workers }
    }
}

impl<R: Rows + Sync> Batch<'_, R> {
    /// The answer to query i, by all workers, who share what is left to scan where that is much.
    pub fn by_team<T: Threads + Sync, G: Gate + Sync>(
        &self,
        crew: &Crew<'_, T, G>,
        i: u32,
    ) -> Result<PairList, NoMemory>
        requires batch { IsBatch R.collection self.now }
        requires below { i < length self.now.asked.queries.now.series }
        ensures { IfOk result (λ pairs. pairs ≡ answer_to R.collection self.now.asked i) }
    {
        let task = self.asked.task(i);
        let index = self.asked.index;
        answer_by_team(crew.rt, crew.alloc, &task, index, self.workers, crew.gate)
    }
}
