//! What a search opens with in both of its forms: the bound word, the root children to claim, and a searcher for each worker.
ghost use Rattle.live_query.specs.PortionRows.{AreRows};
ghost use Rattle.std.specs.Prelude.{◌≡◌, ◌≤◌, ℕ, All, IfOk, length, map, vec_len};
ghost use Rattle.best_word.specs.Passes.{Best, fresh_pass as fresh_seen};
ghost use Rattle.search_machine.specs.Basics.{start_of};
ghost use Rattle.search_task.specs.Questions.{search_over};
ghost use Rattle.live_query.specs.RootClaims.{Drawn};
ghost use Rattle.live_query.specs.Parts.{Opens};

use crate::plan::Plan;
use crate::portions::share_limits;
use crate::root_claims::{Drawing, RootClaims};
use crate::searcher::{Holding, Searcher};
use best_word::{BestWord, WordPass};
use list_team::Apart;
use outside::NoMemory;
use query_core::{Start, Worker, hire, limit_of};
use search_limits::{MOST_QUEUES, MOST_WORKERS};
use series_core::Rows;
use std::alloc::Global;

/// What a search opens with.
#[derive(Drop)]
pub(crate) struct Opened<'a, R: Rows> {
    /// The leaf that was scanned, and its limit.
    pub start: Option<Start>,
    /// The bound word.
    pub word: BestWord,
    /// The root children to claim.
    pub claims: RootClaims,
    /// A searcher for each worker, numbered in their order.
    pub team: Vec<Searcher<Worker<'a, R>, Holding>>,
}

/// Opens a search by 1 to 64 workers over 1 to 64 queues, who share these limits of portions.
pub(crate) fn open<'a, R: Rows>(
    alloc: Global,
    plan: &Plan<'a, R>,
    workers: u32,
    limits: &'a [BestWord],
    passes: Vec<Vec<WordPass>>,
) -> Result<Opened<'a, R>, NoMemory>
    requires workers { (1 ≤ workers) × (workers ≤ MOST_WORKERS) }
    requires queues { (1 ≤ plan.now.queues) × (plan.now.queues ≤ MOST_QUEUES) }
    requires passes { let g = search_over plan.now.search.question plan.now.search.index 1 plan.now.queues in
        AreRows g limits.now workers passes.items }
    ensures start { IfOk result (λ o. o.start ≡ start_of (search_over plan.now.search.question plan.now.search.index 1 1)) }
    ensures count { IfOk result (λ o. length o.team.items ≡ workers) }
    ensures opens { IfOk result (λ o.
        Opens plan.now.search.question plan.now.search.index plan.now.queues o.claims o.word o.team.items) }
{
    let (start, list) = plan.search.opening(alloc)?;
    let (word, seen) = BestWord::begin(alloc, plan.search.task(), limit_of(start), workers)?;
    let mut hired = hire(alloc, &plan.search, workers, plan.queues, start, list)?;
    share_limits(alloc, plan, limits, passes, &mut hired)?;
    take_shares(alloc, &mut hired)?;
    let (claims, drawings) = RootClaims::begin(alloc, plan.search.root_count(), workers)?;
    let team = open_team(alloc, hired, seen, drawings)?;
    Ok(Opened {
        start,
        word,
        claims,
        team,
    })
}

// Room for the bounds of each worker's share of the leaves.
fn take_shares<'a, R: Rows>(alloc: Global, workers: &mut Vec<Worker<'a, R>>) -> Result<(), NoMemory>
    requires few { vec_len workers.old ≤ MOST_WORKERS }
    ensures same { IfOk result (λ _. workers.new.items ≡ workers.old.items) }
{
    let count = workers.len();
    for i in 0..count {
        workers[i].take_share(alloc, count as u32)?;
    }
    Ok(())
}

// A searcher for each of at most 64 workers, numbered in their order, with its draws and its pass of the bound word.
fn open_team<'a, R: Rows>(
    alloc: Global,
    workers: Vec<Worker<'a, R>>,
    mut seen: Vec<WordPass>,
    mut drawings: Vec<Drawing>,
) -> Result<Vec<Searcher<Worker<'a, R>, Holding>>, NoMemory>
    requires seen { vec_len seen ≡ vec_len workers }
    requires drawings { vec_len drawings ≡ vec_len workers }
    requires few { vec_len workers ≤ MOST_WORKERS }
    ensures workers { IfOk result (λ team. map (λ c. c.worker) team.items ≡ workers.entry.items) }
    ensures hands { (d : Drawn) (b : Best) (low : ℕ) → All (λ p. p ≡ d) drawings.items
        → All (λ p. p ≡ fresh_seen b low) seen.items
        → IfOk result (λ team. All (λ c. c.hand ≡ record { drawn = d; seen = fresh_seen b low }) team.items) }
{
    let mut team = Vec::with_capacity(alloc, workers.len())?;
    for worker in workers {
        let Some(word_pass) = seen.pop() else {
            unreachable!()
        };
        let Some(drawing) = drawings.pop() else {
            unreachable!()
        };
        team.push_reserved(Searcher {
            worker,
            hand: Holding {
                drawing,
                seen: word_pass,
            },
            number: team.len() as u32,
            turn: 0,
            apart: Apart::new(),
        });
    }
    Ok(team)
}
