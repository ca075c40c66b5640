//! The fill part, which takes no lock: the searchers claim root children and mark what they put, and the claims are closed.
ghost use Rattle.std.specs.Prelude.{◌≡◌, ◌≤◌, false, All, IfOk, length, map, replicate};
ghost use Rattle.live_query.specs.RootClaims.{IsOwn};
ghost use Rattle.live_query.specs.Parts.{AllFilled, Opens, filling, resting};

use crate::fill_hand::FillHand;
use crate::filling::{Filling, fill_together};
use crate::plan::Plan;
use crate::root_claims::RootClaims;
use crate::searcher::{Holding, Rested, Searcher};
use best_word::BestWord;
use claim_word::ClaimPass;
use outside::{Gate, NoMemory};
use query_core::Worker;
use search_limits::{MOST_QUEUES, MOST_WORKERS};
use series_core::Rows;
use std::alloc::Global;
use std::thread::Threads;

/// Lets all searchers fill side by side, and closes what they claimed.
pub(crate) fn fill_part<'a, T: Threads + Sync, R: Rows + Sync, G: Gate + Sync>(
    rt: &T,
    alloc: Global,
    gate: &G,
    plan: &Plan<'a, R>,
    claims: RootClaims,
    word: &BestWord,
    team: Vec<Searcher<Worker<'a, R>, Holding>>,
) -> Result<Vec<Searcher<Worker<'a, R>, Rested>>, NoMemory>
    requires queues { (1 ≤ plan.now.queues) × (plan.now.queues ≤ MOST_QUEUES) }
    requires team { (1 ≤ length team.items) × (length team.items ≤ MOST_WORKERS) }
    requires opens { Opens plan.now.search.question plan.now.search.index plan.now.queues claims word.now team.items }
    ensures len { IfOk result (λ filled. length filled.items ≡ length team.entry.items) }
    ensures filled { IfOk result (λ filled.
        AllFilled plan.now.search.question plan.now.search.index plan.now.queues word.now filled.items) }
{
    let mut team = equip(alloc, plan, &claims, word, team)?;
    fill_together(rt, gate, &mut team);
    let (passes, team) = unequip(alloc, team)?;
    claims.close(passes);
    Ok(team)
}

// Gives each searcher its hand of the fill part, which has marked no leaf.
fn equip<'a, 'b, R: Rows>(
    alloc: Global,
    plan: &Plan<'a, R>,
    claims: &'b RootClaims,
    word: &'b BestWord,
    team: Vec<Searcher<Worker<'a, R>, Holding>>,
) -> Result<Vec<Filling<'a, 'b, R>>, NoMemory>
    requires word { All (λ c. c.hand.seen.best ≡ word.now) team.items }
    requires own { All (λ c. IsOwn claims.now c.hand.drawn) team.items }
    ensures { IfOk result (λ ready.
        ready.items ≡ map (filling claims.now plan.now.queues (length plan.now.search.index.leaves)) team.entry.items) }
{
    let leaves = plan.search.leaf_count();
    let mut ready = Vec::with_capacity(alloc, team.len())?;
    for searcher in team {
        let marks = no_marks(alloc, leaves)?;
        let (hand, rest) = searcher.let_go();
        let Holding { drawing, seen } = hand;
        ready.push_reserved(rest.take(FillHand::new(
            claims,
            word,
            drawing,
            seen,
            plan.queues,
            marks,
        )));
    }
    Ok(ready)
}

// No mark of any leaf.
fn no_marks(alloc: Global, leaves: u32) -> Result<Vec<bool>, NoMemory>
    ensures { IfOk result (λ marks. marks.items ≡ replicate leaves false) }
{
    Ok(vec![in alloc; false; leaves as usize]?)
}

// Takes each searcher's pass of the claims.
fn unequip<'a, 'b, R: Rows>(
    alloc: Global,
    team: Vec<Filling<'a, 'b, R>>,
) -> Result<(Vec<ClaimPass>, Vec<Searcher<Worker<'a, R>, Rested>>), NoMemory>
    ensures passes { IfOk result (λ r. r.0.items ≡ map (λ c. c.hand.drawn.pass) team.entry.items) }
    ensures team { IfOk result (λ r. r.1.items ≡ map resting team.entry.items) }
{
    let mut passes = Vec::with_capacity(alloc, team.len())?;
    let mut rested = Vec::with_capacity(alloc, team.len())?;
    for searcher in team {
        let (hand, rest) = searcher.let_go();
        let (drawing, seen, marks) = hand.into_parts();
        passes.push_reserved(drawing.into_pass());
        rested.push_reserved(rest.take(Rested { seen, marks }));
    }
    Ok((passes, rested))
}
