//! Hiring and dismissing. Its one rule: a limit is offered from a list of k pairs alone.
ghost use Rattle.std.specs.Prelude.{◌≡◌, ℕ, ◌-◌, ◌≤◌, [], All, IfOk, map, true, vec_len};
ghost use Rattle.series_core.specs.declared.best.TheConstants.{MAX_BEST};
ghost use Rattle.claim_word.specs.Passes.{EachDrawnOnce, fresh_pass};
ghost use Rattle.best_word.specs.Passes.{fresh_pass as fresh_word};
ghost use Rattle.series_core.specs.Order.{distance_at};
ghost use Rattle.list_team.specs.Searchers.{IsFresh, IsTold, merged};

use crate::apart::Apart;
use crate::searcher::Searcher;
use best_word::{BestWord, WordPass};
use claim_word::{ClaimPass, Claims};
use outside::NoMemory;
use search_limits::MOST_WORKERS;
use series_core::KBest;
use std::alloc::Global;

/// A worker for each fresh pass over what is drawn, at most 64, with a fresh pass over the limit and an empty list for 1 to 1024 pairs.
pub fn hire(
    alloc: Global,
    claims: &Claims,
    best: &BestWord,
    k: u32,
    passes: Vec<ClaimPass>,
    mut words: Vec<WordPass>,
) -> Result<Vec<Searcher>, NoMemory>
    requires k { (1 ≤ k) × (k ≤ MAX_BEST) }
    requires few { vec_len passes ≤ MOST_WORKERS }
    requires same { vec_len words ≡ vec_len passes }
    requires passes { All (λ p. p ≡ fresh_pass claims.now) passes.items }
    ensures len { IfOk result (λ team. vec_len team ≡ vec_len passes) }
    ensures fresh { (floor : ℕ) → All (λ w. w ≡ fresh_word best.now floor) words.items
        → IfOk result (λ team. All (IsFresh claims.now best.now floor k) team.items) }
{
    let mut team = Vec::with_capacity(alloc, passes.len())?;
    for pass in passes {
        let Some(word) = words.pop() else {
            unreachable!()
        };
        let list = KBest::new(alloc, k)?;
        team.push_reserved(Searcher {
            number: team.len() as u32,
            turn: 0,
            pass,
            word,
            list,
            ended: false,
            apart: Apart::new(),
        });
    }
    Ok(team)
}

/// Offers the last distance of a list that is full, so that all may pass over what lies beyond it.
pub fn offer_last(best: &BestWord, word: &mut WordPass, list: &KBest)
    requires own { word.old.best ≡ best.now }
    requires last { word.old.floor ≤ distance_at (list.now.k - 1) list.now.pairs }
    ensures { (floor : ℕ) → IsTold best.now floor word.old → IsTold best.now floor word.new }
{
    if let Some(worst) = list.worst() {
        best.offer(word, worst.distance);
    }
}

/// Ends the drawing of a team of all passes, and merges the lists of its workers into the k smallest pairs. Want of memory where some
/// worker did not come to its end.
pub fn dismiss(
    alloc: Global,
    k: u32,
    claims: Claims,
    team: Vec<Searcher>,
) -> Result<KBest, NoMemory>
    requires k { (1 ≤ k) × (k ≤ MAX_BEST) }
    requires all { vec_len team ≡ claims.callers }
    requires own { All (λ w. w.pass.claims ≡ claims) team.items }
    ensures pairs { IfOk result (λ all. all.pairs ≡ merged k [] team.items) }
    ensures ended { IfOk result (λ _. All (λ w. w.ended ≡ true) team.items) }
    ensures drawn { IfOk result (λ _. EachDrawnOnce claims.count (map (λ w. w.pass) team.items)) }
{
    let mut all = KBest::new(alloc, k)?;
    let mut passes = Vec::with_capacity(alloc, team.len())?;
    for worker in team {
        let Searcher {
            pass,
            list,
            ended,
            ..
        } = worker;
        if !ended {
            return Err(NoMemory);
        }
        all.merge(&list);
        passes.push_reserved(pass);
    }
    claims.close(passes);
    Ok(all)
}
