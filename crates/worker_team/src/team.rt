//! Hiring and dismissing: a worker is hired for each pass, and dismissed with what it made.
ghost use Rattle.std.specs.Prelude.{◌≡◌, ◌≤◌, All, IfOk, None, Some, length, map, take, vec_len};
ghost use Rattle.std.specs.List.{flat_map, range_with_len};
ghost use Rattle.claim_word.specs.Passes.{fresh_pass};

use crate::worker::TeamWorker;
use claim_word::{ClaimPass, Claims};
use outside::NoMemory;
use search_limits::MOST_WORKERS;
use std::alloc::Global;

/// A worker for each fresh pass of these claims, numbered in their order, with nothing made. Its turns go on from those
/// in `turns`.
pub fn hire<M>(
    alloc: Global,
    claims: &Claims,
    passes: Vec<ClaimPass>,
    turns: &[u64],
) -> Result<Vec<TeamWorker<M>>, NoMemory>
    requires fresh { All (λ p. p ≡ fresh_pass claims.now) passes.items }
    requires few { vec_len passes ≤ MOST_WORKERS }
    requires turns { vec_len passes ≤ length turns.now }
    ensures len { IfOk result (λ team. vec_len team ≡ vec_len passes) }
    ensures fresh { IfOk result (λ team. All (λ w. w.pass ≡ fresh_pass claims.now) team.items) }
    ensures idle { IfOk result (λ team. All (λ w. w.made ≡ None) team.items) }
    ensures numbers { IfOk result (λ team. map (λ w. w.number) team.items ≡ range_with_len 0 (vec_len passes)) }
    ensures turns { IfOk result (λ team. map (λ w. w.turn) team.items ≡ take (vec_len passes) turns.now) }
{
    let mut team = Vec::with_capacity(alloc, passes.len())?;
    for pass in passes {
        let number = team.len();
        team.push_reserved(TeamWorker {
            number: number as u32,
            turn: turns[number],
            pass,
            made: None,
        });
    }
    Ok(team)
}

/// The passes of the workers and what they made, in their order. Want of memory exactly where some worker made nothing, or
/// none is left for the two lists.
pub fn dismiss<M: Drop>(
    alloc: Global,
    team: Vec<TeamWorker<M>>,
) -> Result<(Vec<ClaimPass>, Vec<M>), NoMemory>
    ensures passes { IfOk result (λ r. r.0.items ≡ map (λ w. w.pass) team.items) }
    ensures made { IfOk result (λ r. map (λ m. Some m) r.1.items ≡ map (λ w. w.made) team.items) }
{
    let mut passes = Vec::with_capacity(alloc, team.len())?;
    let mut all_made = Vec::with_capacity(alloc, team.len())?;
    for worker in team {
        let TeamWorker { pass, made, .. } = worker;
        let Some(made) = made else {
            return Err(NoMemory);
        };
        passes.push_reserved(pass);
        all_made.push_reserved(made);
    }
    Ok((passes, all_made))
}

/// The lists that all workers made in one, one list behind another.
pub fn joined<T: Drop>(alloc: Global, made: Vec<Vec<T>>) -> Result<Vec<T>, NoMemory>
    ensures { IfOk result (λ all. all.items ≡ flat_map (λ own. own.items) made.items) }
{
    let mut all = Vec::new(alloc);
    for mut own in made {
        all.append(&mut own)?;
    }
    Ok(all)
}
