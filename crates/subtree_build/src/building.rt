//! The second phase: workers draw root children and build whole subtrees side by side, or one alone in this thread.
ghost use Rattle.std.specs.Prelude.{◌≡◌, ◌<◌, ◌≤◌, All, IfOk, IfSome, length, map, vec_len, IsPermutation};
ghost use Rattle.std.specs.List.{range_with_len};
ghost use Rattle.std.specs.List.Sorted.{IsNonDecreasingBy};
ghost use Rattle.claim_word.specs.Passes.{fresh_pass};
ghost use Rattle.subtree_build.specs.Building.{CanBuild, HasBuilt, IsPartAt};

use crate::part::RootPart;
use crate::settings::Settings;
use crate::splicing::RootLists;
use claim_word::Claims;
use outside::{Gate, NoGate, NoMemory};
use search_limits::MOST_WORKERS;
use std::alloc::Global;
use std::thread::Threads;
use worker_team::{TeamWorker, dismiss, for_each_mut, hire, joined};

/// Draws root children until none is left, and builds each.
fn built<G: Gate>(
    alloc: Global,
    settings: &Settings,
    found: &RootLists,
    claims: &Claims,
    gate: &G,
    worker: &mut TeamWorker<Vec<RootPart>>,
) -> Result<Vec<RootPart>, NoMemory>
    requires count { claims.now.count ≡ length found.now.roots.items }
    requires found { CanBuild settings.now found.now }
    requires fresh { worker.old.pass ≡ fresh_pass claims.now }
    ensures own { worker.new.pass.claims ≡ claims.now }
    ensures done { IfOk result (λ parts. HasBuilt settings.now found.now worker.new.pass parts.items) }
{
    let mut parts = Vec::new(alloc);
    loop {
        gate.pass(worker.number, worker.turn);
        worker.turn = worker.turn.saturating_add(1);
        let Some(place) = claims.draw(&mut worker.pass) else {
            return Ok(parts);
        };
        let part = RootPart::of_place(alloc, settings, found, place)?;
        parts.push(part)?;
    }
}

/// Each worker builds in a thread of its own, and keeps what it made; a worker alone starts none.
fn run<H: Threads + Sync, G: Gate + Sync>(
    rt: &H,
    alloc: Global,
    settings: &Settings,
    found: &RootLists,
    claims: &Claims,
    gate: &G,
    team: &mut Vec<TeamWorker<Vec<RootPart>>>,
)
    requires count { claims.now.count ≡ length found.now.roots.items }
    requires found { CanBuild settings.now found.now }
    requires some { 0 < vec_len team.old }
    requires fresh { All (λ w. w.pass ≡ fresh_pass claims.now) team.old.items }
    ensures len { vec_len team.new ≡ vec_len team.old }
    ensures own { All (λ w. w.pass.claims ≡ claims.now) team.new.items }
    ensures done { All (λ w. IfSome w.made (λ parts. HasBuilt settings.now found.now w.pass parts.items)) team.new.items }
{
    for_each_mut(
        rt,
        team.as_mut_slice(),
        &|_, worker| worker.made = built(alloc, settings, found, claims, gate, worker).ok(),
    );
}

/// The parts in the order of their places.
fn in_order(mut parts: Vec<RootPart>) -> Vec<RootPart>
    ensures moved { IsPermutation parts.items result.items }
    ensures ordered { IsNonDecreasingBy (λ p. p.place) result.items }
{
    parts.sort_unstable_by_key(|part| part.place);
    parts
}

/// The counter over the root children, and a team whose workers are to draw them, one for each of `turns`.
fn begin(
    alloc: Global,
    found: &RootLists,
    turns: &[u64],
) -> Result<(Claims, Vec<TeamWorker<Vec<RootPart>>>), NoMemory>
    requires few { length found.now.roots.items ≤ 65536 }
    requires workers { (1 ≤ length turns.now) × (length turns.now ≤ MOST_WORKERS) }
    ensures count { IfOk result (λ r. r.0.count ≡ length found.now.roots.items) }
    ensures callers { IfOk result (λ r. r.0.callers ≡ length turns.now) }
    ensures len { IfOk result (λ r. vec_len r.1 ≡ length turns.now) }
    ensures fresh { IfOk result (λ r. All (λ w. w.pass ≡ fresh_pass r.0) r.1.items) }
{
    let (claims, passes) = Claims::begin(alloc, found.roots.len() as u64, turns.len() as u32)?;
    let team = hire(alloc, &claims, passes, turns)?;
    Ok((claims, team))
}

/// Ends the drawing: one part for each root child, in order.
fn end(
    alloc: Global,
    settings: &Settings,
    found: &RootLists,
    claims: Claims,
    team: Vec<TeamWorker<Vec<RootPart>>>,
) -> Result<Vec<RootPart>, NoMemory>
    requires count { claims.count ≡ length found.now.roots.items }
    requires all { vec_len team ≡ claims.callers }
    requires some { 0 < vec_len team }
    requires own { All (λ w. w.pass.claims ≡ claims) team.items }
    requires done { All (λ w. IfSome w.made (λ parts. HasBuilt settings.now found.now w.pass parts.items)) team.items }
    ensures places { IfOk result (λ parts. map (λ p. p.place) parts.items
        ≡ range_with_len 0 (length found.now.roots.items)) }
    ensures built { IfOk result (λ parts. All (IsPartAt settings.now found.now) parts.items) }
{
    let _ = settings;
    let _ = found;
    let (passes, made) = dismiss(alloc, team)?;
    claims.close(passes);
    let parts = joined(alloc, made)?;
    Ok(in_order(parts))
}

/// Workers build all root children: one part for each, in order.
pub(crate) fn build_parts<H: Threads + Sync, G: Gate + Sync>(
    rt: &H,
    alloc: Global,
    settings: &Settings,
    found: &RootLists,
    turns: &[u64],
    gate: &G,
) -> Result<Vec<RootPart>, NoMemory>
    requires found { CanBuild settings.now found.now }
    requires few { length found.now.roots.items ≤ 65536 }
    requires workers { (1 ≤ length turns.now) × (length turns.now ≤ MOST_WORKERS) }
    ensures places { IfOk result (λ parts. map (λ p. p.place) parts.items
        ≡ range_with_len 0 (length found.now.roots.items)) }
    ensures built { IfOk result (λ parts. All (IsPartAt settings.now found.now) parts.items) }
{
    let (claims, mut team) = begin(alloc, found, turns)?;
    run(rt, alloc, settings, found, &claims, gate, &mut team);
    end(alloc, settings, found, claims, team)
}

/// The same by a worker alone, in this thread.
pub(crate) fn build_parts_alone(
    alloc: Global,
    settings: &Settings,
    found: &RootLists,
) -> Result<Vec<RootPart>, NoMemory>
    requires found { CanBuild settings.now found.now }
    requires few { length found.now.roots.items ≤ 65536 }
    ensures places { IfOk result (λ parts. map (λ p. p.place) parts.items
        ≡ range_with_len 0 (length found.now.roots.items)) }
    ensures built { IfOk result (λ parts. All (IsPartAt settings.now found.now) parts.items) }
{
    let (claims, mut team) = begin(alloc, found, &[0])?;
    let worker = &mut team[0];
    worker.made = built(alloc, settings, found, &claims, &NoGate, worker).ok();
    end(alloc, settings, found, claims, team)
}
