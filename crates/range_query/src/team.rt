//! Workers that draw groups of root children until none is left, each with what it found: side by side, or one alone.
ghost use Rattle.std.specs.Prelude.{◌≡◌, ◌<◌, ◌≤◌, ◌++◌, All, IfOk, OnOk, length, vec_len};
ghost use Rattle.claim_word.specs.Passes.{fresh_pass};
ghost use Rattle.range_query.specs.Searches.{IsReady, asked_of};
ghost use Rattle.range_query.specs.Done.{HasDrawn};
ghost use Rattle.range_query.specs.Near.{group_count, near_group};
ghost use Rattle.series_core.specs.Answer.{within};

use crate::tuning::MOST_ROOTS_A_GROUP;
use crate::walk::RadiusSearch;
use claim_word::Claims;
use outside::{Gate, NoGate, NoMemory};
use search_limits::MOST_WORKERS;
use series_core::{Pair, Rows};
use std::alloc::Global;
use std::thread::Threads;
use worker_team::{TeamWorker, dismiss, for_each_mut, hire, joined};

/// Finds the pairs within the radius below the root children of a group.
fn search_group<R: Rows>(
    search: &RadiusSearch<'_, R>,
    group: u64,
    found: &mut Vec<Pair>,
) -> Result<(), NoMemory>
    requires ready { IsReady R.collection search.now }
    requires size { (1 ≤ search.now.size) × (search.now.size ≤ MOST_ROOTS_A_GROUP) }
    requires group { group < group_count search.now.size (length search.now.index.now.roots) }
    ensures { let near = near_group (asked_of R.collection search.now) search.now.index.now search.now.size group in
        OnOk result (found.new.items ≡ found.old.items ++ near) }
{
    let first = group as u32 * search.size;
    let end = search.index.root_count().min(first + search.size);
    for i in first..end {
        search.walk(i, found)?;
    }
    Ok(())
}

/// Draws groups of root children until none is left, and keeps the pairs below them that are within the radius; where memory does not
/// suffice, it stops and keeps nothing.
fn draw_all<R: Rows, G: Gate>(
    alloc: Global,
    search: &RadiusSearch<'_, R>,
    claims: &Claims,
    gate: &G,
    worker: &mut TeamWorker<Vec<Pair>>,
)
    requires ready { IsReady R.collection search.now }
    requires size { (1 ≤ search.now.size) × (search.now.size ≤ MOST_ROOTS_A_GROUP) }
    requires count { claims.now.count ≡ group_count search.now.size (length search.now.index.now.roots) }
    requires fresh { worker.old.pass ≡ fresh_pass claims.now }
    ensures own { worker.new.pass.claims ≡ claims.now }
    ensures done { HasDrawn R.collection search.now worker.new }
{
    let mut found = Vec::new(alloc);
    worker.made = None;
    loop {
        gate.pass(worker.number, worker.turn);
        worker.turn = worker.turn.saturating_add(1);
        let Some(drawn) = claims.draw(&mut worker.pass) else {
            worker.made = Some(found);
            return;
        };
        let Ok(()) = search_group(search, drawn, &mut found) else {
            return;
        };
    }
}

/// Lets the workers draw side by side, each in a thread of its own; a worker alone starts no thread.
pub(crate) fn draw_together<T: Threads + Sync, R: Rows + Sync, G: Gate + Sync>(
    rt: &T,
    alloc: Global,
    search: &RadiusSearch<'_, R>,
    claims: &Claims,
    gate: &G,
    team: &mut Vec<TeamWorker<Vec<Pair>>>,
)
    requires ready { IsReady R.collection search.now }
    requires size { (1 ≤ search.now.size) × (search.now.size ≤ MOST_ROOTS_A_GROUP) }
    requires count { claims.now.count ≡ group_count search.now.size (length search.now.index.now.roots) }
    requires some { 0 < vec_len team.old }
    requires fresh { All (λ w. w.pass ≡ fresh_pass claims.now) team.old.items }
    ensures len { vec_len team.new ≡ vec_len team.old }
    ensures own { All (λ w. w.pass.claims ≡ claims.now) team.new.items }
    ensures done { All (HasDrawn R.collection search.now) team.new.items }
{
    for_each_mut(
        rt,
        team.as_mut_slice(),
        &|_, worker| draw_all(alloc, search, claims, gate, worker),
    );
}

/// Lets a worker alone draw, in this thread.
pub(crate) fn draw_alone<R: Rows>(
    alloc: Global,
    search: &RadiusSearch<'_, R>,
    claims: &Claims,
    team: &mut Vec<TeamWorker<Vec<Pair>>>,
)
    requires ready { IsReady R.collection search.now }
    requires size { (1 ≤ search.now.size) × (search.now.size ≤ MOST_ROOTS_A_GROUP) }
    requires count { claims.now.count ≡ group_count search.now.size (length search.now.index.now.roots) }
    requires one { vec_len team.old ≡ 1 }
    requires fresh { All (λ w. w.pass ≡ fresh_pass claims.now) team.old.items }
    ensures len { vec_len team.new ≡ vec_len team.old }
    ensures own { All (λ w. w.pass.claims ≡ claims.now) team.new.items }
    ensures done { All (HasDrawn R.collection search.now) team.new.items }
{
    draw_all(alloc, search, claims, &NoGate, &mut team[0]);
}

/// The counter over the groups of root children, and a team whose workers are to draw them.
pub(crate) fn begin<R: Rows>(
    alloc: Global,
    search: &RadiusSearch<'_, R>,
    workers: u32,
) -> Result<(Claims, Vec<TeamWorker<Vec<Pair>>>), NoMemory>
    requires workers { (1 ≤ workers) × (workers ≤ MOST_WORKERS) }
    requires size { 1 ≤ search.now.size }
    ensures count { let groups = group_count search.now.size (length search.now.index.now.roots) in
        IfOk result (λ r. r.0.count ≡ groups) }
    ensures callers { IfOk result (λ r. r.0.callers ≡ workers) }
    ensures len { IfOk result (λ r. vec_len r.1 ≡ workers) }
    ensures fresh { IfOk result (λ r. All (λ w. w.pass ≡ fresh_pass r.0) r.1.items) }
{
    let groups = groups(search.index.root_count(), search.size);
    let (claims, passes) = Claims::begin(alloc, groups, workers)?;
    let team = hire(alloc, &claims, passes, &[0; MOST_WORKERS as usize])?;
    Ok((claims, team))
}

/// The number of groups of at most `size` into which `roots` root children fall.
fn groups(roots: u32, size: u32) -> u64
    requires size { 1 ≤ size }
    ensures value { result ≡ group_count size roots }
    ensures few { result ≤ roots }
{
    (u64::from(roots) + u64::from(size - 1)) / u64::from(size)
}

/// Ends the drawing: what all workers found, in order, is all that is near.
pub(crate) fn end<R: Rows>(
    alloc: Global,
    search: &RadiusSearch<'_, R>,
    claims: Claims,
    team: Vec<TeamWorker<Vec<Pair>>>,
) -> Result<Vec<Pair>, NoMemory>
    requires ready { IsReady R.collection search.now }
    requires size { 1 ≤ search.now.size }
    requires count { claims.count ≡ group_count search.now.size (length search.now.index.now.roots) }
    requires all { vec_len team ≡ claims.callers }
    requires some { 0 < vec_len team }
    requires own { All (λ w. w.pass.claims ≡ claims) team.items }
    requires done { All (HasDrawn R.collection search.now) team.items }
    ensures { let asked = asked_of R.collection search.now in
        IfOk result (λ pairs. pairs.items ≡ within asked.collection asked.query asked.radius) }
{
    let _ = search;
    let (passes, made) = dismiss(alloc, team)?;
    claims.close(passes);
    let mut found = joined(alloc, made)?;
    found.sort_unstable();
    Ok(found)
}
