//! The first phase: workers summarise the collection side by side, or one alone in this thread, each into buffers of its own.
ghost use Rattle.std.specs.Prelude.{◌≡◌, ◌^◌, ◌<◌, ◌≤◌, All, IfOk, IfSome, length, vec_len};
ghost use Rattle.claim_word.specs.Passes.{fresh_pass};
ghost use Rattle.segment_sums.specs.Division.{IsDivision};
ghost use Rattle.series_core.specs.Collection.{IsCollection};
ghost use Rattle.summary_phase.specs.Chunks.{chunk_count};
ghost use Rattle.subtree_build.specs.Summaries.{HasSummarised, HoldAllMembers};

use claim_word::Claims;
use isax_word::Layout;
use outside::{Gate, NoGate, NoMemory};
use search_limits::MOST_WORKERS;
use series_core::{MAX_LENGTH, Rows};
use std::alloc::Global;
use std::thread::Threads;
use summary_phase::{Buffers, chunks, summarise};
use worker_team::{TeamWorker, dismiss, for_each_mut, hire};

/// What all workers made: buffers for each, and how many turns each took.
#[derive(Drop)]
pub(crate) struct Summaries {
    pub(crate) buffers: Vec<Buffers>,
    pub(crate) turns: Vec<u64>,
}

/// How many root numbers there are: 2 to the number of segments.
pub(crate) fn root_numbers(layout: &Layout) -> u32
    ensures value { result ≡ 2 ^ layout.now.cuts.segments }
    ensures some { 2 ≤ result }
    ensures limit { result ≤ MAX_LENGTH }
    ensures divides { IsDivision layout.now.cuts }
{
    1 << layout.cuts.segments()
}

/// Draws chunks until none is left, into buffers of the worker's own.
fn summarised<R: Rows, G: Gate>(
    alloc: Global,
    rows: &R,
    layout: &Layout,
    claims: &Claims,
    gate: &G,
    worker: &mut TeamWorker<Buffers>,
) -> Result<Buffers, NoMemory>
    requires length { layout.now.cuts.row_length ≡ (R.collection rows.now).points }
    requires chunks { claims.now.count ≡ chunk_count (length (R.collection rows.now).series) }
    requires fresh { worker.old.pass ≡ fresh_pass claims.now }
    ensures own { worker.new.pass.claims ≡ claims.now }
    ensures done { IfOk result (HasSummarised layout.now (R.collection rows.now) worker.new.pass) }
{
    let mut buffers = Buffers::new(alloc, root_numbers(layout))?;
    worker.turn = summarise(
        alloc,
        rows,
        layout,
        claims,
        &mut worker.pass,
        &mut buffers,
        worker.number,
        gate,
    )?;
    Ok(buffers)
}

/// Each worker summarises in a thread of its own, and keeps what it made; a worker alone starts none.
fn run<H: Threads + Sync, R: Rows + Sync, G: Gate + Sync>(
    rt: &H,
    alloc: Global,
    rows: &R,
    layout: &Layout,
    claims: &Claims,
    gate: &G,
    team: &mut Vec<TeamWorker<Buffers>>,
)
    requires length { layout.now.cuts.row_length ≡ (R.collection rows.now).points }
    requires chunks { claims.now.count ≡ chunk_count (length (R.collection rows.now).series) }
    requires some { 0 < vec_len team.old }
    requires fresh { All (λ w. w.pass ≡ fresh_pass claims.now) team.old.items }
    ensures len { vec_len team.new ≡ vec_len team.old }
    ensures own { All (λ w. w.pass.claims ≡ claims.now) team.new.items }
    ensures done { All (λ w. IfSome w.made (HasSummarised layout.now (R.collection rows.now) w.pass)) team.new.items }
{
    for_each_mut(
        rt,
        team.as_mut_slice(),
        &|_, worker| worker.made = summarised(alloc, rows, layout, claims, gate, worker).ok(),
    );
}

/// How many turns each worker took.
fn turns_of(alloc: Global, team: &[TeamWorker<Buffers>]) -> Result<Vec<u64>, NoMemory>
    ensures { IfOk result (λ turns. vec_len turns ≡ length team.now) }
{
    let mut turns = Vec::new(alloc);
    for worker in team {
        turns.push(worker.turn)?;
    }
    Ok(turns)
}

/// The counter over the chunks of a collection, and a team whose workers are to draw them.
fn begin<R: Rows>(
    alloc: Global,
    rows: &R,
    workers: u32,
) -> Result<(Claims, Vec<TeamWorker<Buffers>>), NoMemory>
    requires workers { (1 ≤ workers) × (workers ≤ MOST_WORKERS) }
    ensures chunks { IfOk result (λ r. r.0.count ≡ chunk_count (length (R.collection rows.now).series)) }
    ensures callers { IfOk result (λ r. r.0.callers ≡ workers) }
    ensures len { IfOk result (λ r. vec_len r.1 ≡ workers) }
    ensures fresh { IfOk result (λ r. All (λ w. w.pass ≡ fresh_pass r.0) r.1.items) }
    ensures sound { IsCollection (R.collection rows.now) }
{
    let (claims, passes) = Claims::begin(alloc, chunks(rows.count()), workers)?;
    let team = hire(alloc, &claims, passes, &[0; MOST_WORKERS as usize])?;
    Ok((claims, team))
}

/// Ends the drawing: the buffers of all workers together hold for each root number its members.
fn end<R: Rows>(
    alloc: Global,
    rows: &R,
    layout: &Layout,
    claims: Claims,
    team: Vec<TeamWorker<Buffers>>,
) -> Result<Summaries, NoMemory>
    requires chunks { claims.count ≡ chunk_count (length (R.collection rows.now).series) }
    requires all { vec_len team ≡ claims.callers }
    requires some { 0 < vec_len team }
    requires own { All (λ w. w.pass.claims ≡ claims) team.items }
    requires done { All (λ w. IfSome w.made (HasSummarised layout.now (R.collection rows.now) w.pass)) team.items }
    ensures members { IfOk result (λ s. HoldAllMembers layout.now (R.collection rows.now) s.buffers.items) }
    ensures turns { IfOk result (λ s. vec_len s.turns ≡ vec_len team) }
{
    let _ = rows;
    let _ = layout;
    let turns = turns_of(alloc, team.as_slice())?;
    let (passes, buffers) = dismiss(alloc, team)?;
    claims.close(passes);
    Ok(Summaries { buffers, turns })
}

/// Workers summarise the collection: their buffers together hold for each root number its members.
pub(crate) fn summarise_all<H: Threads + Sync, R: Rows + Sync, G: Gate + Sync>(
    rt: &H,
    alloc: Global,
    rows: &R,
    layout: &Layout,
    workers: u32,
    gate: &G,
) -> Result<Summaries, NoMemory>
    requires length { layout.now.cuts.row_length ≡ (R.collection rows.now).points }
    requires workers { (1 ≤ workers) × (workers ≤ MOST_WORKERS) }
    ensures members { IfOk result (λ s. HoldAllMembers layout.now (R.collection rows.now) s.buffers.items) }
    ensures turns { IfOk result (λ s. vec_len s.turns ≡ workers) }
    ensures sound { IsCollection (R.collection rows.now) }
{
    let (claims, mut team) = begin(alloc, rows, workers)?;
    run(rt, alloc, rows, layout, &claims, gate, &mut team);
    end(alloc, rows, layout, claims, team)
}

/// The same by a worker alone, in this thread.
pub(crate) fn summarise_alone<R: Rows>(
    alloc: Global,
    rows: &R,
    layout: &Layout,
) -> Result<Summaries, NoMemory>
    requires length { layout.now.cuts.row_length ≡ (R.collection rows.now).points }
    ensures members { IfOk result (λ s. HoldAllMembers layout.now (R.collection rows.now) s.buffers.items) }
    ensures turns { IfOk result (λ s. vec_len s.turns ≡ 1) }
    ensures sound { IsCollection (R.collection rows.now) }
{
    let (claims, mut team) = begin(alloc, rows, 1)?;
    let worker = &mut team[0];
    worker.made = summarised(alloc, rows, layout, &claims, &NoGate, worker).ok();
    end(alloc, rows, layout, claims, team)
}
