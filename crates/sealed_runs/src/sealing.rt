//! Sealing: one sort, one pass that divides the entries into rows, and one counter for each row.
ghost use Rattle.std.specs.Prelude.{◌≡◌, ℕ, ◌+◌, ◌^◌, ◌%◌, ◌<◌, ◌≤◌, [], ◌∷◌, ◌++◌, List, All, IfOk, map};
ghost use Rattle.std.specs.Prelude.{replicate, length, slice_index_or, vec_len};
ghost use Rattle.claim_word.specs.Passes.{Claim, fresh_pass};
ghost use Rattle.series_core.specs.EntryOrder.{IsAscending};
ghost use Rattle.sealed_runs.specs.Entries.{Run as Seen};
ghost use Rattle.sealed_runs.specs.Visits.{fresh_visit};
ghost use Rattle.sealed_runs.specs.Sealing.{IsReady, fresh_visits, row_of};

use crate::pass::{RunPass, Visit};
use crate::run::Run;
use claim_word::ClaimPass;
use outside::NoMemory;
use search_limits::MOST_WORKERS;
use series_core::Entry;
use std::alloc::Global;
use std::marker::Model;

/// The entries of one queue, in order.
#[derive(Drop)]
pub struct Row {
    entries: Vec<Entry>,
}

impl Model for Row {
    ghost use Rattle.std.specs.Prelude.{List};
    ghost use Rattle.series_core.specs.declared.queue_words.Entry.{Entry as Seen};

    ghost Value = { List Seen };

    ghost view = { λ r. r.entries.items };

    ghost invariant = { λ r. Unit {0} };
}

impl Row {
    fn push(&mut self, entry: Entry) -> Result<(), NoMemory>
        ensures { IfOk result (λ _. self.new ≡ self.old ++ entry ∷ []) }
    {
        self.entries.push(entry)?;
        Ok(())
    }
}

fn empty_rows(alloc: Global, queues: u32) -> Result<Vec<Row>, NoMemory>
    ensures { IfOk result (λ rows. rows.items ≡ replicate queues []) }
{
    let empty = |_| Row {
        entries: Vec::new(alloc),
    };
    Ok((0..queues).map(empty).collect(alloc)?)
}

/// The queue of an entry's leaf.
fn queue_of(entry: Entry, queues: u32) -> usize
    requires { 0 < queues }
    ensures queue { result ≡ entry.leaf % queues }
    ensures leaf { entry.leaf < 2 ^ 32 }
{
    (entry.leaf % queues) as usize
}

/// Divides entries into one row for each queue, each in their order.
pub(crate) fn divide(alloc: Global, entries: &[Entry], queues: u32) -> Result<Vec<Row>, NoMemory>
    requires { 0 < queues }
    ensures count { IfOk result (λ rows. vec_len rows ≡ queues) }
    ensures rows { IfOk result (λ rows. (m : ℕ) → m < queues → slice_index_or rows.items m [] ≡ row_of queues entries.now m) }
    ensures leaves { IfOk result (λ _. All (λ e. e.leaf < 2 ^ 32) entries.now) }
{
    let mut rows = empty_rows(alloc, queues)?;
    for entry in entries {
        rows[queue_of(*entry, queues)].push(*entry)?;
    }
    Ok(rows)
}

fn idle_passes(alloc: Global, callers: u32) -> Result<Vec<RunPass>, NoMemory>
    ensures { IfOk result (λ passes. passes.items ≡ replicate callers []) }
{
    let idle = |_| RunPass {
        visits: Vec::new(alloc),
    };
    Ok((0..callers).map(idle).collect(alloc)?)
}

impl RunPass {
    fn push(&mut self, visit: Visit) -> Result<(), NoMemory>
        ensures { IfOk result (λ _. self.new ≡ self.old ++ visit ∷ []) }
    {
        self.visits.push(visit)?;
        Ok(())
    }
}

/// Gives each pass its visit of one run more.
fn deal(
    alloc: Global,
    run: &Run,
    passes: &mut Vec<RunPass>,
    mut claims: Vec<ClaimPass>,
) -> Result<(), NoMemory>
    requires claims { claims.items ≡ replicate (vec_len passes.old) (fresh_pass run.now.claims) }
    requires callers { run.now.claims.callers ≡ vec_len passes.old }
    ensures { IfOk result (λ _. passes.new.items ≡ map (λ vs. vs ++ fresh_visit run.now.claims ∷ []) passes.old.items) }
{
    let count = passes.len();
    for pass in passes.iter_mut() {
        let Some(claim) = claims.pop() else {
            unreachable!()
        };
        let room = Vec::with_capacity(alloc, count)?;
        pass.push(Visit::fresh(claim, room))?;
    }
    Ok(())
}

/// Seals each row as a run, with passes that have done nothing.
pub(crate) fn seal_rows(
    alloc: Global,
    rows: Vec<Row>,
    callers: u32,
) -> Result<(Vec<Run>, Vec<RunPass>), NoMemory>
    requires callers { (1 ≤ callers) × (callers ≤ MOST_WORKERS) }
    requires ascending { All IsAscending rows.items }
    requires count { All (λ row. length row ≤ 2 ^ 32) rows.items }
    ensures entries { IfOk result (λ r. map (λ run. run.entries) r.0.items ≡ rows.items) }
    ensures ready { IfOk result (λ r. All (IsReady callers) r.0.items) }
    ensures passes { IfOk result (λ r. r.1.items ≡ replicate callers (fresh_visits r.0.items)) }
{
    let mut runs = Vec::with_capacity(alloc, rows.len())?;
    let mut passes = idle_passes(alloc, callers)?;
    for row in rows {
        let (run, claims) = Run::seal(alloc, row.entries, callers)?;
        deal(alloc, &run, &mut passes, claims)?;
        runs.push_reserved(run);
    }
    Ok((runs, passes))
}
