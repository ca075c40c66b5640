//! The k nearest series of a collection.
ghost use Rattle.std.specs.Prelude.{◌≡◌, ◌≤◌, IfOk, length};
ghost use Rattle.series_core.specs.Answer.{answer};

use breakpoints::Table;
use nearest_answer::{Task, one_worker_answer};
use outside::{NoGate, NoMemory};
use series_core::{MAX_BEST, PairList, Rows};
use std::alloc::Global;
use std::thread::Threads;
use subtree_build::{Settings, build};

/// The `k` rows that are nearest to a query, exactly: four workers build a tree of the rows, and one searches it.
pub fn nearest<T: Threads + Sync, R: Rows + Sync>(
    rt: &T,
    alloc: Global,
    rows: &R,
    query: &[i16],
    k: u32,
) -> Result<PairList, NoMemory>
    requires length { length query.now ≡ (R.collection rows.now).points }
    requires k { (1 ≤ k) × (k ≤ MAX_BEST) }
    ensures { IfOk result (λ pairs. pairs ≡ answer (R.collection rows.now) query.now k) }
{
    let length = rows.length();
    let settings = Settings::new(length, length.min(16), Table::Bent, 128);
    let index = build(rt, alloc, rows, &settings, 4, &NoGate)?;
    let task = Task::new(rows, query, k, &settings.layout);
    one_worker_answer(alloc, &task, &index)
}
