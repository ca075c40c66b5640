//! The search in both of its forms, over sealed runs and over locked queues, behind one call.
ghost use Rattle.std.specs.Prelude.{◌≤◌};
ghost use Rattle.subtree_build.specs.Fits.{Fits};

use live_query::{nearest, nearest_sealed};
use outside::{Gate, NoMemory};
use query_core::{Outcome, Task};
use series_core::Rows;
use std::alloc::Global;
use std::sync::Wait;
use std::thread::Threads;
use subtree_build::Index;

/// How many workers search, over how many queues, and whether these have locks.
#[derive(Clone, Copy, Debug)]
pub(super) struct Form {
    pub(super) workers: u32,
    pub(super) queues: u32,
    pub(super) locked: bool,
}

/// The outcome of a search in this form.
pub(super) fn searched<T: Threads + Wait + Sync, R: Rows + Sync, G: Gate + Sync>(
    rt: &T,
    alloc: Global,
    task: &Task<'_, R>,
    index: &Index,
    gate: &G,
    form: Form,
) -> Result<Outcome, NoMemory>
    requires fits { Fits task.now.collection task.now.layout index.now }
    requires workers { (1 ≤ form.workers) × (form.workers ≤ 64) }
    requires queues { (1 ≤ form.queues) × (form.queues ≤ 64) }
{
    let Form {
        workers,
        queues,
        locked,
    } = form;
    if locked {
        nearest(rt, alloc, task, index, workers, queues, gate)
    } else {
        nearest_sealed(rt, alloc, task, index, workers, queues, gate)
    }
}
