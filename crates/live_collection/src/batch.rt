//! The series of one append, with their index.
ghost use Rattle.std.specs.Prelude.{◌≡◌, ◌<◌, ◌≤◌, IfOk, length};
ghost use Rattle.series_core.specs.Answer.{answer};
ghost use Rattle.subtree_build.specs.Fits.{Fits};

use isax_word::Layout;
use nearest_answer::{Task, one_worker_answer};
use outside::{NoGate, NoMemory};
use series_core::{Flat, MAX_BEST, PairList};
use std::alloc::Global;
use std::thread::Threads;
use subtree_build::{Index, Settings, build};

/// The series of one append with their index, which fits them under the layout.
#[derive(Drop)]
pub struct Batch {
    /// The series.
    pub series: Flat,
    /// How they become words.
    pub layout: Layout,
    /// Their index.
    pub index: Index,
    ghost points: { series.points ≡ layout.cuts.row_length },
    ghost fits: { ∥ Fits series layout index ∥₁ },
}

impl Batch {
    /// The series with their index, which one worker builds in this thread.
    pub(crate) fn of_series<H: Threads + Sync>(
        rt: &H,
        alloc: Global,
        series: Flat,
        settings: &Settings,
    ) -> Result<Batch, NoMemory>
        requires { series.points ≡ settings.now.layout.cuts.row_length }
        ensures { IfOk result (λ b. b.series ≡ series) }
    {
        let index = build(rt, alloc, &series, settings, 1, &NoGate)?;
        Ok(Batch {
            series,
            layout: settings.layout,
            index,
        })
    }

    /// The k nearest series of this batch alone, numbered from 0.
    pub(crate) fn nearest(&self, alloc: Global, query: &[i16], k: u32) -> Result<PairList, NoMemory>
        requires length { length query.now ≡ self.now.series.points }
        requires some { 0 < k }
        requires limit { k ≤ MAX_BEST }
        ensures { IfOk result (λ pairs. pairs ≡ answer self.now.series query.now k) }
    {
        let task = Task::new(&self.series, query, k, &self.layout);
        one_worker_answer(alloc, &task, &self.index)
    }
}
