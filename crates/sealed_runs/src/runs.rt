//! Sealed runs, one for each queue. Their one rule: run m holds the entries whose leaf leaves m, in ascending order.
ghost use Rattle.std.specs.Prelude.{◌≡◌, ℕ, ◌+◌, ◌^◌, ◌<◌, ◌≤◌, [], ◌∷◌, ◌++◌, All, IfOk, None, Some};
ghost use Rattle.std.specs.Prelude.{replicate, length, slice_set, vec_len};
ghost use Rattle.claim_word.specs.Passes.{fresh_pass};
ghost use Rattle.sealed_runs.specs.Entries.{LeavesDiffer, IsRun, run_at};
ghost use Rattle.sealed_runs.specs.Visits.{Visit as Seen, IsPass, fresh_visit, visit_at, leaves};
ghost use Rattle.sealed_runs.specs.Popped.{IfLeaf, IfClosed, Gives, Shuts, Pops};
ghost use Rattle.sealed_runs.specs.Closed.{AreLines};
ghost use Rattle.sealed_runs.specs.Sealing.{fresh_visits};

use crate::closed::{Line, RunsClosed, close_run};
use crate::pass::RunPass;
use crate::run::Run;
use crate::sealing::{divide, seal_rows};
use outside::NoMemory;
use search_limits::{MOST_QUEUES, MOST_WORKERS};
use series_core::{Entry, PopReply};
use std::alloc::Global;
use std::collections::VecDeque;
use std::marker::Model;

/// Sealed runs, seen as the runs with their counters and entries, and the number of passes.
#[derive(Drop)]
pub struct Runs {
    runs: Vec<Run>,
    lines: VecDeque<Line>,
    callers: u64,
}

impl Model for Runs {
    ghost use Rattle.std.specs.Prelude.{◌≡◌, ◌<◌, ◌≤◌, [], All, length};
    ghost use Rattle.std.specs.VecDeque.{deque_capacity};
    ghost use Rattle.sealed_runs.specs.Entries.{Sealed};
    ghost use Rattle.sealed_runs.specs.Sealing.{IsReady};

    ghost Value = { Sealed };

    ghost view = { λ r. record { runs = r.runs.items; callers = r.callers } };

    ghost invariant = { λ r. (0 < r.callers) × (r.lines.items ≡ []) × (length r.runs.items ≤ deque_capacity r.lines) × All (IsReady r.callers) r.runs.items };
}

impl Runs {
    /// Seals entries whose leaves differ as one run for each of the 1 to 64 queues, with one pass for each of the 1 to
    /// 64 callers. It sorts once, and takes the memory that `close` needs.
    pub fn seal(
        alloc: Global,
        mut entries: Vec<Entry>,
        queues: u32,
        callers: u32,
    ) -> Result<(Runs, Vec<RunPass>), NoMemory>
        requires leaves { LeavesDiffer entries.items }
        requires queues { (1 ≤ queues) × (queues ≤ MOST_QUEUES) }
        requires callers { (1 ≤ callers) × (callers ≤ MOST_WORKERS) }
        ensures count { IfOk result (λ r. length r.0.runs ≡ queues) }
        ensures runs { IfOk result (λ r. (m : ℕ) → m < queues → IsRun entries.items queues m (run_at r.0.runs m).entries) }
        ensures callers { IfOk result (λ r. r.0.callers ≡ callers) }
        ensures passes { IfOk result (λ r. r.1.items ≡ replicate callers (fresh_visits r.0.runs)) }
        ensures own { IfOk result (λ r. All (IsPass r.0.runs) r.1.items) }
    {
        entries.sort_unstable();
        let rows = divide(alloc, &entries, queues)?;
        let (runs, passes) = seal_rows(alloc, rows, callers)?;
        let lines = VecDeque::with_capacity(alloc, runs.len())?;
        let runs = Runs {
            runs,
            lines,
            callers: u64::from(callers),
        };
        Ok((runs, passes))
    }

    /// Pops run m, which is below the number of runs and has not closed to this pass: draws the next place, and hands
    /// out its entry where the bound is at most `far(limit)`. Where it is above, and where the run has ended, the run
    /// is closed to this pass with the limit. It takes no memory and never waits.
    pub fn pop(&self, pass: &mut RunPass, m: u32, limit: u64) -> PopReply
        requires own { IsPass self.now.runs pass.old }
        requires queue { m < length self.now.runs }
        requires goes_on { (visit_at pass.old m).closed ≡ None }
        ensures place { Pops (run_at self.now.runs m) limit result (visit_at pass.old m) (visit_at pass.new m) }
        ensures others { pass.new ≡ slice_set pass.old m (visit_at pass.new m) }
        ensures leaf { IfLeaf result (Gives (run_at self.now.runs m) limit (visit_at pass.old m) (visit_at pass.new m)) }
        ensures closed { IfClosed result (Shuts (run_at self.now.runs m) limit (visit_at pass.old m) (visit_at pass.new m)) }
        ensures own { IsPass self.now.runs pass.new }
    {
        self.runs[m as usize].pop(&mut pass.visits[m as usize], limit)
    }

    /// Closes the runs, with all passes back. It takes no memory and never waits.
    pub fn close(self, mut passes: Vec<RunPass>) -> RunsClosed
        requires all { vec_len passes ≡ self.callers }
        requires own { All (IsPass self.runs) passes.items }
        ensures { AreLines self.runs passes.items result }
    {
        let Runs {
            mut runs,
            mut lines,
            callers: _,
        } = self;
        while let Some(run) = runs.pop() {
            let line = close_run(run, runs.len(), &mut passes);
            lines.push_front_reserved(line);
        }
        RunsClosed { lines }
    }
}
