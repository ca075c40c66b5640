//! Closed runs: which entries of each run were taken, and which limit it keeps.
ghost use Rattle.std.specs.Prelude.{◌≡◌, ℕ, ◌+◌, ◌<◌, ◌≤◌, [], true, false, All, Contains};
ghost use Rattle.std.specs.Prelude.{take, map, length, vec_len, vec_capacity};
ghost use Rattle.series_core.specs.EntryOrder.{IsAscending};
ghost use Rattle.sealed_runs.specs.Visits.{IsVisit, visit_at, column};
ghost use Rattle.sealed_runs.specs.Closed.{IsLine, line_at};
ghost use Rattle.sealed_runs.specs.Sealing.{IsReady};
ghost use Rattle.sealed_runs.specs.Tallied.{Takes};

use crate::pass::RunPass;
use crate::run::Run;
use crate::tally::{Tally, gather};
use series_core::Entry;
use std::collections::VecDeque;
use std::marker::Model;

/// The entries that were taken from one run, ascending, and the limit that it keeps.
#[derive(Drop)]
pub struct Line {
    pub(crate) taken: Vec<Entry>,
    pub(crate) kept: Option<u64>,
}

impl Model for Line {
    ghost use Rattle.sealed_runs.specs.Closed.{Line as Seen};

    ghost Value = { Seen };

    ghost view = { λ l. record { taken = l.taken.items; kept = l.kept } };

    ghost invariant = { λ l. Unit {0} };
}

/// Closed runs, seen as their lines, one for each run.
#[derive(Drop)]
pub struct RunsClosed {
    pub(crate) lines: VecDeque<Line>,
}

impl Model for RunsClosed {
    ghost use Rattle.std.specs.Prelude.{List};
    ghost use Rattle.sealed_runs.specs.Closed.{Line as Seen};

    ghost Value = { List Seen };

    ghost view = { λ r. r.lines.items };

    ghost invariant = { λ r. Unit {0} };
}

impl RunsClosed {
    /// The entries of all Leaf replies from run m, which is below the number of runs: ascending, and each once. It
    /// takes no memory.
    pub fn taken(&self, m: u32) -> &[Entry]
        requires { m < length self.now }
        ensures { result.now ≡ (line_at self.now m).taken }
    {
        self.lines[m as usize].taken.as_slice()
    }

    /// The least limit of the Closed replies of run m, which is below the number of runs, and `None` exactly where
    /// there were none. It takes no memory.
    pub fn kept(&self, m: u32) -> Option<u64>
        requires { m < length self.now }
        ensures { result ≡ (line_at self.now m).kept }
    {
        self.lines[m as usize].kept
    }
}

fn stands_in(places: &[u64], place: u64) -> bool
    ensures yes { result ≡ true → Contains places.now place }
    ensures no { result ≡ false → ¬ (Contains places.now place) }
{
    places.contains(&place)
}

/// Moves the entries of all places below `reach` that were not refused to `taken`, in their order.
fn take_entries(entries: &[Entry], mut taken: Vec<Entry>, reach: u64, refused: &[u64]) -> Vec<Entry>
    requires reach { reach ≤ length entries.now }
    requires room { (taken.items ≡ []) × (length entries.now ≤ vec_capacity taken) }
    requires ascending { IsAscending entries.now }
    ensures { Takes entries.now refused.now reach result.items }
{
    for place in 0..reach {
        if !stands_in(refused, place) {
            taken.push_reserved(entries[place as usize]);
        }
    }
    taken
}

/// Closes run m with the last visit, that of run m, of each pass.
pub(crate) fn close_run(run: Run, m: usize, passes: &mut Vec<RunPass>) -> Line
    requires ready { IsReady (vec_len passes.old) run }
    requires some { 0 < vec_len passes.old }
    requires each { All (λ p. length p ≡ m + 1) passes.old.items }
    requires own { All (λ p. IsVisit run (visit_at p m)) passes.old.items }
    ensures line { IsLine run (column passes.old.items m) result }
    ensures rest { passes.new.items ≡ map (take m) passes.old.items }
{
    let Run {
        claims,
        entries,
        taken,
        refused,
    } = run;
    let Tally {
        claims: drawn,
        reach,
        refused,
        kept,
    } = gather(passes, m, refused);
    claims.close(drawn);
    let taken = take_entries(&entries, taken, reach, &refused);
    Line { taken, kept }
}
