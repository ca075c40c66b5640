//! All pairs within a radius: a team of workers finds them, or one worker alone, and one sort puts them in order.
ghost use Rattle.std.specs.Prelude.{◌≡◌, ◌≤◌, IfOk, length};
ghost use Rattle.series_core.specs.Answer.{within};
ghost use Rattle.subtree_build.specs.Fits.{Fits};

use crate::team::{begin, draw_alone, draw_together, end};
use crate::walk::RadiusSearch;
use isax_word::Layout;
use lower_bound::QueryView;
use mean_bound::MeanView;
use outside::{Gate, NoMemory};
use search_limits::MOST_WORKERS;
use series_core::{Pair, Rows};
use std::alloc::Global;
use std::thread::Threads;
use subtree_build::Index;

/// All pairs of series whose distance to the query is at most the radius, nearer ones first, of two as near the one
/// with the smaller number: whatever the number of workers, from 1 to 64, and whichever root children each of them
/// draws. `gate.pass(worker, turn)` comes before each draw of some root children in a row, turns counted from 0. It waits for nobody, and one
/// worker starts no thread.
pub fn within<T: Threads + Sync, R: Rows + Sync, G: Gate + Sync>(
    rt: &T,
    alloc: Global,
    rows: &R,
    index: &Index,
    layout: &Layout,
    query: &[i16],
    radius: u64,
    workers: u32,
    gate: &G,
) -> Result<Vec<Pair>, NoMemory>
    requires fits { Fits (R.collection rows.now) layout.now index.now }
    requires length { (R.collection rows.now).points ≡ layout.now.cuts.row_length }
    requires query { length query.now ≡ (R.collection rows.now).points }
    requires workers { (1 ≤ workers) × (workers ≤ MOST_WORKERS) }
    ensures { IfOk result (λ pairs. pairs.items ≡ within (R.collection rows.now) query.now radius) }
{
    let view = QueryView::new(layout, query);
    let means = MeanView::new(&layout.cuts, query);
    let search = RadiusSearch::new(rows, index, &view, &means, query, radius, workers);
    let (claims, mut team) = begin(alloc, &search, workers)?;
    draw_together(rt, alloc, &search, &claims, gate, &mut team);
    end(alloc, &search, claims, team)
}

/// The same pairs, found by one worker in the caller's thread: it wants no leave to start threads, and passes no gate.
pub fn within_alone<R: Rows>(
    alloc: Global,
    rows: &R,
    index: &Index,
    layout: &Layout,
    query: &[i16],
    radius: u64,
) -> Result<Vec<Pair>, NoMemory>
    requires fits { Fits (R.collection rows.now) layout.now index.now }
    requires length { (R.collection rows.now).points ≡ layout.now.cuts.row_length }
    requires query { length query.now ≡ (R.collection rows.now).points }
    ensures { IfOk result (λ pairs. pairs.items ≡ within (R.collection rows.now) query.now radius) }
{
    let view = QueryView::new(layout, query);
    let means = MeanView::new(&layout.cuts, query);
    let search = RadiusSearch::new(rows, index, &view, &means, query, radius, 1);
    let (claims, mut team) = begin(alloc, &search, 1)?;
    draw_alone(alloc, &search, &claims, &mut team);
    end(alloc, &search, claims, team)
}
