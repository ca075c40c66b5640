//! Windows of one long series: the nearest that lie apart.
ghost use Rattle.std.specs.Prelude.{◌≡◌, ◌-◌, ◌+◌, ◌*◌, ◌≤◌, IfOk, length};
ghost use Rattle.series_core.specs.Answer.{answer};
ghost use Rattle.window_rows.specs.Choice.{chosen_apart, enough};
ghost use Rattle.window_rows.specs.Windows.{collection_of, HasFewValues};

use crate::nearest::nearest;
use outside::NoMemory;
use series_core::{MAX_BEST, MAX_LENGTH, PairList};
use std::alloc::Global;
use std::thread::Threads;
use window_rows::{Windows, choose, enough_law};

/// The `k` windows of a long series that are nearest to a query and begin at least `apart` values from one another. No window is
/// copied. As many of the nearest windows are found as are always enough to choose from.
pub fn apart<T: Threads + Sync>(
    rt: &T,
    alloc: Global,
    series: &[i16],
    query: &[i16],
    k: u32,
    apart: u32,
) -> Result<PairList, NoMemory>
    requires length { (1 ≤ length query.now) × (length query.now ≤ MAX_LENGTH) }
    requires few { HasFewValues series.now }
    requires apart { (1 ≤ apart) × (apart ≤ 512) }
    requires k { (1 ≤ k) × (enough apart k ≤ MAX_BEST) }
    ensures { let c = collection_of series.now (length query.now) 1 in
        IfOk result (λ found. found ≡ chosen_apart apart (answer c query.now (length c.series)) k) }
{
    enough_law();
    let rows = Windows::new(series, query.len() as u32, 1);
    let wanted = (k - 1) * (2 * apart - 1) + 1;
    let found = nearest(rt, alloc, &rows, query, wanted)?;
    choose(alloc, &found.items, apart, k)
}
