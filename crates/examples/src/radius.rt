//! All series of a collection within a radius.
ghost use Rattle.std.specs.Prelude.{◌≡◌, IfOk, length};
ghost use Rattle.series_core.specs.Answer.{within};

use breakpoints::Table;
use outside::{NoGate, NoMemory};
use series_core::{Pair, Rows};
use std::alloc::Global;
use std::thread::Threads;
use subtree_build::{Settings, build};

/// All rows whose squared distance to a query is at most the radius: four workers build a tree of the rows, and four search it.
pub fn within<T: Threads + Sync, R: Rows + Sync>(
    rt: &T,
    alloc: Global,
    rows: &R,
    query: &[i16],
    radius: u64,
) -> Result<Vec<Pair>, NoMemory>
    requires length { length query.now ≡ (R.collection rows.now).points }
    ensures { IfOk result (λ pairs. pairs.items ≡ within (R.collection rows.now) query.now radius) }
{
    let length = rows.length();
    let settings = Settings::new(length, length.min(16), Table::Bent, 128);
    let index = build(rt, alloc, rows, &settings, 4, &NoGate)?;
    range_query::within(
        rt,
        alloc,
        rows,
        &index,
        &settings.layout,
        query,
        radius,
        4,
        &NoGate,
    )
}
