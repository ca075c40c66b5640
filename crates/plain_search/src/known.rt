//! Points whose searches are worked by hand, with the settings and the trees over them.
ghost use Rattle.std.specs.Prelude.{◌≡◌, IfOk};
ghost use Rattle.segment_sums.specs.Division.{division_of};
ghost use Rattle.subtree_build.specs.Fits.{Fits};

use breakpoints::Table;
use outside::{NoGate, NoMemory};
use series_core::Flat;
use std::alloc::Global;
use std::thread::Threads;
use subtree_build::{Index, Settings, build};

/// Points, the settings of a tree, and that tree over them.
pub type Grown = (Flat, Settings, Index);

/// Two series of one value, -1 and 1, and their tree.
pub fn two_points<T: Threads + Sync>(rt: &T, alloc: Global) -> Result<Grown, NoMemory>
    ensures points { IfOk result (λ r. r.0.points ≡ 1) }
    ensures cuts { IfOk result (λ r. r.1.layout.cuts ≡ division_of 1 1) }
    ensures fits { IfOk result (λ r. Fits r.0 r.1.layout r.2) }
{
    let rows = Flat::from_values(1, [-1, 1].to_vec(alloc)?);
    let settings = Settings::new(1, 1, Table::Flat, 1000);
    grown(rt, alloc, rows, settings)
}

/// Three series of two values, (0,0), (0,20000) and (300,0), and their tree, in leaves of one.
pub fn three_points<T: Threads + Sync>(rt: &T, alloc: Global) -> Result<Grown, NoMemory>
    ensures points { IfOk result (λ r. r.0.points ≡ 2) }
    ensures cuts { IfOk result (λ r. r.1.layout.cuts ≡ division_of 2 2) }
    ensures fits { IfOk result (λ r. Fits r.0 r.1.layout r.2) }
{
    let rows = Flat::from_values(2, [0, 0, 0, 20000, 300, 0].to_vec(alloc)?);
    let settings = Settings::new(2, 2, Table::Flat, 1);
    grown(rt, alloc, rows, settings)
}

/// Rows with their tree by these settings.
fn grown<T: Threads + Sync>(
    rt: &T,
    alloc: Global,
    rows: Flat,
    settings: Settings,
) -> Result<Grown, NoMemory>
    requires { settings.layout.cuts.row_length ≡ rows.points }
    ensures rows { IfOk result (λ r. r.0 ≡ rows) }
    ensures settings { IfOk result (λ r. r.1 ≡ settings) }
    ensures fits { IfOk result (λ r. Fits r.0 r.1.layout r.2) }
{
    let index = build(rt, alloc, &rows, &settings, 1, &NoGate)?;
    Ok((rows, settings, index))
}
