//! The files of one group: the batch, then the queries, each loaded and compared in length with the first file of the script.

ghost use Rattle.std.specs.Prelude.{◌≡◌, ◌≤◌, ◌++◌, [], ◌∷◌, All, IfOk, IfErr, OnOk};
ghost use Rattle.std.specs.List.{AllByRecursion};
ghost use Rattle.live_script.specs.Grammar.{IsAsking, IsGroup};
ghost use Rattle.series_core.specs.Collection.{IsCollection};
ghost use Rattle.live_run.specs.Groups.{HoldAskings, HoldsGroup, RefusesAskings, RefusesGroup};
ghost use Rattle.live_run.specs.Replies.{CanAsk};
ghost use Rattle.run_traffic.specs.Traffic.{EndsReading, Reading, read_from};

use crate::file::load_fitting;
use crate::status::LiveStatus;
use live_script::{Asking, Group};
use outside::{Files, NoMemory};
use series_core::{Flat, Rows};
use std::alloc::Global;

/// The queries of one file, and how many nearest series each asks for.
#[derive(Drop)]
pub struct QueryFile {
    /// The queries, in order.
    pub queries: Flat,
    /// How many nearest series, 1 to 1024.
    pub k: u32,
}

/// What the files of a group hold.
#[derive(Drop)]
pub struct Contents {
    /// The series to append.
    pub batch: Flat,
    /// What to ask then, file after file.
    pub askings: Vec<QueryFile>,
}

/// Loads the files of a group in the order of their lines.
pub fn load_group<F: Files>(
    alloc: Global,
    files: &mut F,
    group: &Group,
    want: Option<u32>,
) -> Result<Contents, LiveStatus>
    requires { IsGroup group.now }
    ensures holds { IfOk result (HoldsGroup (F.held files.old) want group.now) }
    ensures sound { IfOk result (λ c. IsCollection c.batch) }
    ensures askable { IfOk result (λ c. All (CanAsk c.batch.points) c.askings.items) }
    ensures refused { (whole : Reading)
        → EndsReading whole (read_from F.Files files.old files.new)
        → IfErr result (RefusesGroup whole want group.now) }
    ensures kept { F.held files.new ≡ F.held files.old }
    ensures counts { (F.faults files.old ≤ F.faults files.new) × (F.misses files.old ≤ F.misses files.new) }
{
    let batch = load_fitting(alloc, files, &group.batch, want)?;
    let askings = load_askings(alloc, files, &group.askings.items, batch.length())?;
    Ok(Contents { batch, askings })
}

// Loads the files of askings in order, each of series of `points` values.
fn load_askings<F: Files>(
    alloc: Global,
    files: &mut F,
    askings: &[Asking],
    points: u32,
) -> Result<Vec<QueryFile>, LiveStatus>
    requires { AllByRecursion IsAsking askings.now }
    ensures holds { IfOk result (λ loaded. HoldAskings (F.held files.old) points askings.now loaded.items) }
    ensures askable { IfOk result (λ loaded. All (CanAsk points) loaded.items) }
    ensures refused { (whole : Reading)
        → EndsReading whole (read_from F.Files files.old files.new)
        → IfErr result (RefusesAskings whole points askings.now) }
    ensures kept { F.held files.new ≡ F.held files.old }
    ensures counts { (F.faults files.old ≤ F.faults files.new) × (F.misses files.old ≤ F.misses files.new) }
{
    let mut loaded = Vec::new(alloc);
    for asking in askings {
        let queries = load_fitting(alloc, files, &asking.queries, Some(points))?;
        put(&mut loaded, queries, asking.k)?;
    }
    Ok(loaded)
}

// Puts the queries of one more file behind the others.
fn put(loaded: &mut Vec<QueryFile>, queries: Flat, k: u32) -> Result<(), NoMemory>
    ensures { OnOk result (loaded.new.items ≡ loaded.old.items ++ record { queries = queries; k = k } ∷ []) }
{
    loaded.push(QueryFile { queries, k })?;
    Ok(())
}
