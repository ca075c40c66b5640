//! The saved index of a name, loaded over the series that are searched. Nothing in its bytes is believed before it is tested.

ghost use Rattle.std.specs.Prelude.{◌≡◌, ◌≢◌, ◌≤◌, IfOk, IfErr};
ghost use Rattle.search_run.specs.Finding.{IsTreeFor};
ghost use Rattle.search_run.specs.Indexes.{IsFitIndex, RefusesIndex, index_refusal};
ghost use Rattle.search_run.specs.Loads.{HoldsBytes};
ghost use Rattle.search_run.specs.Traffic.{read_from};
ghost use Rattle.search_run.specs.declared.status.Status.{Status};
ghost use Rattle.search_run.specs.declared.status.Which.{Which};

use crate::crew::Crew;
use crate::input::file::open;
use crate::status::{Status, Which};
use crate::tree::Tree;
use crate::tuning::LEAST_SEARCHES_FOR_TABLES;
use outside::{Files, Gate};
use saved_index::{IndexFault, load_with};
use series_core::Flat;
use std::thread::Threads;

/// Loads the saved index of this name over these series, by at least one worker. Means and codes are made beside its tree where so many
/// searches pay for them.
pub fn load_index<T: Threads + Sync, F: Files, G: Gate + Sync>(
    crew: &Crew<'_, T, G>,
    files: &mut F,
    name: &str,
    rows: &Flat,
    workers: u32,
    searches: u32,
) -> Result<Tree, Status>
    requires { 1 ≤ workers }
    ensures fits { IfOk result (IsTreeFor rows.now) }
    ensures held { IfOk result (λ _. HoldsBytes (F.held files.old) name.now (IsFitIndex rows.now)) }
    ensures refused { IfErr result (RefusesIndex rows.now
        (read_from F.Files files.old files.new) name.now) }
    ensures kept { F.held files.new ≡ F.held files.old }
    ensures reliable { F.reliable files.old → (w : Which) → result ≢ Err (Status.ReadFault w) }
{
    open(files, name, Which::Index)?;
    let tables = searches >= LEAST_SEARCHES_FOR_TABLES;
    match load_with(crew.rt, crew.alloc, files, rows, workers, tables) {
        Ok(loaded) => Ok(Tree {
            index: loaded.index,
            settings: loaded.settings,
        }),
        Err(cause) => Err(refusal(cause)),
    }
}

// The status for a refusal of a saved index.
fn refusal(cause: IndexFault) -> Status
    ensures { result ≡ index_refusal cause }
{
    match cause {
        IndexFault::ReadFault => Status::ReadFault(Which::Index),
        IndexFault::NoMemory => Status::Memory,
        _ => Status::Index(cause),
    }
}
