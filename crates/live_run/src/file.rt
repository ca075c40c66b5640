//! Opening a named file, and loading it as a series file. A refusal is a status that tells the line that names the file.

ghost use Rattle.std.specs.Prelude.{◌≡◌, ◌≤◌, OnOk, IfOk, IfErr};
ghost use Rattle.outside.specs.Files.{Opens};
ghost use Rattle.series_core.specs.Collection.{IsCollection};
ghost use Rattle.live_run.specs.Loads.{FitsLength, HoldsFile, RefusesFile, RefusesFitting, RefusesNamed, refusal_of};
ghost use Rattle.run_traffic.specs.Traffic.{EndsReading, Reading, read_from};

use crate::status::LiveStatus;
use live_script::NamedFile;
use outside::{Files, OpenFault};
use series_core::{Flat, Rows};
use series_file::{FileError, Form, read_series};
use std::alloc::Global;

/// Opens the file of this name, which this line names; line 0 stands for the script itself.
pub fn open<F: Files>(files: &mut F, name: &str, line: u32) -> Result<(), LiveStatus>
    ensures opened { OnOk result (Opens (F.held files.old) name.now (F.at files.new) (F.left files.new)) }
    ensures refused { IfErr result (RefusesNamed line (λ _. ⊥)
        (read_from F.Files files.old files.new) name.now) }
    ensures kept { F.held files.new ≡ F.held files.old }
    ensures counts { (F.faults files.old ≤ F.faults files.new) × (F.misses files.old ≤ F.misses files.new) }
{
    match files.open_file(name) {
        Ok(()) => Ok(()),
        Err(OpenFault::Absent) => Err(LiveStatus::Missing(line)),
        Err(OpenFault::Failed) => Err(LiveStatus::ReadFault(line)),
        Err(OpenFault::NoMemory) => Err(LiveStatus::Memory),
    }
}

// Loads the series of a named file.
fn load<F: Files>(alloc: Global, files: &mut F, file: &NamedFile) -> Result<Flat, LiveStatus>
    ensures holds { IfOk result (HoldsFile (F.held files.old) file.now.name) }
    ensures refused { IfErr result (RefusesFile
        (read_from F.Files files.old files.new) file.now) }
    ensures kept { F.held files.new ≡ F.held files.old }
    ensures counts { (F.faults files.old ≤ F.faults files.new) × (F.misses files.old ≤ F.misses files.new) }
{
    open(files, file.name.text.as_str(), file.line)?;
    match read_series(alloc, files, Form::Headed) {
        Ok(loaded) => Ok(loaded.rows),
        Err(cause) => Err(refusal(file.line, cause)),
    }
}

/// Loads the series of a named file, whose length is that of the first file where there is one.
pub fn load_fitting<F: Files>(
    alloc: Global,
    files: &mut F,
    file: &NamedFile,
    want: Option<u32>,
) -> Result<Flat, LiveStatus>
    ensures holds { IfOk result (HoldsFile (F.held files.old) file.now.name) }
    ensures length { IfOk result (λ rows. FitsLength want rows.points) }
    ensures sound { IfOk result IsCollection }
    ensures refused { (whole : Reading)
        → EndsReading whole (read_from F.Files files.old files.new)
        → IfErr result (RefusesFitting whole want file.now) }
    ensures kept { F.held files.new ≡ F.held files.old }
    ensures counts { (F.faults files.old ≤ F.faults files.new) × (F.misses files.old ≤ F.misses files.new) }
{
    let rows = load(alloc, files, file)?;
    let have = rows.length();
    match want {
        Some(want) if have != want => Err(LiveStatus::Mismatch(file.line, have, want)),
        _ => Ok(rows),
    }
}

// The status for an error of a file that this line names.
fn refusal(line: u32, cause: FileError) -> LiveStatus
    ensures { result ≡ refusal_of line cause }
{
    match cause {
        FileError::ReadFault => LiveStatus::ReadFault(line),
        FileError::NoMemory => LiveStatus::Memory,
        _ => LiveStatus::Format(line, cause),
    }
}
