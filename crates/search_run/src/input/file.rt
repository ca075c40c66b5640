//! Opening a named file, and loading it as a series file. A refusal is a status that tells the file's role.

ghost use Rattle.std.specs.Prelude.{◌≡◌, ◌≢◌, ◌≤◌, OnOk, IfOk, IfErr};
ghost use Rattle.outside.specs.Files.{Opens};
ghost use Rattle.series_file.specs.Stages.{IsForm};
ghost use Rattle.search_run.specs.Traffic.{read_from};
ghost use Rattle.search_run.specs.Loads.{HoldsFile, RefusesFile, RefusesNamed, form_of, refusal_of};
ghost use Rattle.search_run.specs.declared.status.Status.{Status};
ghost use Rattle.search_run.specs.declared.status.Which.{Which};

use crate::status::{Status, Which};
use outside::{Files, OpenFault};
use series_file::{FileError, Form, Loaded, read_series};
use std::alloc::Global;

/// Opens the file of this name, which has this role.
pub fn open<F: Files>(files: &mut F, name: &str, which: Which) -> Result<(), Status>
    ensures opened { OnOk result (Opens (F.held files.old) name.now (F.at files.new) (F.left files.new)) }
    ensures refused { IfErr result (RefusesNamed which (λ _. ⊥)
        (read_from F.Files files.old files.new) name.now) }
    ensures kept { F.held files.new ≡ F.held files.old }
    ensures counts { (F.faults files.old ≤ F.faults files.new) × (F.misses files.old ≤ F.misses files.new) }
    ensures reliable { F.reliable files.old → ((w : Which) → result ≢ Err (Status.ReadFault w)) × F.reliable files.new }
{
    match files.open_file(name) {
        Ok(()) => Ok(()),
        Err(OpenFault::Absent) => Err(Status::Missing(which)),
        Err(OpenFault::Failed) => Err(Status::ReadFault(which)),
        Err(OpenFault::NoMemory) => Err(Status::Memory),
    }
}

/// Loads the series file of this name, which has this role, in this form.
pub fn load<F: Files>(
    alloc: Global,
    files: &mut F,
    name: &str,
    which: Which,
    form: Form,
) -> Result<Loaded, Status>
    requires { IsForm form }
    ensures found { IfOk result (HoldsFile (F.held files.old) name.now form) }
    ensures refused { IfErr result (RefusesFile which
        (read_from F.Files files.old files.new) name.now form) }
    ensures kept { F.held files.new ≡ F.held files.old }
    ensures counts { (F.faults files.old ≤ F.faults files.new) × (F.misses files.old ≤ F.misses files.new) }
    ensures reliable { F.reliable files.old → ((w : Which) → result ≢ Err (Status.ReadFault w)) × F.reliable files.new }
{
    open(files, name, which)?;
    match read_series(alloc, files, form) {
        Ok(loaded) => Ok(loaded),
        Err(cause) => Err(refusal(which, cause)),
    }
}

// The status for an error of a file.
fn refusal(which: Which, cause: FileError) -> Status
    ensures { result ≡ refusal_of which cause }
{
    match cause {
        FileError::ReadFault => Status::ReadFault(which),
        FileError::NoMemory => Status::Memory,
        _ => Status::Format(which, cause),
    }
}

/// How series files are spelled: with a header, or raw where a length is given.
pub fn form_of(raw: Option<u32>) -> Form
    ensures { result ≡ form_of raw }
{
    match raw {
        Some(length) => Form::Raw(length),
        None => Form::Headed,
    }
}
