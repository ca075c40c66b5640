//! The certificate of a name, read and checked against the series and the queries that it speaks of.

ghost use Rattle.std.specs.Prelude.{◌≡◌, ◌≢◌, ◌≤◌, length, IfOk, IfErr, option_copied};
ghost use Rattle.command_words.specs.Limits.{OptionsKeepLimits};
ghost use Rattle.search_run.specs.Traffic.{read_from};
ghost use Rattle.search_run.specs.Certificates.{IsFault, IsLong, IsValid, RefusesBytes};
ghost use Rattle.search_run.specs.Certificates.{RefusesCertificate, most_bytes, subject_of};
ghost use Rattle.search_run.specs.Loads.{HoldsBytes};
ghost use Rattle.search_run.specs.Pairs.{IsFitting};
ghost use Rattle.search_run.specs.declared.status.Status.{Status};
ghost use Rattle.search_run.specs.declared.status.Which.{Which};

use crate::input::file::open;
use crate::input::pair::Both;
use crate::layout::layout_of;
use crate::status::{CertFault, Status, Which};
use certificate::{CertError, Reject, check, read};
use command_words::Options;
use outside::{AllError, Files, read_all};
use search_limits::MOST_TEXT_BYTES;
use series_core::{LabelList, Rows};
use std::alloc::Global;

/// Reads the certificate of this name, and checks it against both files.
pub fn check_certificate<F: Files>(
    alloc: Global,
    files: &mut F,
    name: &str,
    both: &Both,
    options: &Options,
) -> Result<(), Status>
    requires options { OptionsKeepLimits options.now }
    requires fitting { IsFitting options.now both.now.series both.now.queries }
    ensures valid { IfOk result (λ _. HoldsBytes (F.held files.old) name.now
        (IsValid (subject_of both.now.series both.now.queries options.now))) }
    ensures refused { IfErr result (RefusesCertificate
        (IsFault (subject_of both.now.series both.now.queries options.now))
        (read_from F.Files files.old files.new) name.now) }
    ensures kept { F.held files.new ≡ F.held files.old }
    ensures reliable { F.reliable files.old → (w : Which) → result ≢ Err (Status.ReadFault w) }
{
    let bytes = read_bytes(alloc, files, name)?;
    check_bytes(alloc, &bytes, both, options)
}

// All bytes of the certificate of this name.
fn read_bytes<F: Files>(alloc: Global, files: &mut F, name: &str) -> Result<Vec<u8>, Status>
    ensures short { IfOk result (λ bytes. length bytes.items ≤ most_bytes) }
    ensures held { IfOk result (λ bytes. HoldsBytes (F.held files.old) name.now (λ held. bytes.items ≡ held)) }
    ensures refused { IfErr result (RefusesCertificate IsLong
        (read_from F.Files files.old files.new) name.now) }
    ensures kept { F.held files.new ≡ F.held files.old }
    ensures reliable { F.reliable files.old → (w : Which) → result ≢ Err (Status.ReadFault w) }
{
    open(files, name, Which::Certificate)?;
    match read_all(alloc, files, MOST_TEXT_BYTES) {
        Ok(bytes) => Ok(bytes),
        Err(AllError::Longer) => Err(Status::Invalid(CertFault::TooLong)),
        Err(AllError::ReadFault) => Err(Status::ReadFault(Which::Certificate)),
        Err(AllError::NoMemory) => Err(Status::Memory),
    }
}

// Whether bytes are a certificate that holds.
fn check_bytes(alloc: Global, bytes: &[u8], both: &Both, options: &Options) -> Result<(), Status>
    requires options { OptionsKeepLimits options.now }
    requires fitting { IsFitting options.now both.now.series both.now.queries }
    requires short { length bytes.now ≤ most_bytes }
    ensures valid { IfOk result (λ _. IsValid (subject_of both.now.series both.now.queries options.now) bytes.now) }
    ensures refused { IfErr result
        (RefusesBytes (IsFault (subject_of both.now.series both.now.queries options.now)) bytes.now) }
{
    let rows = &both.series.rows;
    let layout = layout_of(rows.length(), options.segments, options.table);
    let labels = lend(&both.series.labels);
    let blocks = match read(alloc, bytes, layout.cuts.segments(), labels.is_some()) {
        Ok(blocks) => blocks,
        Err(CertError::Line(at)) => return Err(Status::Invalid(CertFault::Line(at))),
        Err(CertError::NoMemory) => return Err(Status::Memory),
    };
    let queries = &both.queries.rows;
    match check(rows, labels, queries, options.k, &layout, &blocks) {
        Ok(()) => Ok(()),
        Err(Reject::NoMemory) => Err(Status::Memory),
        Err(reject) => Err(Status::Invalid(CertFault::Rejected(reject))),
    }
}

// Lends labels, where there are any.
fn lend(labels: &Option<LabelList>) -> Option<&[u64]>
    ensures { option_copied result ≡ labels.now }
{
    match labels {
        Some(labels) => Some(&labels.items),
        None => None,
    }
}
