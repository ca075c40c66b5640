//! The command `verify`: a certificate, read and checked against the series and the queries that it speaks of.
//! It is opened only once both series files are read and fit each other and the asked segments.

ghost use Rattle.command_words.specs.Limits.{OptionsKeepLimits};
ghost use Rattle.search_run.specs.Commands.{verify_plan};
ghost use Rattle.search_run.specs.Serves.{Serves, plan_by};

use crate::input::certificate_file::check_certificate;
use crate::input::pair::{SearchFiles, read_both};
use crate::status::Status;
use command_words::Text;
use outside::{Files, Sink, write_whole};
use std::alloc::Global;

/// Answers `verify`: reads both series files and the certificate, checks it, and writes that it holds.
pub fn answer_verify<F: Files, S: Sink>(
    alloc: Global,
    search: &SearchFiles<'_>,
    certificate: &Text,
    files: &mut F,
    out: &mut S,
) -> Result<(), Status>
    requires { OptionsKeepLimits search.now.options.now }
    ensures { Serves F.Files S.Sink (plan_by (λ series queries o. verify_plan series queries certificate.now o) search.now)
        files.old files.new out.old out.new result }
{
    let both = read_both(alloc, files, search)?;
    let name = certificate.text.as_str();
    check_certificate(alloc, files, name, &both, search.options)?;
    write_whole(out, b"valid\n")?;
    Ok(())
}
