//! The tests of lengths: those of the series and of the queries, and the asked segments.

ghost use Rattle.std.specs.Prelude.{◌≡◌, IfOk, IfErr};
ghost use Rattle.search_run.specs.Plans.{Differs, HasSegments, TooMany};

use crate::status::Status;

/// Whether the series and the queries have one length.
pub fn check_lengths(series: u32, queries: u32) -> Result<(), Status>
    ensures ok { IfOk result (λ _. series ≡ queries) }
    ensures refused { IfErr result (Differs series queries) }
{
    if series == queries {
        Ok(())
    } else {
        Err(Status::Mismatch(series, queries))
    }
}

/// Whether a series of `length` values has as many segments as were asked for, if any were.
pub fn check_segments(segments: Option<u32>, length: u32) -> Result<(), Status>
    ensures ok { IfOk result (λ _. HasSegments segments length) }
    ensures refused { IfErr result (TooMany segments length) }
{
    match segments {
        Some(segments) if length < segments => Err(Status::Settings(segments, length)),
        _ => Ok(()),
    }
}
