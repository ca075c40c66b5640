//! How series become words, by the options of a command.

ghost use Rattle.std.specs.Prelude.{◌≡◌, ◌≤◌, IfSome};
ghost use Rattle.command_words.specs.Limits.{IsWithin};
ghost use Rattle.search_limits.specs.declared.numbers.TheConstants.{MOST_SEGMENTS};
ghost use Rattle.series_core.specs.declared.rows.TheConstants.{MAX_LENGTH};
ghost use Rattle.search_run.specs.Plans.{HasSegments};
ghost use Rattle.search_run.specs.Layouts.{layout_of};

use breakpoints::Table;
use isax_word::Layout;
use search_limits::MOST_SEGMENTS;
use segment_sums::Cuts;

/// The layout of series of `length` values: with the asked segments, or with as many as there may be.
pub fn layout_of(length: u32, segments: Option<u32>, table: Table) -> Layout
    requires some_point { 1 ≤ length }
    requires length_limit { length ≤ MAX_LENGTH }
    requires within { IfSome segments (IsWithin 1 MOST_SEGMENTS) }
    requires fits { HasSegments segments length }
    ensures layout { result ≡ layout_of length segments table }
    ensures length { result.cuts.row_length ≡ length }
{
    let count = match segments {
        Some(segments) => segments,
        None => length.min(MOST_SEGMENTS),
    };
    Layout {
        cuts: Cuts::new(length, count),
        table,
    }
}
