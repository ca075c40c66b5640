//! What a word depends on beside the series: how it is cut, and by which table its sums become symbols.
use breakpoints::Table;
use segment_sums::Cuts;

/// How series are turned into words.
#[derive(Clone, Copy)]
pub struct Layout {
    /// The cut points of each series.
    pub cuts: Cuts,
    /// The table of breakpoints.
    pub table: Table,
}
