//! What a tree depends on beside the collection.
ghost use Rattle.std.specs.Prelude.{◌≡◌, ◌≤◌};
ghost use Rattle.segment_sums.specs.Division.{division_of};

use breakpoints::Table;
use isax_word::Layout;
use segment_sums::Cuts;
use series_core::MAX_LENGTH;

/// How series become words, and how many members a leaf may have while its word can still be divided.
#[derive(Clone, Copy)]
pub struct Settings {
    /// How series become words.
    pub layout: Layout,
    /// The most members of a leaf whose word lacks a bit, from 1 to 65535.
    pub leaf_size: u32,
}

impl Settings {
    /// The settings for series of a length that are cut into segments.
    pub fn new(length: u32, segments: u32, table: Table, leaf_size: u32) -> Settings
        requires some_segments { 1 ≤ segments }
        requires few_segments { segments ≤ 16 }
        requires no_empty_segment { segments ≤ length }
        requires short_row { length ≤ MAX_LENGTH }
        ensures cuts { result.layout.cuts ≡ division_of length segments }
        ensures table { result.layout.table ≡ table }
        ensures leaf_size { result.leaf_size ≡ leaf_size }
    {
        let cuts = Cuts::new(length, segments);
        let layout = Layout { cuts, table };
        Settings { layout, leaf_size }
    }
}
