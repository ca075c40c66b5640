//! What C says of rows, and the tests of it. Its one rule: nothing that C says is taken for an index's settings before it was tested.
ghost use Rattle.std.specs.Prelude.{◌≡◌, true};
ghost use Rattle.isearch_c.specs.Faults.{settings_fit, settings_of};

use breakpoints::Table;
use search_limits::{MOST_LEAF, MOST_SEGMENTS};
use series_core::MAX_LENGTH;
use subtree_build::Settings;

/// How long rows are, how they become words, and how many of them a leaf may have.
#[repr(C)]
#[derive(Clone, Copy)]
pub struct IsearchSettings {
    /// How many values a row has, from 1 to 65536.
    pub length: u32,
    /// Into how many segments a row is cut, from 1 to 16 and no more than it has values.
    pub segments: u32,
    /// The most rows of a leaf whose word can still be divided, from 1 to 65535.
    pub leaf: u32,
    /// Whether breakpoints lie closer the nearer they are to 0, as serves most data; else they lie 256 apart.
    pub bent: bool,
}

impl IsearchSettings {
    /// Whether the segments and the leaf size serve rows of this length, which is within its limits.
    pub fn fit(&self) -> bool
        ensures { result ≡ settings_fit self.now }
    {
        1 <= self.segments
            && self.segments <= MOST_SEGMENTS
            && self.segments <= self.length
            && self.length <= MAX_LENGTH
            && 1 <= self.leaf
            && self.leaf <= MOST_LEAF
    }

    /// The settings of an index.
    pub fn settings(&self) -> Settings
        requires { settings_fit self.now ≡ true }
        ensures { result ≡ settings_of self.now }
    {
        let table = if self.bent { Table::Bent } else { Table::Flat };
        Settings::new(self.length, self.segments, table, self.leaf)
    }
}
