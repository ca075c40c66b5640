//! A collection gets its index: a new one, or that of a text. Its one rule: nothing of a text is believed.
ghost use Rattle.std.specs.Prelude.{◌≡◌, ◌≤◌, IfErr, IfOk};
ghost use Rattle.subtree_build.specs.Fits.{IsTreeOf};
ghost use Rattle.saved_index.specs.Loading.{Refuses};
ghost use Rattle.isearch_c.specs.Texts.{IsOfText};
ghost use Rattle.search_limits.specs.declared.numbers.TheConstants.{MOST_LEAF};

use crate::held::Searchable;
use outside::NoMemory;
use saved_index::{IndexFault, LoadedIndex, load_alone};
use series_core::{Flat, Rows};
use std::alloc::Global;
use subtree_build::{Settings, build_alone};

impl Searchable {
    /// The collection with its index, which one worker builds in this thread.
    pub fn of_rows(alloc: Global, rows: Flat, settings: &Settings) -> Result<Searchable, NoMemory>
        requires length { rows.points ≡ settings.now.layout.cuts.row_length }
        requires leaf { (1 ≤ settings.now.leaf_size) × (settings.now.leaf_size ≤ MOST_LEAF) }
        ensures rows { IfOk result (λ s. s.rows ≡ rows) }
        ensures settings { IfOk result (λ s. s.settings ≡ settings.now) }
        ensures tree { IfOk result (λ s. IsTreeOf rows settings.now.layout settings.now.leaf_size s.index) }
    {
        // for the fact that the rows are a collection
        let _count = rows.count();
        let index = build_alone(alloc, &rows, settings)?;
        Ok(Searchable {
            rows,
            settings: *settings,
            index,
        })
    }

    /// The collection with the index of a text, of which nothing is believed.
    pub fn of_text(alloc: Global, rows: Flat, text: &[u8]) -> Result<Searchable, IndexFault>
        ensures loaded { IfOk result (IsOfText rows text.now) }
        ensures refused { IfErr result (Refuses rows text.now) }
    {
        let LoadedIndex { settings, index } = match load_alone(alloc, text, &rows) {
            Ok(loaded) => loaded,
            Err(fault) => return Err(fault),
        };
        Ok(Searchable {
            rows,
            settings,
            index,
        })
    }
}
