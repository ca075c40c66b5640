//! Trees with nothing beside them.
ghost use Rattle.subtree_build.specs.Fits.{Fits};

use series_core::Flat;
use subtree_build::{Index, Settings};

/// The same tree, with its tables or with nothing beside it.
pub fn tree_with(rows: &Flat, settings: &Settings, index: Index, tables: bool) -> Index
    requires { Fits rows.now settings.now.layout index }
    ensures { Fits rows.now settings.now.layout result }
{
    let _ = rows;
    let _ = settings;
    if tables {
        index
    } else {
        index.without_tables()
    }
}
