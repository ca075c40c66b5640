//! The text of a collection that is written anew, with a label for each series.

ghost use Rattle.std.specs.Prelude.{◌≡◌, IfOk};
ghost use Rattle.search_run.specs.Conversions.{converted_text};
ghost use Rattle.search_run.specs.Pairs.{HasLabels};

use outside::NoMemory;
use series_file::{Loaded, write_numbered, write_series};
use std::alloc::Global;

/// The text of version 2 of a collection with its labels, or with its numbers.
pub fn converted(alloc: Global, loaded: &Loaded) -> Result<Vec<u8>, NoMemory>
    requires { HasLabels loaded.now }
    ensures { IfOk result (λ text. text.items ≡ converted_text loaded.now) }
{
    match &loaded.labels {
        Some(labels) => write_series(alloc, &loaded.rows, Some(labels.items.as_slice())),
        None => write_numbered(alloc, &loaded.rows),
    }
}
