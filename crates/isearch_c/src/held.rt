//! What a handle keeps: a collection with its index, shared by all handles that were made from one. Its one rule: an index that is kept fits
//! its collection and has a text.
ghost use Rattle.std.specs.Prelude.{◌≡◌, IfOk, length};
ghost use Rattle.std.specs.Arc.{arc_value};
ghost use Rattle.subtree_build.specs.Fits.{Fits};
ghost use Rattle.saved_index.specs.IndexText.{CanSave};

use outside::NoMemory;
use series_core::Flat;
use std::alloc::Global;
use std::sync::Arc;
use subtree_build::{Index, Settings};

/// A collection with its index, which fits it and has a text.
#[derive(Drop)]
pub struct Searchable {
    /// The series.
    pub rows: Flat,
    /// What their index depends on beside them.
    pub settings: Settings,
    /// Their index.
    pub index: Index,
    ghost points: { rows.points ≡ settings.layout.cuts.row_length },
    ghost fits: { ∥ Fits rows settings.layout index ∥₁ },
    ghost saves: { ∥ CanSave settings (length rows.series) index ∥₁ },
}

/// A share of a collection with its index.
#[derive(Drop)]
pub struct Held {
    pub searchable: Arc<Searchable, Global>,
}

impl Held {
    /// The first share, in a box.
    pub fn boxed(alloc: Global, searchable: Searchable) -> Result<Box<Held>, NoMemory>
        ensures { IfOk result (λ b. arc_value b.value.searchable ≡ searchable) }
    {
        let Ok(searchable) = Arc::new(alloc, searchable) else {
            return Err(NoMemory);
        };
        match Box::new(alloc, Held { searchable }) {
            Ok(held) => Ok(held),
            Err(_) => Err(NoMemory),
        }
    }

    /// One more share of the same, in a box.
    pub fn another(&self, alloc: Global) -> Result<Box<Held>, NoMemory>
        ensures { IfOk result (λ b. arc_value b.value.searchable ≡ arc_value self.now.searchable) }
    {
        let searchable = Arc::try_clone(&self.searchable)?;
        match Box::new(alloc, Held { searchable }) {
            Ok(held) => Ok(held),
            Err(_) => Err(NoMemory),
        }
    }
}
