//! A batch, and the parts that hold it: one for each reader.
ghost use Rattle.std.specs.Prelude.{◌≡◌, [], ◌∷◌, IfOk};

use crate::batch::Batch;
use outside::NoMemory;
use std::alloc::Global;
use std::collections::LinkedList;
use std::marker::Model;
use std::sync::Arc;

/// A hold on a batch. A clause sees the batch.
#[derive(Drop)]
pub struct BatchPart {
    batch: Arc<Batch, Global>,
}

impl Model for BatchPart {
    ghost use Rattle.std.specs.Arc.{arc_value};
    ghost use Rattle.live_collection.specs.declared.batch.Batch.{Batch};
    ghost use Rattle.std.specs.Coded.{codes};
    ghost use Rattle.live_collection.specs.contracts.batch.Batch as row;

    ghost Value = { Batch };

    ghost coded = { Prim.hlevel (codes, row.the_row.coded) };

    ghost view = { λ p. arc_value p.batch };
}

/// Parts, each in a block of its own with its link to the next.
pub type PartList = LinkedList<BatchPart, Global>;

impl BatchPart {
    /// The first part of a batch.
    pub fn new(alloc: Global, batch: Batch) -> Result<BatchPart, NoMemory>
        ensures { IfOk result (λ p. p ≡ batch) }
    {
        match Arc::new(alloc, batch) {
            Ok(batch) => Ok(BatchPart { batch }),
            Err(_) => Err(NoMemory),
        }
    }

    /// One more part of the same batch.
    pub fn another(&self) -> Result<BatchPart, NoMemory>
        ensures { IfOk result (λ p. p ≡ self.now) }
    {
        let batch = Arc::try_clone(&self.batch)?;
        Ok(BatchPart { batch })
    }

    /// A list of one more part of the same batch.
    pub fn alone(&self, alloc: Global) -> Result<PartList, NoMemory>
        ensures { IfOk result (λ l. l ≡ self.now ∷ []) }
    {
        let part = self.another()?;
        let mut list = LinkedList::new(alloc);
        match list.push_back(part) {
            Ok(()) => Ok(list),
            Err(_) => Err(NoMemory),
        }
    }

    /// The batch.
    pub fn batch(&self) -> &Batch
        ensures { result.now ≡ self.now }
    {
        &self.batch
    }
}
