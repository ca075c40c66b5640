//! What is asked of the shared object, and what it replies.
ghost use Rattle.std.specs.Prelude.{◌≡◌, [], ◌∷◌, length, All, IfOk};

use crate::part::{BatchPart, PartList};
use outside::NoMemory;
use std::alloc::Global;
use std::marker::Model;

/// An append of one batch, with a list of one part for each reader.
#[derive(Drop)]
pub struct Append {
    own: BatchPart,
    parts: Vec<PartList>,
}

impl Model for Append {
    ghost use Rattle.std.specs.Prelude.{◌≡◌, [], ◌∷◌, length, All};
    ghost use Rattle.live_collection.specs.PlainAppend.{PlainAppend};
    ghost use Rattle.std.specs.Coded.{codes};
    ghost use Rattle.live_collection.specs.contracts.batch.Batch as row;

    ghost Value = { PlainAppend };

    ghost coded = { Prim.hlevel (codes, row.the_row.coded) };

    ghost view = { λ a. record { batch = a.own; parts = length a.parts.items } };

    ghost invariant = { λ a. All (λ p. p ≡ a.own ∷ []) a.parts.items };
}

impl Append {
    /// An append of the part's batch to this many readers. All that it needs is taken here.
    pub fn of_part(alloc: Global, own: BatchPart, readers: u32) -> Result<Append, NoMemory>
        ensures batch { IfOk result (λ a. a.batch ≡ own) }
        ensures parts { IfOk result (λ a. a.parts ≡ readers) }
    {
        let mut parts = Vec::with_capacity(alloc, readers as usize)?;
        for _ in 0..readers {
            parts.push_reserved(own.alone(alloc)?);
        }
        Ok(Append { own, parts })
    }

    /// The batch.
    pub fn own(&self) -> &BatchPart
        ensures { result.now ≡ self.now.batch }
    {
        &self.own
    }

    /// The number of parts.
    pub fn count(&self) -> usize
        ensures { result ≡ self.now.parts }
    {
        self.parts.len()
    }

    /// The parts alone.
    pub fn into_parts(self) -> Vec<PartList>
        ensures count { length result.items ≡ self.parts }
        ensures each { All (λ p. p ≡ self.batch ∷ []) result.items }
    {
        let Append { own: _, parts } = self;
        parts
    }
}

/// A call on the shared object.
#[derive(Drop)]
pub enum Call {
    /// A batch is to stand.
    Append(Append),
    /// The caller wants its list.
    Ask,
}

/// A reply of the shared object.
#[derive(Drop)]
pub enum Reply {
    /// The batch stands, and with it this number of series.
    Stands(u32),
    /// The batch does not stand; these numbers of batches and of series do.
    Refused(u32, u32),
    /// The list of the caller.
    Parts(PartList),
}
