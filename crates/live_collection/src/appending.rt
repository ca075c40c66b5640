//! How the writer appends: the batch is indexed before the one call on the lock, and that call only links it.
ghost use Rattle.std.specs.Prelude.{◌≡◌};
ghost use Rattle.live_collection.specs.Sides.{IsWriterOf, points_of};
ghost use Rattle.live_collection.specs.Steps.{Appends};

use crate::batch::Batch;
use crate::calls::{Append, Call, Reply};
use crate::live::{AppendError, LiveCollection, Writer};
use crate::part::BatchPart;
use series_core::Flat;
use std::alloc::Global;
use std::sync::Wait;
use std::thread::Threads;

impl LiveCollection {
    /// Appends the series of a batch, and tells how many series then stand. Full tells the numbers that stand where the
    /// batch finds no room. After a refusal nothing of the collection has changed. It may wait for the lock.
    pub fn append<H: Threads + Wait + Sync>(
        &self,
        rt: &H,
        alloc: Global,
        writer: &mut Writer,
        batch: Flat,
    ) -> Result<u32, AppendError>
        requires writer { IsWriterOf self.now writer.old }
        requires length { batch.points ≡ points_of self.now }
        ensures writer { IsWriterOf self.now writer.new }
        ensures appends { Appends self.now batch writer.old writer.new result }
    {
        let batch = Batch::of_series(rt, alloc, batch, &self.settings)?;
        // this part outlives the call, so a batch that is refused is freed here and not under the lock
        let own = BatchPart::new(alloc, batch)?;
        let call = Append::of_part(alloc, own.another()?, self.readers)?;
        match self.lock.call(rt, &mut writer.pass, Call::Append(call)) {
            Reply::Stands(count) => Ok(count),
            Reply::Refused(batches, series) => Err(AppendError::Full(batches, series)),
            Reply::Parts(_) => unreachable!(),
        }
    }
}
