//! How a reader asks: one call on the lock gives it what was appended since, and it searches all that it has then.
ghost use Rattle.std.specs.Prelude.{◌≡◌, ◌<◌, ◌≤◌, List, IfOk, length};
ghost use Rattle.series_core.specs.Answer.{answer};
ghost use Rattle.live_collection.specs.declared.batch.Batch.{Batch as BatchOf};
ghost use Rattle.live_collection.specs.declared.calls.Call.TheVariants.{Ask};
ghost use Rattle.live_collection.specs.declared.calls.Reply.TheVariants.{Parts};
ghost use Rattle.live_collection.specs.Histories.{appended, standing};
ghost use Rattle.live_collection.specs.Sides.{IsReaderOf, collection_after, points_of, reader_saw};
ghost use Rattle.live_collection.specs.Steps.{MakesCall};

use crate::calls::{Call, Reply};
use crate::live::{LiveCollection, LiveReply, Reader};
use crate::object::link;
use crate::searching::search;
use outside::NoMemory;
use series_core::MAX_BEST;
use std::alloc::Global;
use std::sync::Wait;

impl LiveCollection {
    /// The k nearest of all series that stand at the one ask that this call makes, and how many they are. After a refusal
    /// the reader has seen that ask too. It may wait for the lock.
    pub fn ask<H: Wait>(
        &self,
        rt: &H,
        alloc: Global,
        reader: &mut Reader,
        query: &[i16],
        k: u32,
    ) -> Result<LiveReply, NoMemory>
        requires reader { IsReaderOf self.now reader.old }
        requires query { length query.now ≡ points_of self.now }
        requires ranks { (0 < k) × (k ≤ MAX_BEST) }
        ensures reader { IsReaderOf self.now reader.new }
        ensures asks { (l : List BatchOf) × MakesCall self.now reader.old.pass reader.new.pass Ask (Parts l) }
        ensures count { IfOk result (λ r. r.count ≡ length (standing (reader_saw reader.new))) }
        ensures pairs { IfOk result (λ r. r.pairs ≡ answer (collection_after self.now (reader_saw reader.new)) query.now k) }
        ensures no_fewer { IfOk result (λ r. length (standing (reader_saw reader.old)) ≤ r.count) }
    {
        self.learn(rt, reader);
        search(alloc, &reader.parts, query, k)
    }

    // The reader takes what was appended since its last ask, and links it to the parts that it has.
    fn learn<H: Wait>(&self, rt: &H, reader: &mut Reader)
        requires { IsReaderOf self.now reader.old }
        ensures reader { IsReaderOf self.now reader.new }
        ensures asks { (l : List BatchOf) × MakesCall self.now reader.old.pass reader.new.pass Ask (Parts l) }
        ensures all { reader.new.parts ≡ appended (reader_saw reader.new) }
    {
        let Reply::Parts(taken) = self.lock.call(rt, &mut reader.pass, Call::Ask) else {
            unreachable!()
        };
        link(&mut reader.parts, taken);
    }
}
