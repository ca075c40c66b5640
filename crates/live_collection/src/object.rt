//! The shared object: its counts, and a list of parts for each reader.
ghost use Rattle.std.specs.Prelude.{◌≡◌, ◌+◌, ◌^◌, ◌<◌, ◌++◌, ◌∷◌, [], All, length, map, IfOk};
ghost use Rattle.live_collection.specs.PlainLive.{PlainLive, empty_live, next, append, ask, accepts};

use crate::calls::{Append, Call, Reply};
use crate::part::PartList;
use outside::NoMemory;
use series_core::{MAX_COUNT, Rows};
use std::alloc::Global;
use std::collections::LinkedList;
use std::marker::Model;
use std::mem::replace;
use turn_lock::Object;

/// The greatest number of batches that may stand.
pub const MAX_BATCHES: u32 = 1024;

/// The shared object of a live collection.
#[derive(Drop)]
pub struct LiveObject {
    alloc: Global,
    points: u32,
    batches: u32,
    series: u32,
    lists: Vec<PartList>,
}

impl Model for LiveObject {
    ghost use Rattle.live_collection.specs.PlainLive.{PlainLive};
    ghost use Rattle.std.specs.Coded.{codes};
    ghost use Rattle.live_collection.specs.contracts.batch.Batch as row;

    ghost Value = { PlainLive };

    ghost coded = { Prim.hlevel (codes, row.the_row.coded) };

    ghost use Rattle.live_collection.specs.Kept.{plain, IsKept};

    ghost view = { plain };

    ghost invariant = { IsKept };
}

impl LiveObject {
    /// An object for series of this many points and this many readers, in which no batch stands.
    pub fn new(alloc: Global, points: u32, readers: u32) -> Result<LiveObject, NoMemory>
        ensures { IfOk result (λ o. o ≡ empty_live points readers) }
    {
        let mut lists = Vec::with_capacity(alloc, readers as usize)?;
        for _ in 0..readers {
            lists.push_reserved(LinkedList::new(alloc));
        }
        Ok(LiveObject {
            alloc,
            points,
            batches: 0,
            series: 0,
            lists,
        })
    }

    /// How many series stand.
    pub fn series(&self) -> u32
        ensures { result ≡ self.now.series }
    {
        self.series
    }

    fn accepts(&self, caller: u32, call: &Append) -> bool
        ensures { result ≡ accepts self.now caller call.now }
    {
        let batch = call.own().batch();
        let count = batch.series.count();
        caller == 0
            && call.count() == self.lists.len()
            && batch.series.length() == self.points
            && self.batches < MAX_BATCHES
            && count <= MAX_COUNT - self.series
    }

    fn append(&mut self, caller: u32, call: Append) -> Reply
        ensures { (self.new, result) ≡ append self.old caller call }
    {
        if !self.accepts(caller, &call) {
            return Reply::Refused(self.batches, self.series);
        }
        let count = call.own().batch().series.count();
        link_each(&mut self.lists, call);
        self.batches += 1;
        self.series += count;
        Reply::Stands(self.series)
    }

    fn ask(&mut self, caller: u32) -> Reply
        ensures { (self.new, result) ≡ ask self.old caller }
    {
        let empty = LinkedList::new(self.alloc);
        if caller == 0 {
            return Reply::Parts(empty);
        }
        match self.lists.get_mut(caller as usize - 1) {
            Some(list) => Reply::Parts(replace(list, empty)),
            None => Reply::Parts(empty),
        }
    }
}

impl Object for LiveObject {
    type Call = Call;

    type Reply = Reply;

    // The meaning stands in specs/PlainLive.antt.
    ghost next = { next };

    fn apply(&mut self, caller: u32, call: Call) -> Reply {
        match call {
            Call::Append(call) => self.append(caller, call),
            Call::Ask => self.ask(caller),
        }
    }
}

// Each part is put behind its list.
fn link_each(lists: &mut Vec<PartList>, call: Append)
    requires count { call.parts ≡ length lists.old.items }
    requires room { All (λ l. length l < MAX_BATCHES) lists.old.items }
    ensures { lists.new.items ≡ map (λ l. l ++ call.batch ∷ []) lists.old.items }
{
    let mut parts = call.into_parts();
    for at in 0..lists.len() {
        let Some(part) = parts.pop() else {
            unreachable!()
        };
        link(&mut lists[at], part);
    }
}

/// Puts a list of parts behind another.
pub(crate) fn link(list: &mut PartList, mut part: PartList)
    requires { length list.old + length part < 2 ^ 63 }
    ensures { list.new ≡ list.old ++ part }
{
    let Ok(()) = list.append(&mut part) else {
        unreachable!()
    };
}
