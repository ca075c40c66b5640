//! The queue: the taken entries in their order, and behind them in the same vector the waiting ones.
ghost use Rattle.std.specs.Prelude.{◌≡◌, IfOk};
ghost use Rattle.std.specs.List.Sorted.{IsPermutation};
ghost use Rattle.leaf_queues.specs.PlainQueue.{empty_queue, next, pop, put};

use crate::calls::{Call, Reply};
use crate::line::{self, Buckets};
use outside::NoMemory;
use series_core::{Entry, PopReply, PutReply, far};
use std::alloc::Global;
use std::marker::Model;
use turn_lock::Object;

/// A queue of leaves by their lower bounds (the MESSI paper, Peng, Fatourou, Palpanas, ICDE 2020). A put before the first
/// pop costs O(1). The first pop deals the entries into at most 256 buckets, and a bucket is sorted when a pop reaches it;
/// a put behind that has the rest dealt anew at the next bucket. No call takes memory.
#[derive(Drop)]
pub struct Queue {
    // The taken entries, then the run, then the rest.
    entries: Vec<Entry>,
    next: usize,
    run: usize,
    // How the rest is dealt; None where it is in no order.
    buckets: Option<Buckets>,
    capacity: u32,
    kept: Option<u64>,
}

impl Model for Queue {
    ghost use Rattle.leaf_queues.specs.PlainQueue.{PlainQueue};

    ghost Value = { PlainQueue };

    ghost use Rattle.leaf_queues.specs.Kept.{plain, IsKept};

    ghost view = { plain };

    ghost invariant = { IsKept };
}

impl Queue {
    /// A queue with room for `capacity` entries, over its whole life.
    pub fn new(alloc: Global, capacity: u32) -> Result<Queue, NoMemory>
        ensures { IfOk result (λ q. q ≡ empty_queue capacity) }
    {
        Ok(Queue {
            entries: Vec::with_capacity(alloc, capacity as usize)?,
            next: 0,
            run: 0,
            buckets: None,
            capacity,
            kept: None,
        })
    }

    /// The taken entries, in the order in which they were taken.
    pub fn taken(&self) -> &[Entry]
        ensures { result.now ≡ self.now.taken }
    {
        &self.entries[..self.next]
    }

    /// The waiting entries, each once, in no stated order.
    pub fn waiting(&self) -> &[Entry]
        ensures { IsPermutation self.now.waiting result.now }
    {
        &self.entries[self.next..]
    }

    /// The limit of the pop that shut the queue. None exactly where it was never shut.
    pub fn kept(&self) -> Option<u64>
        ensures { result ≡ self.now.kept }
    {
        self.kept
    }

    /// Puts an entry: Shut where the queue was shut, else Filled where as many puts were placed as it has room for, and
    /// else Placed.
    pub fn put(&mut self, entry: Entry) -> PutReply
        ensures { (self.new, result) ≡ put entry self.old }
    {
        if let Some(kept) = self.kept {
            return PutReply::Shut(kept);
        }
        if self.entries.len() == self.capacity as usize {
            return PutReply::Filled(self.capacity);
        }
        self.entries.push_reserved(entry);
        self.buckets = None;
        self.run = line::take_in(&mut self.entries[self.next..], self.run);
        PutReply::Placed
    }

    /// Takes the least entry, where its bound is not above this limit; else shuts the queue with the limit, and no entry is
    /// lost. A queue that was shut is Closed with the limit that shut it.
    pub fn pop(&mut self, limit: u64) -> PopReply
        ensures { (self.new, result) ≡ pop limit self.old }
    {
        if let Some(kept) = self.kept {
            return PopReply::Closed(kept);
        }
        let waiting = &mut self.entries[self.next..];
        self.run = line::reach(waiting, self.run, &mut self.buckets);
        if self.run > 0 {
            let least = self.entries[self.next];
            if least.bound <= far(limit) {
                self.next += 1;
                self.run -= 1;
                return PopReply::Leaf(least);
            }
        }
        self.kept = Some(limit);
        PopReply::Closed(limit)
    }
}

impl Object for Queue {
    type Call = Call;

    type Reply = Reply;

    // A queue does not look at the caller.
    ghost next = { λ q caller call. next q call };

    fn apply(&mut self, caller: u32, call: Call) -> Reply {
        let _ = caller;
        match call {
            Call::Put(entry) => Reply::Put(self.put(entry)),
            Call::Pop(limit) => Reply::Pop(self.pop(limit)),
        }
    }
}
