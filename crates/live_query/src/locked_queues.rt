//! Queues, each under a lock of its own, as one worker pops from them: it has one pass of each lock, and a pop is one call at the
//! queue that it names.
ghost use Rattle.std.specs.Prelude.{◌≡◌, ◌<◌, length};
ghost use Rattle.live_query.specs.LockedQueues.{Answers, AreOwn, Called};

use crate::queues::Queues;
use leaf_queues::{Call, Queue, Reply};
use series_core::PopReply;
use std::marker::Model;
use std::sync::Wait;
use turn_lock::{TurnLock, TurnPass};

/// The locks, with a worker's passes of them and the handle to wait by.
#[derive(Drop)]
pub struct LockedQueues<'a, W> {
    rt: &'a W,
    locks: &'a [TurnLock<Queue>],
    passes: Vec<TurnPass<Queue>>,
}

impl<'a, W> Model for LockedQueues<'a, W> {
    ghost use Rattle.live_query.specs.LockedQueues.{LockedKept, AreOwn};

    ghost Value = { LockedKept };

    ghost view = { λ q. record { locks = q.locks.now; passes = q.passes.items } };

    ghost invariant = { λ q. AreOwn q.locks.now q.passes.items };
}

impl<'a, W> LockedQueues<'a, W> {
    /// These locks, with a pass of each.
    pub fn new(
        rt: &'a W,
        locks: &'a [TurnLock<Queue>],
        passes: Vec<TurnPass<Queue>>,
    ) -> LockedQueues<'a, W>
        requires own { AreOwn locks.now passes.items }
        ensures { result ≡ record { locks = locks.now; passes = passes.items } }
    {
        LockedQueues { rt, locks, passes }
    }

    /// The passes.
    pub fn into_passes(self) -> Vec<TurnPass<Queue>>
        ensures passes { result.items ≡ self.entry.passes }
        ensures own { AreOwn self.entry.locks result.items }
    {
        self.passes
    }
}

impl<'a, W: Wait> LockedQueues<'a, W> {
    // One call at a queue, by the pass of its lock.
    fn call(&mut self, queue: usize, call: Call) -> Reply
        requires { queue < length self.old.passes }
        ensures made { Called self.old queue call result self.new }
        ensures answers { Answers call result }
    {
        let locks = self.locks;
        locks[queue].call(self.rt, &mut self.passes[queue], call)
    }
}

impl<'a, W: Wait> Queues for LockedQueues<'a, W> {
    ghost use Rattle.live_query.specs.LockedQueues.{LockedPops};

    ghost pops = { LockedPops };

    fn pop(&mut self, queue: u32, limit: u64) -> PopReply {
        let queue = queue as usize;
        if queue >= self.passes.len() {
            return PopReply::Closed(limit);
        }
        match self.call(queue, Call::Pop(limit)) {
            Reply::Pop(reply) => reply,
            Reply::Put(_) => unreachable!(),
        }
    }
}
