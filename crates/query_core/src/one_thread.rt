//! What the workers share, held by one thread in plain fields. Each call is what the machine's turn makes of the state.
ghost use Rattle.std.specs.Prelude.{◌≡◌, ◌≤◌, IfOk, length};
ghost use Rattle.query_core.specs.OneThread.{opening_hand};
ghost use Rattle.search_task.specs.Questions.{last_of, search_over};

use crate::opening::empty_queues;
use crate::shared::Shared;
use leaf_queues::Queue;
use outside::NoMemory;
use search_limits::MOST_QUEUES;
use search_task::Task;
use series_core::{Entry, PopReply, PutReply, Rows};
use std::alloc::Global;
use std::marker::Model;
use subtree_build::Index;

/// What the workers of one task share, where all of them take their turns in one thread.
#[derive(Drop)]
pub struct OneThread<'a, R: Rows> {
    task: &'a Task<'a, R>,
    roots: u64,
    claimed: u64,
    word: u64,
    queues: Vec<Queue>,
}

impl<'a, R: Rows> Model for OneThread<'a, R> {
    ghost use Rattle.query_core.specs.OneThread.{IsHeld};
    ghost use Rattle.search_machine.specs.Shared.{Held};
    ghost use Rattle.search_task.specs.Questions.{last_of};

    ghost Value = { Held };

    ghost view = { λ h. record {
      floor = last_of h.task.now;
      roots = h.roots;
      claimed = h.claimed;
      word = h.word;
      queues = h.queues.items;
    } };

    ghost invariant = { λ h. IsHeld (record {
      floor = last_of h.task.now;
      roots = h.roots;
      claimed = h.claimed;
      word = h.word;
      queues = h.queues.items;
    }) };
}

impl<'a, R: Rows> OneThread<'a, R> {
    /// No root child is claimed, each of the 1 to 64 queues is empty with room for all leaves that belong to it, and the bound
    /// word is the limit.
    pub fn new(
        alloc: Global,
        task: &'a Task<'a, R>,
        index: &Index,
        queues: u32,
        limit: u64,
    ) -> Result<OneThread<'a, R>, NoMemory>
        requires queues { (1 ≤ queues) × (queues ≤ MOST_QUEUES) }
        requires limit { last_of task.now ≤ limit }
        ensures { let g = search_over task.now index.now 1 queues in
            IfOk result (λ h. h ≡ opening_hand g (last_of task.now) (length index.now.roots) limit) }
    {
        Ok(OneThread {
            task,
            roots: u64::from(index.root_count()),
            claimed: 0,
            word: limit,
            queues: empty_queues(alloc, index.leaf_count(), queues)?,
        })
    }

    /// Lends the queues, no more than 64.
    pub(crate) fn queues(&self) -> &[Queue]
        ensures queues { result.now ≡ self.now.queues }
        ensures few { length self.now.queues ≤ MOST_QUEUES }
    {
        &self.queues
    }
}

impl<'a, R: Rows> Shared for OneThread<'a, R> {
    ghost use Rattle.search_machine.specs.Shared.{Did};

    ghost floor = { λ h. h.floor };

    ghost roots = { λ h. h.roots };

    ghost did = { Did };

    fn claim(&mut self) -> Option<u64> {
        if self.claimed < self.roots {
            let next = self.claimed;
            self.claimed += 1;
            Some(next)
        } else {
            None
        }
    }

    fn read(&mut self) -> u64 {
        self.word
    }

    fn offer(&mut self, v: u64) -> u64 {
        let before = self.word;
        self.word = before.min(v);
        before
    }

    /// A put that names no queue changes nothing, and is answered Filled(0).
    fn put(&mut self, queue: u32, entry: Entry) -> PutReply {
        match self.queues.get_mut(queue as usize) {
            Some(queue) => queue.put(entry),
            None => PutReply::Filled(0),
        }
    }

    /// A pop that names no queue changes nothing, and is answered Closed with the limit.
    fn pop(&mut self, queue: u32, limit: u64) -> PopReply {
        match self.queues.get_mut(queue as usize) {
            Some(queue) => queue.pop(limit),
            None => PopReply::Closed(limit),
        }
    }
}
