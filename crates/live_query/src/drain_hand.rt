//! What a worker shares in the drain part: the bound word, and the queues that it pops from.
//! The claims are closed, and the queues hold all that was put: no claim and no put takes a step.
ghost use Rattle.std.specs.Prelude.{◌≡◌};
ghost use Rattle.live_query.specs.DrainHands.{drain_over};

use crate::queues::Queues;
use best_word::{BestWord, WordPass};
use query_core::Shared;
use series_core::{Entry, PopReply, PutReply};
use std::marker::Model;

/// The hand of a worker in the drain part, over these queues.
#[derive(Drop)]
pub struct DrainHand<'a, Q> {
    word: &'a BestWord,
    seen: WordPass,
    roots: u64,
    queues: Q,
}

impl<'a, Q> Model for DrainHand<'a, Q> {
    ghost use Rattle.std.specs.Prelude.{◌≡◌};
    ghost use Rattle.live_query.specs.DrainHands.{DrainKept};

    ghost Value = { DrainKept Q };

    ghost view = { λ h. record { seen = h.seen; roots = h.roots; queues = h.queues } };

    ghost invariant = { λ h. h.seen.best ≡ h.word.now };
}

impl<'a, Q> DrainHand<'a, Q> {
    /// A hand over these queues with this pass of the bound word.
    pub fn new(word: &'a BestWord, seen: WordPass, roots: u64, queues: Q) -> DrainHand<'a, Q>
        requires seen { seen.best ≡ word.now }
        ensures { result ≡ drain_over seen roots queues }
    {
        DrainHand {
            word,
            seen,
            roots,
            queues,
        }
    }

    /// What it has of the queues.
    pub fn into_queues(self) -> Q
        ensures { result ≡ self.entry.queues }
    {
        self.queues
    }
}

impl<'a, Q: Queues> Shared for DrainHand<'a, Q> {
    ghost use Rattle.live_query.specs.DrainHands.{DrainDid};

    ghost floor = { λ h. h.seen.floor };

    ghost roots = { λ h. h.roots };

    ghost did = { DrainDid Q.pops };

    /// The claims are closed: a claim takes no step.
    fn claim(&mut self) -> Option<u64> {
        None
    }

    fn read(&mut self) -> u64 {
        self.word.read(&mut self.seen)
    }

    fn offer(&mut self, v: u64) -> u64 {
        self.word.offer(&mut self.seen, v)
    }

    /// The queues hold all that was put: a put takes no step.
    fn put(&mut self, _queue: u32, _entry: Entry) -> PutReply {
        PutReply::Filled(0)
    }

    fn pop(&mut self, queue: u32, limit: u64) -> PopReply {
        self.queues.pop(queue, limit)
    }
}
