//! What a worker shares in the fill part: root children to claim, the bound word, and marks of what it put.
//! No queue is there yet: a put is a mark, and the leaves that any worker has marked are put into queues, or sealed into runs, after the
//! part.
ghost use Rattle.std.specs.Prelude.{◌≡◌};
ghost use Rattle.live_query.specs.RootClaims.{IsOwn};

use crate::root_claims::{Drawing, RootClaims};
use best_word::{BestWord, WordPass};
use query_core::Shared;
use series_core::{Entry, PopReply, PutReply};
use std::marker::Model;

/// The hand of a worker in the fill part.
#[derive(Drop)]
pub struct FillHand<'a> {
    claims: &'a RootClaims,
    word: &'a BestWord,
    drawing: Drawing,
    seen: WordPass,
    queues: u32,
    marks: Vec<bool>,
}

impl<'a> Model for FillHand<'a> {
    ghost use Rattle.std.specs.Prelude.{◌≡◌};
    ghost use Rattle.live_query.specs.RootClaims.{IsOwn};
    ghost use Rattle.live_query.specs.FillHands.{FillKept};

    ghost Value = { FillKept };

    ghost view = { λ h. record {
      roots = h.claims.now;
      drawn = h.drawing;
      seen = h.seen;
      queues = h.queues;
      marks = h.marks.items;
    } };

    ghost invariant = { λ h. IsOwn h.claims.now h.drawing × (h.seen.best ≡ h.word.now) };
}

impl<'a> FillHand<'a> {
    /// A hand with these draws and these marks.
    pub fn new(
        claims: &'a RootClaims,
        word: &'a BestWord,
        drawing: Drawing,
        seen: WordPass,
        queues: u32,
        marks: Vec<bool>,
    ) -> FillHand<'a>
        requires own { IsOwn claims.now drawing }
        requires seen { seen.best ≡ word.now }
        ensures { result ≡ record {
          roots = claims.now;
          drawn = drawing;
          seen = seen;
          queues = queues;
          marks = marks.items;
        } }
    {
        FillHand {
            claims,
            word,
            drawing,
            seen,
            queues,
            marks,
        }
    }

    /// Its draws, its pass of the bound word, and its marks.
    pub fn into_parts(self) -> (Drawing, WordPass, Vec<bool>)
        ensures drawn { result.0 ≡ self.entry.drawn }
        ensures seen { result.1 ≡ self.entry.seen }
        ensures marks { result.2.items ≡ self.entry.marks }
    {
        let FillHand {
            drawing,
            seen,
            marks,
            ..
        } = self;
        (drawing, seen, marks)
    }
}

impl<'a> Shared for FillHand<'a> {
    ghost use Rattle.live_query.specs.FillHands.{FillDid};

    ghost floor = { λ h. h.seen.floor };

    ghost roots = { λ h. h.roots.count };

    ghost did = { FillDid };

    fn claim(&mut self) -> Option<u64> {
        self.claims.claim(&mut self.drawing)
    }

    fn read(&mut self) -> u64 {
        self.word.read(&mut self.seen)
    }

    fn offer(&mut self, v: u64) -> u64 {
        self.word.offer(&mut self.seen, v)
    }

    /// A put that names no queue or no leaf takes no step.
    fn put(&mut self, queue: u32, entry: Entry) -> PutReply {
        let leaf = entry.leaf as usize;
        if queue < self.queues && leaf < self.marks.len() {
            self.marks[leaf] = true;
            PutReply::Placed
        } else {
            PutReply::Filled(0)
        }
    }

    /// No run is made yet: a pop takes no step.
    fn pop(&mut self, _queue: u32, limit: u64) -> PopReply {
        PopReply::Closed(limit)
    }
}
