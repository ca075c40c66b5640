//! A worker with what it shares the search by. It has plain parameters alone, so that it goes to a thread of its own.
ghost use Rattle.std.specs.Prelude.{◌≡◌, ◌≢◌, ◌↔◌, Some, true, length, slice_get};
ghost use Rattle.search_machine.specs.declared.phase.Phase.TheVariants.{Done};
ghost use Rattle.search_task.specs.Questions.{last_of};
ghost use Rattle.query_core.specs.Turning.{Turns};
ghost use Rattle.query_core.specs.Working.{IsOf};
ghost use Rattle.live_query.specs.Searchers.{with_hand};

use crate::root_claims::Drawing;
use best_word::WordPass;
use list_team::Apart;
use outside::Gate;
use query_core::{Shared, Turn, Worker};
use series_core::Rows;
use std::marker::Model;

/// A worker of a search with its hand on what the workers share, its number, and how many turns it has taken.
#[derive(Drop)]
pub struct Searcher<W, H> {
    /// The worker.
    pub worker: W,
    /// Its hand on what the workers share.
    pub hand: H,
    /// Its number.
    pub number: u32,
    /// How many turns it has taken, over both parts.
    pub turn: u64,
    /// What keeps it apart from the next in a row.
    pub apart: Apart,
}

impl<W, H> Searcher<W, H> {
    /// Its hand, and the searcher without one.
    pub(crate) fn let_go(self) -> (H, Searcher<W, ()>)
        ensures hand { result.0 ≡ self.hand }
        ensures rest { result.1 ≡ with_hand self tt }
    {
        let Searcher {
            worker,
            hand,
            number,
            turn,
            apart,
        } = self;
        let rest = Searcher {
            worker,
            hand: (),
            number,
            turn,
            apart,
        };
        (hand, rest)
    }
}

impl<W> Searcher<W, ()> {
    /// The searcher with this hand.
    pub(crate) fn take<H>(self, hand: H) -> Searcher<W, H>
        ensures { result ≡ with_hand self hand }
    {
        Searcher {
            worker: self.worker,
            hand,
            number: self.number,
            turn: self.turn,
            apart: self.apart,
        }
    }
}

impl<'a, R: Rows, H: Shared> Searcher<Worker<'a, R>, H> {
    /// One turn, once the gate has let it through. Done exactly where the worker is done now.
    pub(crate) fn take_turn<G: Gate>(&mut self, gate: &G) -> Turn
        requires running { self.old.worker.phase ≢ Done }
        requires floor { H.floor self.old.hand ≡ last_of self.old.worker.question }
        requires roots { H.roots self.old.hand ≡ length self.old.worker.index.roots }
        ensures turns { Turns H.did self.old.hand self.new.hand self.old.worker self.new.worker }
        ensures place { let w = self.old.worker in IsOf w.question w.index w.queues w.number self.new.worker }
        ensures done { (result ≡ Turn.Done) ↔ (self.new.worker.phase ≡ Done) }
    {
        gate.pass(self.number, self.turn);
        self.turn = self.turn.saturating_add(1);
        self.worker.turn(&mut self.hand)
    }
}

/// What a searcher keeps before the parts.
#[derive(Drop)]
pub struct Holding {
    /// Its draws of the root children.
    pub drawing: Drawing,
    /// Its pass of the bound word.
    pub seen: WordPass,
}

/// What a searcher keeps between the parts: its pass of the bound word, and for each leaf whether it put the leaf.
#[derive(Drop)]
pub struct Rested {
    /// Its pass of the bound word.
    pub seen: WordPass,
    /// For each leaf whether it put the leaf.
    pub marks: Vec<bool>,
}

impl Model for Holding {
    ghost use Rattle.live_query.specs.Holding.{Held};

    ghost Value = { Held };

    ghost view = { λ h. record { drawn = h.drawing; seen = h.seen } };

    ghost invariant = { λ h. Unit {0} };
}

impl Model for Rested {
    ghost use Rattle.live_query.specs.Resting.{Kept};

    ghost Value = { Kept };

    ghost view = { λ r. record { seen = r.seen; marks = r.marks.items } };

    ghost invariant = { λ r. Unit {0} };
}

impl Rested {
    /// Whether it put the leaf. A number that is no leaf was never put.
    pub(crate) fn has_put(&self, leaf: u32) -> bool
        ensures { (result ≡ true) ↔ (slice_get self.now.marks leaf ≡ Some true) }
    {
        match self.marks.get(leaf as usize) {
            Some(mark) => *mark,
            None => false,
        }
    }
}
