//! Two workers who take turns in one thread, over one hand. Its one rule: a worker that is done takes no turn.
ghost use Rattle.std.specs.Prelude.{◌≡◌, ◌≢◌, false};
ghost use Rattle.subtree_build.specs.Fits.{Fits};

use super::hand::Hand;
use outside::NoMemory;
use query_core::{Call, Reply, Search, Task, Turn, Worker, limit_of};
use series_core::{Flat, KBest};
use std::alloc::Global;
use std::marker::Model;
use std::test::Fail;
use subtree_build::Index;

/// The workers, which of them are done, and what they share. It is seen as what they share.
#[derive(Drop)]
pub(super) struct Play<'a> {
    hand: Hand<'a>,
    first: Worker<'a, Flat>,
    second: Worker<'a, Flat>,
    first_done: bool,
    second_done: bool,
}

impl<'a> Model for Play<'a> {
    ghost use Rattle.std.specs.Prelude.{◌≡◌, ◌≢◌, false, length};
    ghost use Rattle.search_machine.specs.Shared.{Held};
    ghost use Rattle.search_machine.specs.declared.phase.Phase.TheVariants.{Done};
    ghost use Rattle.search_task.specs.Questions.{last_of};

    ghost Value = { Held };

    ghost view = { λ p. p.hand };

    ghost invariant = { λ p. (p.hand.floor ≡ last_of p.first.question) × (p.hand.floor ≡ last_of p.second.question)
        × (p.hand.roots ≡ length p.first.index.roots) × (p.hand.roots ≡ length p.second.index.roots)
        × (p.first_done ≡ false → p.first.phase ≢ Done) × (p.second_done ≡ false → p.second.phase ≢ Done) };
}

/// What is known of a worker: whether its fill part has ended, the number of its k-th pair, and whether it is done.
pub(super) type Known = (bool, Option<u32>, bool);

impl<'a> Play<'a> {
    /// Two workers over one queue at the opening of a search.
    pub(super) fn open(
        alloc: Global,
        task: &'a Task<'a, Flat>,
        index: &'a Index,
    ) -> Result<Play<'a>, Fail>
        requires { Fits task.now.collection task.now.layout index.now }
    {
        // for the facts that the index can be searched, and that k is within its limits
        let _k = Search::new(task, index).k();
        let (start, list) = task.opening(alloc, index)?;
        let empty = KBest::new(alloc, task.k())?;
        let hand = Hand::open(alloc, task, index, limit_of(start))?;
        Ok(Play {
            hand,
            first: Worker::new(alloc, task, index, 0, 1, start, list)?,
            second: Worker::new(alloc, task, index, 1, 1, start, empty)?,
            first_done: false,
            second_done: false,
        })
    }

    /// A turn of the first or of the second worker, where it is not done: its call and the reply.
    pub(super) fn turn(&mut self, second: bool) -> Option<(Call, Reply)> {
        self.hand.is_for(second);
        if second {
            if !self.second_done {
                self.second_done = is_done(self.second.turn(&mut self.hand));
            }
        } else if !self.first_done {
            self.first_done = is_done(self.first.turn(&mut self.hand));
        }
        self.hand.last()
    }

    /// What is known of the first or of the second worker.
    pub(super) fn known(&self, second: bool) -> Known {
        if second {
            known(&self.second, self.second_done)
        } else {
            known(&self.first, self.first_done)
        }
    }

    /// Ends the play: the least of the starting limit and of all offers.
    pub(super) fn close(self, alloc: Global) -> Result<u64, NoMemory> {
        self.hand.close(alloc)
    }
}

// Whether a worker has no more turns.
fn is_done(turn: Turn) -> bool
    ensures { result ≡ false → turn ≢ Turn.Done }
{
    match turn {
        Turn::More => false,
        Turn::Done => true,
    }
}

// What is known of a worker that is done or not.
fn known(worker: &Worker<'_, Flat>, done: bool) -> Known {
    let worst = worker.list().worst().map(|pair| pair.number);
    (worker.filled(), worst, done)
}
