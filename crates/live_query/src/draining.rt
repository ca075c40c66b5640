//! Workers that drain side by side, each in a thread of its own. Their one rule: a turn leaves less to do.
ghost use Rattle.std.specs.Prelude.{◌≡◌, ◌<◌, All, vec_len};
ghost use Rattle.search_machine.specs.declared.phase.Phase.TheVariants.{Done};
ghost use Rattle.live_query.specs.Knowing.{SealedOn};
ghost use Rattle.live_query.specs.Parts.{AllDrainOn, MayDrain};
ghost use Rattle.live_query.specs.SealedQueues.{run_count};

use crate::drain_hand::DrainHand;
use crate::sealed_queues::SealedQueues;
use crate::searcher::Searcher;
use outside::Gate;
use query_core::{Turn, Worker};
use series_core::Rows;
use std::thread::Threads;
use worker_team::for_each_mut;

/// A worker with its hand of the drain part.
pub type Draining<'a, 'b, R> = Searcher<Worker<'a, R>, DrainHand<'b, SealedQueues<'b>>>;

impl<'a, 'b, R: Rows> Searcher<Worker<'a, R>, DrainHand<'b, SealedQueues<'b>>> {
    /// Takes turns until it is done, each once the gate has let it through.
    fn drain<G: Gate>(&mut self, gate: &G)
        requires ready { MayDrain run_count self.old }
        ensures goes_on { SealedOn self.old.worker self.old.hand self.new.worker self.new.hand }
        ensures done { self.new.worker.phase ≡ Done }
    {
        loop {
            if self.take_turn(gate) == Turn::Done {
                return;
            }
        }
    }
}

/// All drain, each in a thread of its own; a worker alone starts none.
pub(crate) fn drain_together<'a, 'b, T: Threads + Sync, R: Rows + Sync, G: Gate + Sync>(
    rt: &T,
    gate: &G,
    team: &mut Vec<Draining<'a, 'b, R>>,
)
    requires some { 0 < vec_len team.old }
    requires ready { All (MayDrain run_count) team.old.items }
    ensures len { vec_len team.new ≡ vec_len team.old }
    ensures done { All (λ c. c.worker.phase ≡ Done) team.new.items }
    ensures goes_on { AllDrainOn team.old.items team.new.items }
{
    for_each_mut(rt, team.as_mut_slice(), &|_, searcher| searcher.drain(gate));
}
