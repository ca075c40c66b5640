//! Workers that fill side by side, each in a thread of its own. Their one rule: a turn leaves less to do.
ghost use Rattle.std.specs.Prelude.{◌≡◌, ◌<◌, false, All, vec_len};
ghost use Rattle.search_machine.specs.Workers.{fills};
ghost use Rattle.live_query.specs.Knowing.{FillServes, FillKnows, FillsOn};
ghost use Rattle.live_query.specs.Parts.{AllFillOn};

use crate::fill_hand::FillHand;
use crate::searcher::Searcher;
use outside::Gate;
use query_core::Worker;
use series_core::Rows;
use std::thread::Threads;
use worker_team::for_each_mut;

/// A worker with its hand of the fill part.
pub type Filling<'a, 'b, R> = Searcher<Worker<'a, R>, FillHand<'b>>;

impl<'a, 'b, R: Rows> Searcher<Worker<'a, R>, FillHand<'b>> {
    /// Takes turns until its fill part has ended, each once the gate has let it through; then it reckons the bounds of its share.
    fn fill<G: Gate>(&mut self, gate: &G)
        requires serves { FillServes self.old.worker self.old.hand }
        requires knows { FillKnows self.old.worker self.old.hand }
        ensures serves { FillServes self.new.worker self.new.hand }
        ensures knows { FillKnows self.new.worker self.new.hand }
        ensures filled { fills self.new.worker.phase ≡ false }
        ensures goes_on { FillsOn self.old.worker self.old.hand self.new.worker self.new.hand }
    {
        while !self.worker.filled() {
            self.take_turn(gate);
        }
        self.worker.reckon();
    }
}

/// All fill, each in a thread of its own; a worker alone starts none.
pub(crate) fn fill_together<'a, 'b, T: Threads + Sync, R: Rows + Sync, G: Gate + Sync>(
    rt: &T,
    gate: &G,
    team: &mut Vec<Filling<'a, 'b, R>>,
)
    requires some { 0 < vec_len team.old }
    requires serves { All (λ c. FillServes c.worker c.hand) team.old.items }
    requires knows { All (λ c. FillKnows c.worker c.hand) team.old.items }
    ensures len { vec_len team.new ≡ vec_len team.old }
    ensures knows { All (λ c. FillKnows c.worker c.hand) team.new.items }
    ensures filled { All (λ c. fills c.worker.phase ≡ false) team.new.items }
    ensures goes_on { AllFillOn team.old.items team.new.items }
{
    for_each_mut(rt, team.as_mut_slice(), &|_, searcher| searcher.fill(gate));
}
