//! Workers that drain locked queues side by side, each in a thread of its own. Their one rule: they end done.
//! A turn may wait for a lock, so nothing is said of how many there are.
ghost use Rattle.std.specs.Prelude.{◌≡◌, ◌<◌, All, vec_len};
ghost use Rattle.search_machine.specs.declared.phase.Phase.TheVariants.{Done};
ghost use Rattle.live_query.specs.Knowing.{LockedOn};
ghost use Rattle.live_query.specs.LockParts.{AllLocksOn};
ghost use Rattle.live_query.specs.LockedQueues.{pass_count};
ghost use Rattle.live_query.specs.Parts.{MayDrain};

use crate::drain_hand::DrainHand;
use crate::locked_queues::LockedQueues;
use crate::searcher::Searcher;
use outside::Gate;
use query_core::{Turn, Worker};
use series_core::Rows;
use std::sync::Wait;
use std::thread::Threads;
use worker_team::for_each_mut;

/// A worker with its hand over locked queues.
pub type Locking<'a, 'b, R, W> = Searcher<Worker<'a, R>, DrainHand<'b, LockedQueues<'b, W>>>;

impl<'a, 'b, R: Rows, W: Wait> Searcher<Worker<'a, R>, DrainHand<'b, LockedQueues<'b, W>>> {
    /// Takes turns until it is done, each once the gate has let it through.
    fn drain<G: Gate>(&mut self, rt: &W, gate: &G)
        requires ready { MayDrain pass_count self.old }
        ensures goes_on { LockedOn self.old.worker self.old.hand self.new.worker self.new.hand }
        ensures done { self.new.worker.phase ≡ Done }
    {
        for _ in rt.forever() {
            if self.take_turn(gate) == Turn::Done {
                return;
            }
        }
        unreachable!()
    }
}

/// All drain, each in a thread of its own; a worker alone starts none.
pub(crate) fn drain_locked<'a, 'b, T: Threads + Wait + Sync, R: Rows + Sync, G: Gate + Sync>(
    rt: &T,
    gate: &G,
    team: &mut Vec<Locking<'a, 'b, R, T>>,
)
    requires some { 0 < vec_len team.old }
    requires ready { All (MayDrain pass_count) team.old.items }
    ensures len { vec_len team.new ≡ vec_len team.old }
    ensures done { All (λ c. c.worker.phase ≡ Done) team.new.items }
    ensures goes_on { AllLocksOn team.old.items team.new.items }
{
    for_each_mut(
        rt,
        team.as_mut_slice(),
        &|_, searcher| searcher.drain(rt, gate),
    );
}
