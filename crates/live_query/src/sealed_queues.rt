//! Sealed runs, as one worker pops from them without locks.
ghost use Rattle.std.specs.Prelude.{◌≡◌, length};
ghost use Rattle.sealed_runs.specs.Visits.{IsPass};

use crate::queues::Queues;
use sealed_runs::{RunPass, Runs};
use series_core::PopReply;
use std::marker::Model;

/// The runs, with a worker's pass of them.
#[derive(Drop)]
pub struct SealedQueues<'a> {
    runs: &'a Runs,
    pass: RunPass,
    count: u32,
}

impl<'a> Model for SealedQueues<'a> {
    ghost use Rattle.std.specs.Prelude.{◌≡◌, length};
    ghost use Rattle.sealed_runs.specs.Visits.{IsPass};
    ghost use Rattle.live_query.specs.SealedQueues.{SealedKept};

    ghost Value = { SealedKept };

    ghost view = { λ q. record { runs = q.runs.now.runs; visits = q.pass } };

    ghost invariant = { λ q. IsPass q.runs.now.runs q.pass × (q.count ≡ length q.runs.now.runs) };
}

impl<'a> SealedQueues<'a> {
    /// These runs, of which there are `count`, with this pass of them.
    pub fn new(runs: &'a Runs, pass: RunPass, count: u32) -> SealedQueues<'a>
        requires pass { IsPass runs.now.runs pass }
        requires count { count ≡ length runs.now.runs }
        ensures { result ≡ record { runs = runs.now.runs; visits = pass } }
    {
        SealedQueues { runs, pass, count }
    }

    /// The pass.
    pub fn into_pass(self) -> RunPass
        ensures pass { result ≡ self.entry.visits }
        ensures own { IsPass self.entry.runs result }
    {
        self.pass
    }
}

impl<'a> Queues for SealedQueues<'a> {
    ghost use Rattle.live_query.specs.SealedQueues.{SealedPops};

    ghost pops = { SealedPops };

    /// A pop from a run that has answered Closed to this worker takes no step either.
    fn pop(&mut self, queue: u32, limit: u64) -> PopReply {
        if queue >= self.count || self.pass.is_closed(queue) {
            return PopReply::Closed(limit);
        }
        self.runs.pop(&mut self.pass, queue, limit)
    }
}
