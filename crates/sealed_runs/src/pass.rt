//! What one worker pops with: for each run the pass of its counter, and how the worker's pops of that run ended.
ghost use Rattle.std.specs.Prelude.{◌≡◌, ◌<◌, ◌≤◌, [], None, vec_capacity, length, is_some};
ghost use Rattle.claim_word.specs.Passes.{fresh_pass};
ghost use Rattle.sealed_runs.specs.Visits.{Visit, fresh_visit, visit_at};

use claim_word::ClaimPass;
use std::marker::Model;

/// What one worker did at one run: the place after the last that it knows drawn, the place that it refused, and the
/// limit of its Closed reply. The room is for the passes of all workers, should this visit gather them.
#[derive(Drop)]
pub struct Visit {
    pub(crate) claim: ClaimPass,
    pub(crate) reach: u64,
    pub(crate) refused: Option<u64>,
    pub(crate) closed: Option<u64>,
    pub(crate) room: Vec<ClaimPass>,
}

impl Model for Visit {
    ghost use Rattle.std.specs.Prelude.{◌≡◌, ◌≤◌, [], vec_capacity};
    ghost use Rattle.sealed_runs.specs.Visits.{Visit as Seen};

    ghost Value = { Seen };

    ghost view = { λ v. record { claim = v.claim; refused = v.refused; closed = v.closed } };

    ghost invariant = { λ v. (v.reach ≡ v.claim.met) × (v.room.items ≡ []) × (v.claim.claims.callers ≤ vec_capacity v.room) };
}

impl Visit {
    /// A visit that has done nothing.
    pub(crate) fn fresh(claim: ClaimPass, room: Vec<ClaimPass>) -> Visit
        requires fresh { claim ≡ fresh_pass claim.claims }
        requires room { (room.items ≡ []) × (claim.claims.callers ≤ vec_capacity room) }
        ensures { result ≡ fresh_visit claim.claims }
    {
        Visit {
            claim,
            reach: 0,
            refused: None,
            closed: None,
            room,
        }
    }
}

/// The right of one worker to pop from its `Runs`. It is seen as its visits, one of each run.
#[derive(Drop)]
pub struct RunPass {
    pub(crate) visits: Vec<Visit>,
}

impl Model for RunPass {
    ghost use Rattle.std.specs.Prelude.{List};
    ghost use Rattle.sealed_runs.specs.Visits.{Visit as Seen};

    ghost Value = { List Seen };

    ghost view = { λ p. p.visits.items };

    ghost invariant = { λ p. Unit {0} };
}

impl RunPass {
    /// Whether run m has answered Closed to this pass. It takes no memory.
    pub fn is_closed(&self, m: u32) -> bool
        requires { m < length self.now }
        ensures { result ≡ is_some (visit_at self.now m).closed }
    {
        self.visits[m as usize].closed.is_some()
    }
}
