//! The visits of all passes at one run, gathered. Its one rule: nothing of a visit is lost.
ghost use Rattle.std.specs.Prelude.{◌≡◌, ℕ, ◌+◌, ◌-◌, ◌<◌, ◌≤◌, ◌∷◌, [], ◌++◌, List, All, take, map, length};
ghost use Rattle.std.specs.Prelude.{vec_len, vec_capacity};
ghost use Rattle.sealed_runs.specs.Visits.{Visit as Seen, visit_at, column};
ghost use Rattle.sealed_runs.specs.Closed.{lesser};
ghost use Rattle.sealed_runs.specs.Tallied.{with_place};
ghost use Rattle.sealed_runs.specs.Tallies.{Tallies};

use crate::pass::{RunPass, Visit};
use claim_word::ClaimPass;

/// The passes of one run's counter, the place after the last that any of them knows drawn, the refused places, and
/// the least limit of the Closed replies.
pub struct Tally {
    pub(crate) claims: Vec<ClaimPass>,
    pub(crate) reach: u64,
    pub(crate) refused: Vec<u64>,
    pub(crate) kept: Option<u64>,
}

fn lesser_limit(one: Option<u64>, other: Option<u64>) -> Option<u64>
    ensures { result ≡ lesser one other }
{
    match (one, other) {
        (None, other) => other,
        (Some(one), None) => Some(one),
        (Some(one), Some(other)) => Some(one.min(other)),
    }
}

fn push_place(places: &mut Vec<u64>, place: Option<u64>)
    requires { vec_len places.old < vec_capacity places.old }
    ensures items { places.new.items ≡ with_place places.old.items place }
    ensures len { vec_len places.new ≤ vec_len places.old + 1 }
    ensures capacity { vec_capacity places.new ≡ vec_capacity places.old }
{
    if let Some(place) = place {
        places.push_reserved(place);
    }
}

impl Tally {
    fn of(visit: Visit, mut refused: Vec<u64>) -> Tally
        requires callers { 0 < visit.claim.claims.callers }
        requires refused { (refused.items ≡ []) × (0 < vec_capacity refused) }
        ensures tally { Tallies (visit ∷ []) result }
        ensures claims { (vec_len result.claims ≡ 1) × (visit.claim.claims.callers ≤ vec_capacity result.claims) }
        ensures refused { (vec_len result.refused ≤ 1) × (vec_capacity result.refused ≡ vec_capacity refused) }
    {
        let Visit {
            claim,
            reach,
            refused: place,
            closed,
            room: mut claims,
        } = visit;
        claims.push_reserved(claim);
        push_place(&mut refused, place);
        Tally {
            claims,
            reach,
            refused,
            kept: closed,
        }
    }

    fn take_in(&mut self, visit: Visit)
        requires claims { vec_len self.old.claims < vec_capacity self.old.claims }
        requires refused { vec_len self.old.refused < vec_capacity self.old.refused }
        ensures tally { (vs : List Seen) → Tallies vs self.old → Tallies (vs ++ visit ∷ []) self.new }
        ensures claims { (vec_len self.new.claims ≡ vec_len self.old.claims + 1) × (vec_capacity self.new.claims ≡ vec_capacity self.old.claims) }
        ensures refused { (vec_len self.new.refused ≤ vec_len self.old.refused + 1) × (vec_capacity self.new.refused ≡ vec_capacity self.old.refused) }
    {
        let Visit {
            claim,
            reach,
            refused,
            closed,
            room: _,
        } = visit;
        self.claims.push_reserved(claim);
        self.reach = self.reach.max(reach);
        push_place(&mut self.refused, refused);
        self.kept = lesser_limit(self.kept, closed);
    }
}

fn last_visit(pass: &mut RunPass) -> Visit
    requires { 0 < length pass.old }
    ensures { pass.old ≡ pass.new ++ result ∷ [] }
{
    let Some(visit) = pass.visits.pop() else {
        unreachable!()
    };
    visit
}

/// Takes the last visit, that of run m, from each pass.
pub(crate) fn gather(passes: &mut Vec<RunPass>, m: usize, refused: Vec<u64>) -> Tally
    requires some { 0 < vec_len passes.old }
    requires each { All (λ p. length p ≡ m + 1) passes.old.items }
    requires callers { All (λ p. (visit_at p m).claim.claims.callers ≡ vec_len passes.old) passes.old.items }
    requires refused { (refused.items ≡ []) × (vec_len passes.old ≤ vec_capacity refused) }
    ensures tally { Tallies (column passes.old.items m) result }
    ensures rest { passes.new.items ≡ map (take m) passes.old.items }
{
    let count = passes.len();
    let mut tally = Tally::of(last_visit(&mut passes[0]), refused);
    for place in 1..count {
        let visit = last_visit(&mut passes[place]);
        tally.take_in(visit);
    }
    tally
}
