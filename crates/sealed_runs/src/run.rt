//! One sealed run. Its one rule: an entry is handed out by the pop that drew its place, and by no other.
ghost use Rattle.std.specs.Prelude.{◌≡◌, ℕ, ◌≤◌, ◌<◌, ◌^◌, [], None, IfOk, replicate, length};
ghost use Rattle.claim_word.specs.Passes.{fresh_pass};
ghost use Rattle.sealed_runs.specs.Visits.{IsVisit};
ghost use Rattle.sealed_runs.specs.Popped.{Pops};

use crate::pass::Visit;
use claim_word::{ClaimPass, Claims};
use outside::NoMemory;
use search_limits::MOST_WORKERS;
use series_core::{Entry, PopReply, far};
use std::alloc::Global;
use std::marker::Model;

/// A run with its counter, and the room that closing it needs.
#[derive(Drop)]
pub struct Run {
    pub(crate) claims: Claims,
    pub(crate) entries: Vec<Entry>,
    pub(crate) taken: Vec<Entry>,
    pub(crate) refused: Vec<u64>,
}

impl Model for Run {
    ghost use Rattle.std.specs.Prelude.{◌≡◌, ◌≤◌, [], vec_len, vec_capacity};
    ghost use Rattle.sealed_runs.specs.Entries.{Run as Seen};

    ghost Value = { Seen };

    ghost view = { λ r. record { claims = r.claims; entries = r.entries.items } };

    ghost invariant = { λ r. (vec_len r.entries ≡ r.claims.count) × (r.taken.items ≡ []) × (vec_len r.entries ≤ vec_capacity r.taken) × (r.refused.items ≡ []) × (r.claims.callers ≤ vec_capacity r.refused) };
}

impl Run {
    /// A run over entries in their order, with the passes of its counter.
    pub(crate) fn seal(
        alloc: Global,
        entries: Vec<Entry>,
        callers: u32,
    ) -> Result<(Run, Vec<ClaimPass>), NoMemory>
        requires callers { (1 ≤ callers) × (callers ≤ MOST_WORKERS) }
        requires count { length entries.items ≤ 2 ^ 32 }
        ensures entries { IfOk result (λ r. r.0.entries ≡ entries.items) }
        ensures count { IfOk result (λ r. r.0.claims.count ≡ length entries.items) }
        ensures callers { IfOk result (λ r. r.0.claims.callers ≡ callers) }
        ensures passes { IfOk result (λ r. r.1.items ≡ replicate callers (fresh_pass r.0.claims)) }
    {
        let taken = Vec::with_capacity(alloc, entries.len())?;
        let refused = Vec::with_capacity(alloc, callers as usize)?;
        let (claims, passes) = Claims::begin(alloc, entries.len() as u64, callers)?;
        let run = Run {
            claims,
            entries,
            taken,
            refused,
        };
        Ok((run, passes))
    }

    /// Draws the next place of the run: its entry, where the bound is at most `far(limit)`, and else Closed.
    pub(crate) fn pop(&self, visit: &mut Visit, limit: u64) -> PopReply
        requires own { IsVisit self.now visit.old }
        requires goes_on { visit.old.closed ≡ None }
        ensures pops { Pops self.now limit result visit.old visit.new }
    {
        match self.claims.draw(&mut visit.claim) {
            Some(place) => {
                visit.reach = place + 1;
                let entry = self.entries[place as usize];
                if entry.bound <= far(limit) {
                    return PopReply::Leaf(entry);
                }
                visit.refused = Some(place);
            }
            None => visit.reach = self.entries.len() as u64,
        }
        visit.closed = Some(limit);
        PopReply::Closed(limit)
    }
}
