//! The shared counter. Its one rule: each draw is one add of one, and what it found is the draw.
ghost use Rattle.std.specs.Prelude.{◌≡◌, ℕ, ◌^◌, ◌<◌, ◌≤◌, [], true, false, All};
ghost use Rattle.std.specs.Prelude.{IfOk, IfSome, IfNone, replicate, vec_len};
ghost use Rattle.claim_word.specs.Passes.{fresh_pass, drew, pass_of, EachDrawnOnce};

use crate::pass::ClaimPass;
use crate::rule::{Counted, Divide, Draw, Gather, Terms, View};
use atomic_table::Table;
use outside::NoMemory;
use search_limits::MOST_WORKERS;
use std::alloc::Global;
use std::marker::Model;
use table_passes::close;

type Counter = Table<u8, View, Terms, Counted, Global>;

/// The counter from which passes draw the numbers below `count`. It is seen as its place, its count and the number
/// of its passes.
#[derive(Drop)]
pub struct Claims {
    table: Table<u8, View, Terms, Counted, Global>,
    count: u64,
    callers: u64,
}

impl Model for Claims {
    ghost use Rattle.std.specs.Prelude.{◌≡◌, ◌<◌};
    ghost use Rattle.claim_word.specs.Passes.{Claim, claim_code, claim_of, IsClaim};

    ghost Value = { Claim };

    ghost coded = { claim_code };

    ghost view = { λ c. claim_of c.table.shared.table_id c.count c.callers };

    ghost invariant = { λ c. IsClaim c.table.shared.table_id c.table.shared.key c.count c.callers };
}

impl Claims {
    /// A counter over the numbers below `n`, at most 2^32, with one fresh pass for each of the 1 to 64 callers.
    pub fn begin(alloc: Global, n: u64, callers: u32) -> Result<(Claims, Vec<ClaimPass>), NoMemory>
        requires callers { (1 ≤ callers) × (callers ≤ MOST_WORKERS) }
        requires n { n ≤ 2 ^ 32 }
        ensures count { IfOk result (λ r. r.0.count ≡ n) }
        ensures callers { IfOk result (λ r. r.0.callers ≡ callers) }
        ensures passes { IfOk result (λ r. r.1.items ≡ replicate callers (fresh_pass r.0)) }
    {
        let mut passes = Vec::with_capacity(alloc, callers as usize)?;
        let parts = u64::from(callers);
        let terms = Terms {
            count: n,
            callers: parts,
        };
        let (table, mut root) = Counter::of_words(alloc, &[0], &terms)?;
        for made in 0..parts {
            let seat = table.shared.split_seat::<Divide>(&mut root);
            passes.push_reserved(ClaimPass::of(seat));
        }
        let claims = Claims {
            table,
            count: n,
            callers: parts,
        };
        Ok((claims, passes))
    }

    /// Draws the next number, by one add. `None` comes exactly where all numbers were drawn at this step: the pass
    /// has then ended. It takes no memory and waits for nobody.
    pub fn draw(&self, pass: &mut ClaimPass) -> Option<u64>
        requires own { pass.old.claims ≡ self.now }
        requires goes_on { pass.old.ended ≡ false }
        ensures number { IfSome result (λ n. (n < self.now.count) × (pass.old.met ≤ n)) }
        ensures above { IfSome result (λ n. All (λ x. x < n) pass.old.draws) }
        ensures drawn { IfSome result (λ n. pass.new ≡ drew pass.old n) }
        ensures ended { IfNone result (pass.new ≡ record pass.old { met = self.now.count; ended = true }) }
    {
        let n = self.table.shared.fetch_add::<Draw>(&mut pass.seat, 0, 1);
        if n < self.count { Some(n) } else { None }
    }

    /// Ends the drawing, with all passes back: the draws of all of them together are the numbers below some c, each
    /// once, and c is the count where some pass has ended. It takes no memory and waits for nobody.
    pub fn close(self, passes: Vec<ClaimPass>)
        requires all { vec_len passes ≡ self.callers }
        requires own { All (λ p. p.claims ≡ self) passes.items }
        ensures { EachDrawnOnce self.count passes.items }
    {
        let Claims {
            table,
            count: _,
            callers: _,
        } = self;
        close::<View, Terms, Counted, Gather, ClaimPass>(table, passes);
    }
}
