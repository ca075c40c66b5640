//! The root children that workers claim. They are drawn in groups, so that few draws meet at the shared counter, and a worker
//! is given those of its group one after another. Its one rule: each root child is given once.
ghost use Rattle.std.specs.Prelude.{◌≡◌, ◌≤◌, false, All, IfOk, map, replicate, vec_len};
ghost use Rattle.claim_word.specs.Passes.{EachDrawnOnce, fresh_pass};
ghost use Rattle.live_query.specs.RootClaims.{DidClaim, IsOwn, fresh_drawn, group_count};

use crate::tuning::{GROUPS_A_SHARE, MOST_ROOTS_A_GROUP};
use claim_word::{ClaimPass, Claims};
use outside::NoMemory;
use search_limits::MOST_WORKERS;
use std::alloc::Global;
use std::marker::Model;

/// The root children below a number, with the counter of their groups.
#[derive(Drop)]
pub struct RootClaims {
    groups: Claims,
    roots: u64,
    size: u64,
}

impl Model for RootClaims {
    ghost use Rattle.std.specs.Prelude.{◌≡◌, ◌<◌, ◌≤◌, ◌^◌};
    ghost use Rattle.live_query.specs.RootClaims.{Roots, group_count};
    ghost use Rattle.live_query.specs.declared.tuning.TheConstants.{MOST_ROOTS_A_GROUP};

    ghost Value = { Roots };

    ghost view = { λ r. record { counter = r.groups; count = r.roots; size = r.size } };

    ghost invariant = { λ r. (0 < r.size) × (r.size ≤ MOST_ROOTS_A_GROUP) × (r.roots ≤ 2 ^ 32) × (r.groups.count ≡ group_count r.size r.roots) };
}

/// What a worker drew: its pass of the counter, whether that has ended, and the root children that it has still to be given.
#[derive(Drop)]
pub struct Drawing {
    pass: ClaimPass,
    ended: bool,
    next: u64,
    end: u64,
}

impl Model for Drawing {
    ghost use Rattle.std.specs.Prelude.{◌≡◌};
    ghost use Rattle.live_query.specs.RootClaims.{Drawn};

    ghost Value = { Drawn };

    ghost view = { λ d. record { pass = d.pass; next = d.next; end = d.end } };

    ghost invariant = { λ d. d.ended ≡ d.pass.ended };
}

impl Drawing {
    fn of(pass: ClaimPass) -> Drawing
        requires { pass.ended ≡ false }
        ensures { result ≡ fresh_drawn pass }
    {
        Drawing {
            pass,
            ended: false,
            next: 0,
            end: 0,
        }
    }

    /// Its pass of the counter.
    pub(crate) fn into_pass(self) -> ClaimPass
        ensures { result ≡ self.pass }
    {
        self.pass
    }
}

impl RootClaims {
    /// The root children below a number, with a fresh drawing for each of the 1 to 64 workers.
    pub(crate) fn begin(
        alloc: Global,
        roots: u32,
        workers: u32,
    ) -> Result<(RootClaims, Vec<Drawing>), NoMemory>
        requires { (1 ≤ workers) × (workers ≤ MOST_WORKERS) }
        ensures count { IfOk result (λ r. r.0.count ≡ roots) }
        ensures workers { IfOk result (λ r. r.0.counter.callers ≡ workers) }
        ensures drawings { IfOk result (λ r. r.1.items ≡ replicate workers (fresh_drawn (fresh_pass r.0.counter))) }
    {
        let size = (roots / (GROUPS_A_SHARE * workers)).clamp(1, MOST_ROOTS_A_GROUP);
        let groups = groups_of(roots, size);
        let (groups, passes) = Claims::begin(alloc, groups, workers)?;
        let drawings = drawings(alloc, passes)?;
        let claims = RootClaims {
            groups,
            roots: u64::from(roots),
            size: u64::from(size),
        };
        Ok((claims, drawings))
    }

    /// The next root child for a worker: of its group, or the first of a group that it draws. `None` comes exactly where none of
    /// its group is left and all groups are drawn; no draw follows. It takes no memory and never waits.
    pub(crate) fn claim(&self, drawing: &mut Drawing) -> Option<u64>
        requires { IsOwn self.now drawing.old }
        ensures own { IsOwn self.now drawing.new }
        ensures did { DidClaim self.now drawing.old result drawing.new }
    {
        if drawing.next < drawing.end {
            let number = drawing.next;
            drawing.next += 1;
            return Some(number);
        }
        if drawing.ended {
            return None;
        }
        match self.groups.draw(&mut drawing.pass) {
            Some(group) => {
                let first = group * self.size;
                drawing.next = first + 1;
                drawing.end = self.roots.min(first + self.size);
                Some(first)
            }
            None => {
                drawing.ended = true;
                None
            }
        }
    }

    /// Ends the claims, with all passes back: no group was drawn twice, and all were where some pass has ended.
    pub(crate) fn close(self, passes: Vec<ClaimPass>)
        requires all { vec_len passes ≡ self.counter.callers }
        requires own { All (λ p. p.claims ≡ self.counter) passes.items }
        ensures { EachDrawnOnce (group_count self.size self.count) passes.items }
    {
        self.groups.close(passes);
    }
}

// How many groups of `size` root children there are.
fn groups_of(roots: u32, size: u32) -> u64
    requires { 1 ≤ size }
    ensures value { result ≡ group_count size roots }
    ensures few { result ≤ roots }
{
    (u64::from(roots) + u64::from(size - 1)) / u64::from(size)
}

// A drawing for each pass.
fn drawings(alloc: Global, passes: Vec<ClaimPass>) -> Result<Vec<Drawing>, NoMemory>
    requires { All (λ p. p.ended ≡ false) passes.items }
    ensures { IfOk result (λ ds. ds.items ≡ map fresh_drawn passes.items) }
{
    let mut drawings = Vec::with_capacity(alloc, passes.len())?;
    for pass in passes {
        drawings.push_reserved(Drawing::of(pass));
    }
    Ok(drawings)
}
