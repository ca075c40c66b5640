//! Threads that draw together find each number once, however they come.
ghost use Rattle.std.specs.Prelude.{◌≡◌, ◌^◌, ◌<◌, ◌≤◌, false, All, IfOk, vec_len};
ghost use Rattle.claim_word.specs.Passes.{fresh_pass};

use crate::{ClaimPass, Claims};
use outside::NoMemory;
use search_limits::MOST_WORKERS;
use std::alloc::Global;
use std::test::*;
use std::thread::{Threads, for_each_mut};

// A pass, and what was drawn with it.
#[derive(Drop)]
struct Worker {
    pass: ClaimPass,
    found: Vec<u64>,
}

impl Worker {
    // Draws until no number is left, or memory runs out.
    fn work(&mut self, claims: &Claims)
        requires own { self.old.pass.claims ≡ claims.now }
        requires goes_on { self.old.pass.ended ≡ false }
        ensures { self.new.pass.claims ≡ claims.now }
    {
        while self.found.reserve(1).is_ok() {
            let Some(number) = claims.draw(&mut self.pass) else {
                return;
            };
            self.found.push_reserved(number);
        }
    }
}

fn hire(alloc: Global, claims: &Claims, passes: Vec<ClaimPass>) -> Result<Vec<Worker>, NoMemory>
    requires { All (λ p. p ≡ fresh_pass claims.now) passes.items }
    ensures len { IfOk result (λ team. vec_len team ≡ vec_len passes) }
    ensures fresh { IfOk result (λ team. All (λ w. w.pass ≡ fresh_pass claims.now) team.items) }
{
    let mut team = Vec::with_capacity(alloc, passes.len())?;
    for pass in passes {
        let found = Vec::new(alloc);
        team.push_reserved(Worker { pass, found });
    }
    Ok(team)
}

// The passes of all workers; what they found is put into one list.
fn dismiss(
    alloc: Global,
    claims: &Claims,
    team: Vec<Worker>,
    all: &mut Vec<u64>,
) -> Result<Vec<ClaimPass>, NoMemory>
    requires { All (λ w. w.pass.claims ≡ claims.now) team.items }
    ensures len { IfOk result (λ passes. vec_len passes ≡ vec_len team) }
    ensures own { IfOk result (λ passes. All (λ p. p.claims ≡ claims.now) passes.items) }
{
    let mut passes = Vec::with_capacity(alloc, team.len())?;
    for worker in team {
        let Worker { pass, found } = worker;
        all.extend_from_slice(&found)?;
        passes.push_reserved(pass);
    }
    Ok(passes)
}

// What `callers` threads find of the numbers below n, ascending.
fn draw_in_threads<R: Threads + Sync>(
    rt: &R,
    alloc: Global,
    n: u64,
    callers: u32,
) -> Result<Vec<u64>, NoMemory>
    requires callers { (1 ≤ callers) × (callers ≤ MOST_WORKERS) }
    requires n { n ≤ 2 ^ 32 }
{
    let (claims, passes) = Claims::begin(alloc, n, callers)?;
    let mut team = hire(alloc, &claims, passes)?;
    for_each_mut(
        rt,
        team.as_mut_slice(),
        callers as usize,
        &|_, worker| worker.work(&claims),
    );
    let mut all = Vec::new(alloc);
    let passes = dismiss(alloc, &claims, team, &mut all)?;
    claims.close(passes);
    all.sort_unstable();
    Ok(all)
}

#[test]
fn two_and_four_threads_find_each_number_once(rt: HostRuntime) -> Result<(), Fail> {
    for (callers, n) in [(2, 10_000), (4, 10_000), (4, 3), (3, 0)] {
        let mut want = Vec::new(rt.alloc());
        for number in 0..n {
            want.push(number)?;
        }
        let found = draw_in_threads(&rt, rt.alloc(), n, callers)?;
        assert_eq!(rt; found, want, "{callers} threads over {n} numbers");
    }
    Ok(())
}
