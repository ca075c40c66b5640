//! Queries that workers answer side by side: each worker draws the next few until none is left, so that no worker waits for one whose
//! queries take longer. Each draw passes the gate. Its one rule: what is found for a query stands beside its number.
ghost use Rattle.std.specs.Prelude.{◌≡◌, ◌+◌, ◌*◌, ◌<◌, ◌≤◌, ℕ, All, IfOk, length, vec_len};
ghost use Rattle.claim_word.specs.Passes.{Claim, fresh_pass};
ghost use Rattle.group_answer.specs.Asking.{AreAnswers};
ghost use Rattle.search_limits.specs.declared.numbers.TheConstants.{MOST_WORKERS};
ghost use Rattle.search_run.specs.Batches.{IsBatch, IsDeal, IsFresh};
ghost use Rattle.search_run.specs.declared.tuning.TheConstants.{MOST_QUERIES_OF_DRAW};

use crate::batch::Batch;
use crate::crew::Crew;
use crate::tuning::{FIRST_QUERIES_AHEAD, QUERIES_AHEAD, queries_of_draw};
use claim_word::{ClaimPass, Claims};
use group_answer::{Answered, next_answer};
use outside::{Gate, NoMemory};
use series_core::Rows;
use std::alloc::Global;
use std::thread::Threads;
use worker_team::for_each_mut;

/// A worker, its pass of the draws and what it found.
#[derive(Drop)]
pub struct Share {
    /// The number of the worker, from 0.
    pub number: u32,
    /// Its pass of the draws.
    pub pass: ClaimPass,
    /// What it found.
    pub found: Vec<Answered>,
}

/// The queries that are dealt: from `first` up to but not including `end`, so many a draw.
#[derive(Clone, Copy)]
pub struct Deal {
    /// The first of them.
    pub first: u32,
    /// The number behind the last.
    pub end: u32,
    /// How many a worker draws at a time.
    pub each: u32,
}

impl Deal {
    // Some of `count` queries from `first` on, for so many workers: few at first, so that what is answered first is soon written.
    fn of(first: u32, count: u32, workers: u32) -> Deal
        requires some { first < count }
        requires workers { 1 ≤ workers }
        ensures first { result.first ≡ first }
        ensures end { (first < result.end) × (result.end ≤ count) }
        ensures each { (1 ≤ result.each) × (result.each ≤ MOST_QUERIES_OF_DRAW) }
    {
        let most = first.max(FIRST_QUERIES_AHEAD).min(QUERIES_AHEAD);
        let size = most.min(count - first);
        Deal {
            first,
            end: first + size,
            each: queries_of_draw(size / workers),
        }
    }

    // How many draws there are.
    fn draws(&self) -> u32
        requires some { 1 ≤ self.now.each }
        requires order { self.now.first < self.now.end }
        ensures { (n : ℕ) → n < result → self.now.first + n * self.now.each < self.now.end }
    {
        (self.end - self.first).div_ceil(self.each)
    }
}

// A share for each pass, of which there are no more than workers, with nothing found.
fn shares(alloc: Global, passes: Vec<ClaimPass>) -> Result<Vec<Share>, NoMemory>
    requires few { vec_len passes ≤ MOST_WORKERS }
    ensures { (claims : Claim) → All (λ p. p ≡ fresh_pass claims) passes.items
        → IfOk result (λ shares. All (IsFresh claims) shares.items) }
{
    let mut shares = Vec::with_capacity(alloc, passes.len())?;
    for pass in passes {
        let number = shares.len() as u32;
        let found = Vec::new(alloc);
        shares.push_reserved(Share {
            number,
            pass,
            found,
        });
    }
    Ok(shares)
}

impl<R: Rows> Batch<'_, R> {
    // Draws queries until none is left, and finds the answer to each, where memory suffices.
    fn draw_all<T, G: Gate>(
        &self,
        crew: &Crew<'_, T, G>,
        claims: &Claims,
        deal: Deal,
        share: &mut Share,
    )
        requires batch { IsBatch R.collection self.now }
        requires deal { IsDeal deal claims.now.count (length self.now.asked.queries.now.series) }
        requires fresh { IsFresh claims.now share.old }
        ensures { AreAnswers R.collection self.now.asked share.new.found.items }
    {
        // for the fact that their number fits
        let _count = self.asked.queries.count();
        let mut turn = 0u64;
        loop {
            crew.gate.pass(share.number, turn);
            turn = turn.saturating_add(1);
            let Some(drawn) = claims.draw(&mut share.pass) else {
                return;
            };
            let from = deal.first + drawn as u32 * deal.each;
            let to = deal.end.min(from + deal.each);
            if self
                .answer_drawn(crew.alloc, from, to, &mut share.found)
                .is_err()
            {
                return;
            }
        }
    }

    // Finds the answers to queries from `from` up to but not including `to`, where memory suffices.
    fn answer_drawn(
        &self,
        alloc: Global,
        from: u32,
        to: u32,
        found: &mut Vec<Answered>,
    ) -> Result<(), NoMemory>
        requires batch { IsBatch R.collection self.now }
        requires end { to ≤ length self.now.asked.queries.now.series }
        requires found { AreAnswers R.collection self.now.asked found.old.items }
        ensures { AreAnswers R.collection self.now.asked found.new.items }
    {
        let mut ahead = Vec::new(alloc);
        for number in from..to {
            if let Ok(pairs) = next_answer(alloc, &self.asked, number, to, &mut ahead) {
                found.push(Answered { number, pairs })?;
            }
        }
        Ok(())
    }

    // All that was found, the last query first.
    fn gather(&self, alloc: Global, shares: Vec<Share>) -> Result<Vec<Answered>, NoMemory>
        requires { All (λ s. AreAnswers R.collection self.now.asked s.found.items) shares.items }
        ensures { IfOk result (λ found. AreAnswers R.collection self.now.asked found.items) }
    {
        let mut all = Vec::new(alloc);
        for share in shares {
            for found in share.found {
                all.push(found)?;
            }
        }
        all.sort_unstable_by_key(|found| u32::MAX - found.number);
        Ok(all)
    }
}

impl<R: Rows + Sync> Batch<'_, R> {
    /// The answers to queries from `first` on, the last of them first, found side by side, each by one worker. A query for which memory
    /// did not suffice is left out.
    pub fn side_by_side<T: Threads + Sync, G: Gate + Sync>(
        &self,
        crew: &Crew<'_, T, G>,
        first: u32,
    ) -> Result<Vec<Answered>, NoMemory>
        requires batch { IsBatch R.collection self.now }
        requires below { first < length self.now.asked.queries.now.series }
        ensures { IfOk result (λ found. AreAnswers R.collection self.now.asked found.items) }
    {
        let deal = Deal::of(first, self.asked.queries.count(), self.workers);
        let (claims, passes) = Claims::begin(crew.alloc, u64::from(deal.draws()), self.workers)?;
        let mut shares = shares(crew.alloc, passes)?;
        self.draw_together(crew, &claims, deal, shares.as_mut_slice());
        self.gather(crew.alloc, shares)
    }

    // Lets all workers draw side by side, each in a thread of its own.
    fn draw_together<T: Threads + Sync, G: Gate + Sync>(
        &self,
        crew: &Crew<'_, T, G>,
        claims: &Claims,
        deal: Deal,
        shares: &mut [Share],
    )
        requires batch { IsBatch R.collection self.now }
        requires deal { IsDeal deal claims.now.count (length self.now.asked.queries.now.series) }
        requires fresh { All (IsFresh claims.now) shares.old }
        ensures { All (λ s. AreAnswers R.collection self.now.asked s.found.items) shares.new }
    {
        for_each_mut(
            crew.rt,
            shares,
            &|_, share| self.draw_all(crew, claims, deal, share),
        );
    }
}
