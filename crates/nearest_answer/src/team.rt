//! Workers that draw stretches until none is left, each with the k nearest of what it drew; and what all of them found. Its one rule: what
//! is found of stretches does not depend on who drew them.
ghost use Rattle.std.specs.Prelude.{◌≡◌, ℕ, ◌^◌, ◌<◌, ◌≤◌, ◌++◌, ◌∷◌, [], All, IfOk, List, length, vec_len};
ghost use Rattle.list_totals.specs.Totals.{times};
ghost use Rattle.list_team.specs.Searchers.{IsFresh};
ghost use Rattle.search_machine.specs.Sound.{ListSound};
ghost use Rattle.search_task.specs.Questions.{ground_of, last_of};
ghost use Rattle.nearest_answer.specs.NearLeaves.{IsLeafEntry, leaves_in};
ghost use Rattle.nearest_answer.specs.Team.{AreCut, HasAll, HasFound, IsDone, IsStretch, MayBeDrawn};

use crate::crew::Crew;
use crate::listed::{scan_listed, stretches_of};
use crate::stretches::{scan_stretch, stretch_count};
use crate::telling::ApartBy;
use best_word::BestWord;
use claim_word::Claims;
use list_team::{Searcher, dismiss, hire, offer_last};
use outside::{Gate, NoMemory};
use search_limits::MOST_WORKERS;
use search_task::Search;
use series_core::{Entry, KBest, Rows};
use std::thread::Threads;
use worker_team::for_each_mut;

/// What workers draw stretches of.
#[derive(Clone, Copy)]
pub(crate) enum Drawn<'a> {
    /// The leaves of these entries.
    Listed(&'a [Entry]),
    /// All leaves, or all rows where nothing tells members apart.
    Whole(ApartBy),
}

/// Scans the leaves of these entries into a list, by all workers. What lies beyond the limit is left out.
pub(crate) fn scan_together<T: Threads + Sync, R: Rows + Sync, G: Gate + Sync>(
    crew: &Crew<'_, T, G>,
    search: &Search<'_, R>,
    entries: &[Entry],
    limit: u64,
    list: &mut KBest,
) -> Result<(), NoMemory>
    requires workers { (1 ≤ crew.now.workers) × (crew.now.workers ≤ MOST_WORKERS) }
    requires limit { last_of search.now.question ≤ limit }
    requires leaves { All (IsLeafEntry (ground_of search.now)) entries.now }
    requires once { (l : ℕ) → times l (leaves_in entries.now) ≤ 1 }
    requires list { (list.old.k ≡ search.now.question.k) × (length list.old.pairs ≤ search.now.question.k) }
    ensures list { let k = search.now.question.k in IfOk result (λ _. (list.new.k ≡ k) × (length list.new.pairs ≤ k)) }
    ensures met { let g = ground_of search.now in IfOk result (λ _. (met : List ℕ)
        → ((l : ℕ) → times l (met ++ leaves_in entries.now) ≤ 1) → ListSound g met list.old.pairs
        → ListSound g (met ++ leaves_in entries.now) list.new.pairs) }
{
    // for the fact that the index can be searched for the question
    let _k = search.k();
    let found = found_together(crew, search, Drawn::Listed(entries), limit)?;
    list.merge(&found);
    Ok(())
}

/// The k nearest of all stretches, by as many of the workers as there are stretches.
pub(crate) fn found_together<T: Threads + Sync, R: Rows + Sync, G: Gate + Sync>(
    crew: &Crew<'_, T, G>,
    search: &Search<'_, R>,
    what: Drawn<'_>,
    limit: u64,
) -> Result<KBest, NoMemory>
    requires workers { (1 ≤ crew.now.workers) × (crew.now.workers ≤ MOST_WORKERS) }
    requires limit { last_of search.now.question ≤ limit }
    requires listed { MayBeDrawn search.now what }
    ensures { IfOk result (λ best. HasAll search.now what.entry best.pairs) }
{
    let count = count_of(search, what)?;
    let workers = crew.workers.min(count.max(1));
    let (best, words) = BestWord::begin(crew.alloc, search.task(), limit, workers)?;
    let (claims, passes) = Claims::begin(crew.alloc, u64::from(count), workers)?;
    let k = search.k();
    let mut team = hire(crew.alloc, &claims, &best, k, passes, words)?;
    draw_together(crew.rt, search, what, &claims, &best, crew.gate, &mut team);
    let found = dismiss(crew.alloc, k, claims, team)?;
    Ok(found)
}

// How many stretches there are. Want of memory where those of entries are more than leaves can be.
fn count_of<R: Rows>(search: &Search<'_, R>, what: Drawn<'_>) -> Result<u32, NoMemory>
    requires listed { MayBeDrawn search.now what }
    ensures { IfOk result (AreCut search.now what.entry) }
{
    match what {
        Drawn::Listed(entries) => stretches_of(entries),
        Drawn::Whole(by) => Ok(stretch_count(search, by)),
    }
}

// Lets the workers draw side by side, each in a thread of its own that the caller starts; a worker alone starts no thread.
fn draw_together<T: Threads + Sync, R: Rows + Sync, G: Gate + Sync>(
    rt: &T,
    search: &Search<'_, R>,
    what: Drawn<'_>,
    claims: &Claims,
    best: &BestWord,
    gate: &G,
    team: &mut Vec<Searcher>,
)
    requires cut { AreCut search.now what claims.now.count }
    requires few { claims.now.count ≤ 2 ^ 32 }
    requires fresh { let a = search.now.question in
        All (IsFresh claims.now best.now (last_of a) a.k) team.old.items }
    ensures len { vec_len team.new ≡ vec_len team.old }
    ensures own { All (λ w. w.pass.claims ≡ claims.now) team.new.items }
    ensures done { All (λ w. IsDone search.now what.entry claims.now.count w.pass w.list) team.new.items }
{
    for_each_mut(
        rt,
        team.as_mut_slice(),
        &|_, worker| draw_all(search, what, claims, best, gate, worker),
    );
}

// Draws stretches until none is left, and scans each by the limit that all share as it then is.
fn draw_all<R: Rows, G: Gate>(
    search: &Search<'_, R>,
    what: Drawn<'_>,
    claims: &Claims,
    best: &BestWord,
    gate: &G,
    worker: &mut Searcher,
)
    requires cut { AreCut search.now what claims.now.count }
    requires few { claims.now.count ≤ 2 ^ 32 }
    requires fresh { let a = search.now.question in IsFresh claims.now best.now (last_of a) a.k worker.old }
    ensures own { worker.new.pass.claims ≡ claims.now }
    ensures done { IsDone search.now what.entry claims.now.count worker.new.pass worker.new.list }
{
    // for the fact that the index can be searched for the question
    let _k = search.k();
    loop {
        gate.pass(worker.number, worker.turn);
        worker.turn = worker.turn.saturating_add(1);
        let Some(drawn) = claims.draw(&mut worker.pass) else {
            worker.ended = true;
            return;
        };
        let limit = best.read(&mut worker.word);
        scan_drawn(search, what, drawn as u32, limit, &mut worker.list);
        offer_last(best, &mut worker.word, &worker.list);
    }
}

// Scans the stretch of this number with this limit into a list.
fn scan_drawn<R: Rows>(
    search: &Search<'_, R>,
    what: Drawn<'_>,
    number: u32,
    limit: u64,
    list: &mut KBest,
)
    requires number { IsStretch search.now what number }
    requires limit { last_of search.now.question ≤ limit }
    requires list { (list.old.k ≡ search.now.question.k) × (length list.old.pairs ≤ search.now.question.k) }
    ensures list { (list.new.k ≡ search.now.question.k) × (length list.new.pairs ≤ search.now.question.k) }
    ensures found { let s = search.now in let of = what.entry in (count : ℕ) (ns : List ℕ) → AreCut s of count → number < count
        → All (λ n. n < number) ns → HasFound s of count ns list.old.pairs → HasFound s of count (ns ++ number ∷ []) list.new.pairs }
{
    // for the fact that the index can be searched for the question
    let _k = search.k();
    match what {
        Drawn::Listed(entries) => scan_listed(search, entries, number as usize, limit, list),
        Drawn::Whole(by) => scan_stretch(search, by, number, limit, list),
    }
}
