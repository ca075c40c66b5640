//! The answer alone by all workers: the caller finds a limit and the way as one worker does, and where enough is left to pay for the start
//! of threads, all workers draw what is left.
ghost use Rattle.std.specs.Prelude.{◌≡◌, ◌≤◌, IfOk};
ghost use Rattle.series_core.specs.Answer.{answer};
ghost use Rattle.subtree_build.specs.Fits.{Fits as IndexFits};
ghost use Rattle.search_task.specs.Questions.{last_of};
ghost use Rattle.nearest_answer.specs.Begun.{IsBegun};

use crate::all_rows::answer_by_rows;
use crate::answer::one_worker_answer;
use crate::begun::Begun;
use crate::by_leaves::{begin_by_leaves, finish_in_order, left_by_first, narrowed, split_closest};
use crate::crew::Crew;
use crate::limits::first_limit;
use crate::sharing::{hired_for_leaves, hired_for_rows, is_little, shared_first, value_count};
use crate::sweep::answer_by_codes;
use crate::team::{Drawn, found_together, scan_together};
use crate::telling::{ApartBy, what_tells};
use crate::tuning::{FIRST_MEMBERS, LEAST_VALUES_TO_SHARE, MOST_RANKS_AT_ONCE};
use crate::way::first_way;
use outside::{Gate, NoMemory};
use search_limits::MOST_WORKERS;
use search_task::{Search, Task};
use series_core::{KBest, PairList, Rows};
use std::alloc::Global;
use std::thread::Threads;
use subtree_build::Index;

/// The k nearest rows by one worker, as `one_worker_answer` finds them, or where much is left to scan by this many, from 1 to 64, each in
/// a thread of its own: the same pairs whatever the number of workers and whichever stretches each of them draws.
/// `gate.pass(worker, turn)` comes before each draw of a stretch, turns counted from 0. It waits for nobody.
pub fn answer_by_team<T: Threads + Sync, R: Rows + Sync, G: Gate + Sync>(
    rt: &T,
    alloc: Global,
    task: &Task<'_, R>,
    index: &Index,
    workers: u32,
    gate: &G,
) -> Result<PairList, NoMemory>
    requires fits { IndexFits task.now.collection task.now.layout index.now }
    requires workers { (1 ≤ workers) × (workers ≤ MOST_WORKERS) }
    ensures { IfOk result (λ ps. ps ≡ answer task.now.collection task.now.query task.now.k) }
{
    if workers == 1 {
        return one_worker_answer(alloc, task, index);
    }
    let search = Search::new(task, index);
    let crew = Crew {
        rt,
        alloc,
        workers,
        gate,
    };
    let (by, first) = first_way(alloc, &search)?;
    let list = match by {
        ApartBy::Means => by_near_leaves(&crew, &search, first)?,
        ApartBy::Codes | ApartBy::Nothing => rest(&crew, &search, by, first)?,
    };
    Ok(PairList {
        items: list.pairs().to_vec(alloc)?,
    })
}

/// The same by all workers from the first limit on, however little there is to scan, and in the way that is told.
pub fn answer_by_stretches<T: Threads + Sync, R: Rows + Sync, G: Gate + Sync>(
    rt: &T,
    alloc: Global,
    task: &Task<'_, R>,
    index: &Index,
    by: ApartBy,
    workers: u32,
    gate: &G,
) -> Result<PairList, NoMemory>
    requires fits { IndexFits task.now.collection task.now.layout index.now }
    requires workers { (1 ≤ workers) × (workers ≤ MOST_WORKERS) }
    ensures { IfOk result (λ ps. ps ≡ answer task.now.collection task.now.query task.now.k) }
{
    let search = Search::new(task, index);
    let crew = Crew {
        rt,
        alloc,
        workers,
        gate,
    };
    let first = first_limit(alloc, &search, FIRST_MEMBERS)?;
    let list = match by {
        ApartBy::Means => {
            let left = left_by_first(alloc, &search, first)?;
            finish_at_once(&crew, &search, left)?
        }
        ApartBy::Codes | ApartBy::Nothing => {
            found_together(&crew, &search, Drawn::Whole(by), first)?
        }
    };
    Ok(PairList {
        items: list.pairs().to_vec(alloc)?,
    })
}

// The list of the answer by the leaves within a first limit: those of least bound are scanned for a closer one, and then what is left is
// shared where it is much.
fn by_near_leaves<T: Threads + Sync, R: Rows + Sync, G: Gate + Sync>(
    crew: &Crew<'_, T, G>,
    search: &Search<'_, R>,
    first: u64,
) -> Result<KBest, NoMemory>
    requires limit { last_of search.now.question ≤ first }
    requires workers { (1 ≤ crew.now.workers) × (crew.now.workers ≤ MOST_WORKERS) }
    ensures { let a = search.now.question in IfOk result (λ best. best.pairs ≡ answer a.collection a.query a.k) }
{
    let begun = begin_by_leaves(crew.alloc, search, first)?;
    if begun.left.is_empty() {
        return finish_in_order(crew.alloc, search, begun);
    }
    match what_tells(search, begun.limit) {
        ApartBy::Means if is_little(search, begun.left.len()) => {
            finish_in_order(crew.alloc, search, begun)
        }
        ApartBy::Means => finish_together(crew, search, begun),
        by => rest(crew, search, by, begun.limit),
    }
}

// The list of the answer from what is left, by all workers. Where k is great, what is left is shared in two parts.
fn finish_together<T: Threads + Sync, R: Rows + Sync, G: Gate + Sync>(
    crew: &Crew<'_, T, G>,
    search: &Search<'_, R>,
    begun: Begun,
) -> Result<KBest, NoMemory>
    requires begun { IsBegun search.now begun }
    requires workers { (1 ≤ crew.now.workers) × (crew.now.workers ≤ MOST_WORKERS) }
    ensures { let a = search.now.question in IfOk result (λ best. best.pairs ≡ answer a.collection a.query a.k) }
{
    let hired = crew.of(hired_for_leaves(search, begun.left.len(), crew.workers));
    if search.k() <= MOST_RANKS_AT_ONCE {
        return finish_at_once(&hired, search, begun);
    }
    let closer = closer_together(&hired, search, begun)?;
    let left = closer.left.len();
    if is_little(search, left) {
        return finish_in_order(crew.alloc, search, closer);
    }
    let hired = crew.of(hired_for_leaves(search, left, crew.workers));
    finish_at_once(&hired, search, closer)
}

// Those of least bound are scanned by all workers, which tells a closer limit for the others.
fn closer_together<T: Threads + Sync, R: Rows + Sync, G: Gate + Sync>(
    crew: &Crew<'_, T, G>,
    search: &Search<'_, R>,
    begun: Begun,
) -> Result<Begun, NoMemory>
    requires begun { IsBegun search.now begun }
    requires workers { (1 ≤ crew.now.workers) × (crew.now.workers ≤ MOST_WORKERS) }
    ensures { IfOk result (λ b. IsBegun search.now b) }
{
    let Begun {
        mut list,
        limit,
        mut left,
    } = begun;
    let (closest, others) = split_closest(crew.alloc, left.as_mut_slice(), shared_first(search))?;
    scan_together(crew, search, &closest, limit, &mut list)?;
    narrowed(crew.alloc, search, list, limit, others)
}

// All that is left is scanned by all workers.
fn finish_at_once<T: Threads + Sync, R: Rows + Sync, G: Gate + Sync>(
    crew: &Crew<'_, T, G>,
    search: &Search<'_, R>,
    mut begun: Begun,
) -> Result<KBest, NoMemory>
    requires begun { IsBegun search.now begun }
    requires workers { (1 ≤ crew.now.workers) × (crew.now.workers ≤ MOST_WORKERS) }
    ensures { let a = search.now.question in IfOk result (λ best. best.pairs ≡ answer a.collection a.query a.k) }
{
    // for the fact that the index can be searched for the question
    let _k = search.k();
    scan_together(crew, search, &begun.left, begun.limit, &mut begun.list)?;
    Ok(begun.list)
}

// The list of the answer by the codes of all members' rows, or by all rows: shared where these have many values.
fn rest<T: Threads + Sync, R: Rows + Sync, G: Gate + Sync>(
    crew: &Crew<'_, T, G>,
    search: &Search<'_, R>,
    by: ApartBy,
    limit: u64,
) -> Result<KBest, NoMemory>
    requires limit { last_of search.now.question ≤ limit }
    requires workers { (1 ≤ crew.now.workers) × (crew.now.workers ≤ MOST_WORKERS) }
    ensures { let a = search.now.question in IfOk result (λ best. best.pairs ≡ answer a.collection a.query a.k) }
{
    let values = value_count(search.task());
    match by {
        ApartBy::Codes if values < LEAST_VALUES_TO_SHARE => {
            let empty = KBest::new(crew.alloc, search.k())?;
            Ok(answer_by_codes(search, limit, empty))
        }
        ApartBy::Nothing if values < LEAST_VALUES_TO_SHARE => {
            answer_by_rows(crew.alloc, search, limit)
        }
        _ => {
            let hired = crew.of(hired_for_rows(search.task(), crew.workers));
            found_together(&hired, search, Drawn::Whole(by), limit)
        }
    }
}
