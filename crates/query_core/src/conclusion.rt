//! What a search ends with: the pairs of all lists, a line a queue, and a fate a leaf.
//! Fates are written line by line from the last to the first, so that a leaf keeps the first queue that gave it.
ghost use Rattle.std.specs.Prelude.{◌≡◌, ℕ, ◌<◌, ◌≤◌, List, IfOk, length};
ghost use Rattle.series_core.specs.Pairs.{smallest};
ghost use Rattle.search_machine.specs.Basics.{start_of};
ghost use Rattle.search_machine.specs.Machine.{State};
ghost use Rattle.search_machine.specs.Outcome.{fates_from, first_place, is_start, outcome};
ghost use Rattle.search_machine.specs.Sound.{scans};
ghost use Rattle.search_machine.specs.Workers.{Worker as Shown};
ghost use Rattle.query_core.specs.Fates.{AreMarked, HaveSearched, fate_unqueued, leaf_of};
ghost use Rattle.search_task.specs.Questions.{leaf_bound, search_over, view_in};
ghost use Rattle.query_core.specs.Teams.{AreOver, AreShown, EndsIn, HaveLeaf, all_lists};

use crate::merging::merge;
use crate::worker::Worker;
use outside::NoMemory;
use search_limits::{MOST_QUEUES, MOST_WORKERS};
use search_machine::{Fate, FateList, LineList, Outcome, QueueLine, Start};
use search_task::Search;
use series_core::{Entry, PairList, Rows};
use std::alloc::Global;

/// The outcome of every state whose workers these show, and whose queues these lines tell: the k smallest pairs of all lists,
/// the start, the lines, and for each leaf what became of it. A leaf that stands in several lines is reported of the first of
/// them; a leaf that stands in none, of the first worker that scanned it.
pub fn conclude<R: Rows>(
    alloc: Global,
    search: &Search<'_, R>,
    start: Option<Start>,
    workers: &[Worker<'_, R>],
    lines: LineList,
) -> Result<Outcome, NoMemory>
    requires start { start ≡ start_of (search_over search.now.question search.now.index 1 1) }
    requires over { AreOver search.now.question search.now.index workers.now }
    requires workers { length workers.now ≤ MOST_WORKERS }
    requires lines { length lines ≤ MOST_QUEUES }
    ensures { (n m : ℕ) (s : State) → EndsIn workers.now lines s
        → IfOk result (λ o. o ≡ outcome (search_over search.now.question search.now.index n m) s) }
{
    // for the fact that the index can be searched
    let k = search.k();
    let pairs = merged(alloc, k, workers)?;
    let fates = fates(alloc, search, start, workers, &lines.items)?;
    Ok(Outcome {
        pairs,
        start,
        lines,
        fates,
    })
}

// The k smallest pairs of all lists.
fn merged<R: Rows>(alloc: Global, k: u32, workers: &[Worker<'_, R>]) -> Result<PairList, NoMemory>
    ensures { IfOk result (λ ps. ps ≡ smallest k (all_lists workers.now)) }
{
    let mut pairs = Vec::new(alloc);
    for worker in workers {
        pairs = merge(alloc, k as usize, worker.list().pairs(), &pairs)?;
    }
    Ok(PairList { items: pairs })
}

// The fate of each leaf: first as where no queue gave it, and then that of each leaf that a queue gave.
fn fates<R: Rows>(
    alloc: Global,
    search: &Search<'_, R>,
    start: Option<Start>,
    workers: &[Worker<'_, R>],
    lines: &[QueueLine],
) -> Result<FateList, NoMemory>
    requires ended { HaveSearched search.now.question search.now.index start workers.now }
    requires lines { length lines.now ≤ MOST_QUEUES }
    ensures { (n m : ℕ) (s : State) → EndsIn workers.now lines.now s
        → IfOk result (λ fs. fs ≡ fates_from (search_over search.now.question search.now.index n m) s 0 (length search.now.index.leaves)) }
{
    let leaves = search.leaf_count();
    let mut fates = Vec::with_capacity(alloc, leaves as usize)?;
    for leaf in 0..leaves {
        fates.push_reserved(unqueued_fate(search, start, workers, leaf));
    }
    let mut m = lines.len();
    while m > 0 {
        m -= 1;
        let line = &lines[m];
        mark(&mut fates, start, m as u32, &line.taken.items);
    }
    Ok(FateList { items: fates })
}

// The fate of a leaf where no queue gave it.
fn unqueued_fate<R: Rows>(
    search: &Search<'_, R>,
    start: Option<Start>,
    workers: &[Worker<'_, R>],
    leaf: u32,
) -> Fate
    requires ended { HaveSearched search.now.question search.now.index start workers.now }
    requires leaf { leaf < length search.now.index.leaves }
    ensures { (n m : ℕ) (s : State) → AreShown workers.now s.workers
        → result ≡ fate_unqueued (search_over search.now.question search.now.index n m) s leaf }
{
    if is_start(start, leaf) {
        return Fate::Start;
    }
    match first_to_scan(workers, leaf) {
        Some(i) => Fate::Late(i),
        None => Fate::Bound(bound_of(search, workers, leaf)),
    }
}

// The bound of a leaf: a worker has reckoned it, or it is reckoned anew.
fn bound_of<R: Rows>(search: &Search<'_, R>, workers: &[Worker<'_, R>], leaf: u32) -> u64
    requires over { AreOver search.now.question search.now.index workers.now }
    requires leaf { leaf < length search.now.index.leaves }
    ensures { result ≡ leaf_bound (view_in search.now.question) search.now.index leaf }
{
    for worker in workers {
        if let Some(bound) = worker.bound_of(leaf) {
            return bound;
        }
    }
    search.word_bound(leaf)
}

// The first worker that scanned the leaf.
fn first_to_scan<R: Rows>(workers: &[Worker<'_, R>], leaf: u32) -> Option<u32>
    requires workers { length workers.now ≤ MOST_WORKERS }
    requires leaf { HaveLeaf workers.now leaf }
    ensures { (ms : List Shown) → AreShown workers.now ms → result ≡ first_place (scans leaf) ms }
{
    for (i, worker) in workers.iter().enumerate() {
        if worker.has_scanned(leaf) {
            return Some(i as u32);
        }
    }
    None
}

// Whether the leaf is that of the start.
fn is_start(start: Option<Start>, leaf: u32) -> bool
    ensures { result ≡ is_start (leaf_of start) leaf }
{
    match start {
        Some(start) => start.leaf == leaf,
        None => false,
    }
}

// Gives each leaf that was taken from this queue its fate, but not the start leaf.
fn mark(fates: &mut [Fate], start: Option<Start>, queue: u32, taken: &[Entry])
    ensures { AreMarked (leaf_of start) queue taken.now fates.old fates.new }
{
    for entry in taken {
        let leaf = entry.leaf as usize;
        if leaf >= fates.len() {
            continue;
        }
        if is_start(start, entry.leaf) {
            continue;
        }
        fates[leaf] = Fate::Queue(queue);
    }
}
