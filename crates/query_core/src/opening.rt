//! With what a search opens: its workers, the limit that its start gives, and empty queues.
ghost use Rattle.std.specs.Prelude.{◌≡◌, ◌≤◌, EachIndex, IfOk, length, slice_index, vec_len};
ghost use Rattle.search_machine.specs.Basics.{start_of};
ghost use Rattle.search_machine.specs.Ground.{Ground, opening, start_limit};
ghost use Rattle.search_machine.specs.Machine.{capacity_of, empty_queues};
ghost use Rattle.search_task.specs.Questions.{search_over};
ghost use Rattle.query_core.specs.Teams.{AreAlone, AreHired, limit_of};

use crate::worker::Worker;
use leaf_queues::Queue;
use outside::NoMemory;
use search_limits::{MOST_QUEUES, MOST_WORKERS};
use search_machine::Start;
use search_task::Search;
use series_core::{KBest, NONE, Rows};
use std::alloc::Global;

/// The limit that a start gives: `NONE` where there is none. At the start of a search it is the search's starting limit.
pub fn limit_of(start: Option<Start>) -> u64
    ensures limit { result ≡ limit_of start }
    ensures starts { (g : Ground) → start ≡ start_of g → result ≡ start_limit g }
{
    match start {
        Some(start) => start.limit,
        None => NONE,
    }
}

/// The 1 to 64 workers with which a search over 1 to 64 queues opens, each with the number of its place: worker 0 has the list
/// that `Search::opening` gives, and the others have empty ones. They share no limits of portions yet.
pub fn hire<'a, R: Rows>(
    alloc: Global,
    search: &Search<'a, R>,
    workers: u32,
    queues: u32,
    start: Option<Start>,
    list: KBest,
) -> Result<Vec<Worker<'a, R>>, NoMemory>
    requires workers { (1 ≤ workers) × (workers ≤ MOST_WORKERS) }
    requires queues { (1 ≤ queues) × (queues ≤ MOST_QUEUES) }
    requires start { let s = search.now in start ≡ start_of (search_over s.question s.index 1 queues) }
    requires list { let s = search.now in
        list ≡ record { k = s.question.k; pairs = opening (search_over s.question s.index 1 queues) } }
    ensures len { IfOk result (λ hired. length hired.items ≡ workers) }
    ensures hired { IfOk result (λ hired. AreHired search.now.question search.now.index queues hired.items) }
    ensures alone { IfOk result (λ hired. AreAlone hired.items) }
{
    let task = search.task();
    let index = search.index();
    let mut hired = Vec::with_capacity(alloc, workers as usize)?;
    hired.push_reserved(Worker::new(alloc, task, index, 0, queues, start, list)?);
    for number in 1..workers {
        let list = KBest::new(alloc, search.k())?;
        hired.push_reserved(Worker::new(alloc, task, index, number, queues, start, list)?);
    }
    Ok(hired)
}

/// Empty queues, each with room for all leaves that belong to it.
pub fn empty_queues(alloc: Global, leaves: u32, queues: u32) -> Result<Vec<Queue>, NoMemory>
    requires queues { 1 ≤ queues }
    ensures len { IfOk result (λ qs. vec_len qs ≡ queues) }
    ensures queues { (g : Ground) → g.queues ≡ queues → g.leaves ≡ leaves
        → IfOk result (λ qs. qs.items ≡ empty_queues g 0 queues) }
{
    let rooms = leaves_of_each(alloc, leaves, queues)?;
    let mut made = Vec::with_capacity(alloc, rooms.len())?;
    for room in &rooms {
        made.push_reserved(Queue::new(alloc, *room)?);
    }
    Ok(made)
}

// How many leaves belong to each queue.
fn leaves_of_each(alloc: Global, leaves: u32, queues: u32) -> Result<Vec<u32>, NoMemory>
    requires queues { 1 ≤ queues }
    ensures len { IfOk result (λ counts. vec_len counts ≡ queues) }
    ensures counts { (g : Ground) → g.queues ≡ queues
        → IfOk result (λ counts. EachIndex counts.items (λ m. slice_index counts.items m ≡ capacity_of g m leaves)) }
{
    let mut counts = Vec::with_capacity(alloc, queues as usize)?;
    for queue in 0..queues {
        counts.push_reserved(leaves / queues + u32::from(queue < leaves % queues));
    }
    Ok(counts)
}
