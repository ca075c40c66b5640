//! What finds all series within a radius, the discords of a collection, and the nearest with the whole outcome of their search, which a
//! certificate tells.

ghost use Rattle.std.specs.Prelude.{◌≡◌, ◌≤◌, length, IfOk};
ghost use Rattle.series_core.specs.Answer.{within};
ghost use Rattle.command_words.specs.Limits.{OptionsKeepLimits};
ghost use Rattle.search_limits.specs.declared.numbers.TheConstants.{MOST_WORKERS};
ghost use Rattle.discord_query.specs.Discords.{discords};
ghost use Rattle.search_run.specs.Batches.{CanAsk, HasRightOutcome, IsAsking, asking_of};
ghost use Rattle.search_run.specs.Finding.{IsTreeFor};

use crate::crew::Crew;
use crate::tree::Tree;
use command_words::Options;
use discord_query::{DiscordList, discord};
use live_query::nearest_sealed;
use outside::{Gate, NoMemory};
use query_core::{Outcome, Task, one_worker};
use range_query::within;
use series_core::{Flat, PairList, Rows};
use std::alloc::Global;
use std::sync::Wait;
use std::thread::Threads;

/// How many of the nearest are asked for, by how many workers, over how many queues for leaves.
#[derive(Clone, Copy, Debug, PartialEq, Eq)]
pub struct Asking {
    /// How many of the nearest.
    pub k: u32,
    /// How many workers.
    pub workers: u32,
    /// How many queues.
    pub queues: u32,
}

/// What these options ask for.
pub fn asking_of(options: &Options) -> Asking
    requires { OptionsKeepLimits options.now }
    ensures asking { result ≡ asking_of options.now }
    ensures limits { IsAsking result }
{
    Asking {
        k: options.k,
        workers: options.workers,
        queues: options.queues,
    }
}

/// The whole outcome of the search for the series nearest to a query of their length, over sealed runs: by a team that never waits, or
/// by one worker, which starts no thread.
pub fn sealed<T: Threads + Sync, R: Rows + Sync, G: Gate + Sync>(
    crew: &Crew<'_, T, G>,
    rows: &R,
    tree: &Tree,
    query: &[i16],
    asking: Asking,
) -> Result<Outcome, NoMemory>
    requires { CanAsk (R.collection rows.now) tree.now query.now asking }
    ensures { HasRightOutcome (R.collection rows.now) tree.now query.now asking result }
{
    let task = Task::new(rows, query, asking.k, &tree.settings.layout);
    // for the fact that the task is a question
    let _k = task.k();
    let Asking {
        workers,
        queues,
        ..
    } = asking;
    if workers == 1 {
        return one_worker(crew.alloc, &task, &tree.index, queues);
    }
    nearest_sealed(
        crew.rt,
        crew.alloc,
        &task,
        &tree.index,
        workers,
        queues,
        crew.gate,
    )
}

/// The same over queues with locks, where a command may wait.
pub fn locked<T: Threads + Wait + Sync, R: Rows + Sync, G: Gate + Sync>(
    crew: &Crew<'_, T, G>,
    rows: &R,
    tree: &Tree,
    query: &[i16],
    asking: Asking,
) -> Result<Outcome, NoMemory>
    requires { CanAsk (R.collection rows.now) tree.now query.now asking }
    ensures { HasRightOutcome (R.collection rows.now) tree.now query.now asking result }
{
    let task = Task::new(rows, query, asking.k, &tree.settings.layout);
    // for the fact that the task is a question
    let _k = task.k();
    let Asking {
        workers,
        queues,
        ..
    } = asking;
    if workers == 1 {
        return one_worker(crew.alloc, &task, &tree.index, queues);
    }
    live_query::nearest(
        crew.rt,
        crew.alloc,
        &task,
        &tree.index,
        workers,
        queues,
        crew.gate,
    )
}

/// All series within a radius of a query of their length, by `workers` workers.
pub fn near<T: Threads + Sync, R: Rows + Sync, G: Gate + Sync>(
    crew: &Crew<'_, T, G>,
    rows: &R,
    tree: &Tree,
    query: &[i16],
    radius: u64,
    workers: u32,
) -> Result<PairList, NoMemory>
    requires tree { IsTreeFor (R.collection rows.now) tree.now }
    requires length { length query.now ≡ (R.collection rows.now).points }
    requires workers { (1 ≤ workers) × (workers ≤ MOST_WORKERS) }
    ensures { IfOk result (λ pairs. pairs ≡ within (R.collection rows.now) query.now radius) }
{
    let items = within(
        crew.rt,
        crew.alloc,
        rows,
        &tree.index,
        &tree.settings.layout,
        query,
        radius,
        workers,
        crew.gate,
    )?;
    Ok(PairList { items })
}

/// The series whose nearest other is farthest, by the tree of all of them.
pub fn farthest<T: Threads + Sync, G: Gate + Sync>(
    crew: &Crew<'_, T, G>,
    rows: &Flat,
    tree: &Tree,
    options: &Options,
) -> Result<DiscordList, NoMemory>
    requires options { OptionsKeepLimits options.now }
    requires tree { IsTreeFor rows.now tree.now }
    ensures { IfOk result (λ found. found ≡ discords rows.now options.now.k) }
{
    discord(
        crew.rt,
        crew.alloc,
        rows,
        &tree.index,
        &tree.settings.layout,
        options.k,
        options.workers,
        crew.gate,
    )
}
