//! The command `trial`: a search over random walks that are all made from one number, and the lines that sum it up.
//! Series and queries are drawn from one stream, the series first.

ghost use Rattle.std.specs.Prelude.{◌≢◌, ◌≡◌, ◌≤◌, IfOk, length};
ghost use Rattle.command_words.specs.Limits.{OptionsKeepLimits};
ghost use Rattle.command_words.specs.declared.limits.TheConstants.{MOST_QUERIES};
ghost use Rattle.search_run.specs.Traffic.{Reading, wrote_to};
ghost use Rattle.search_run.specs.Commands.{trial_plan};
ghost use Rattle.search_run.specs.Batches.{IsBatch};
ghost use Rattle.search_run.specs.Ends.{Follows, ended};
ghost use Rattle.search_run.specs.Plans.{HasSegments};
ghost use Rattle.search_run.specs.Trials.{KeepsTrialLimits, answers_of, summed, trial_text};
ghost use Rattle.search_run.specs.declared.status.Status.{Status};
ghost use Rattle.search_run.specs.declared.status.Which.{Which};

use crate::batch::Batch;
use crate::crew::Crew;
use crate::growing::tree_of;
use crate::input::lengths::check_segments;
use crate::output::summary::{Summary, summary_text};
use crate::status::{Status, Which};
use command_words::Options;
use outside::{Gate, NoMemory, Sink, write_whole};
use random_walks::{generator, walks};
use series_core::Rows;
use std::thread::Threads;

/// What `trial` is asked for: `queries` walks among `count` walks of `length` values each, all from one seed.
#[derive(Drop)]
struct Trial<'a> {
    // The number that all walks are made from.
    seed: u64,
    // The number of series.
    count: u32,
    // The length of each.
    length: u32,
    // The number of queries.
    queries: u32,
    // How the search is done.
    options: &'a Options,
}

/// Answers `trial`: the four lines over the answers to `queries` queries.
pub fn answer_trial<T: Threads + Sync, S: Sink, G: Gate + Sync>(
    crew: &Crew<'_, T, G>,
    seed: u64,
    count: u32,
    length: u32,
    queries: u32,
    options: &Options,
    out: &mut S,
) -> Result<(), Status>
    requires trial { KeepsTrialLimits count length queries }
    requires options { OptionsKeepLimits options.now }
    ensures answers { (reading : Reading) → Follows (trial_plan seed count length queries options.now) reading
        (wrote_to S.Sink out.old out.new) (ended result) }
    ensures reads_nothing { (w : Which) → result ≢ Err (Status.ReadFault w) }
{
    check_segments(options.segments, length)?;
    let trial = Trial {
        seed,
        count,
        length,
        queries,
        options,
    };
    let text = text_of(crew, &trial)?;
    write_whole(out, &text)?;
    Ok(())
}

// The whole text of a trial.
fn text_of<T: Threads + Sync, G: Gate + Sync>(
    crew: &Crew<'_, T, G>,
    trial: &Trial<'_>,
) -> Result<Vec<u8>, NoMemory>
    requires trial { KeepsTrialLimits trial.now.count trial.now.length trial.now.queries }
    requires options { OptionsKeepLimits trial.now.options.now }
    requires segments { HasSegments trial.now.options.now.segments trial.now.length }
    ensures { IfOk result (λ text. text.items ≡ trial_text trial.now.seed trial.now.count trial.now.length
        trial.now.queries trial.now.options.now.k) }
{
    let options = trial.options;
    let mut rng = generator(trial.seed);
    let series = walks(crew.alloc, &mut rng, trial.count, trial.length)?;
    let asked = walks(crew.alloc, &mut rng, trial.queries, trial.length)?;
    let tree = tree_of(crew, &series, options, trial.queries)?;
    let batch = Batch::new(&series, &tree, &asked, options.k, options.workers);
    let summary = summary_of(crew, &batch)?;
    summary_text(
        crew.alloc,
        trial.count,
        trial.length,
        trial.queries,
        options.k,
        &summary,
    )
}

// The summary of the answers to the queries of a trial.
fn summary_of<T: Threads + Sync, R: Rows + Sync, G: Gate + Sync>(
    crew: &Crew<'_, T, G>,
    batch: &Batch<'_, R>,
) -> Result<Summary, NoMemory>
    requires batch { IsBatch R.collection batch.now }
    requires few { length batch.now.asked.queries.now.series ≤ MOST_QUERIES }
    ensures { IfOk result (λ summary. summary
        ≡ summed (answers_of (R.collection batch.now.asked.rows.now) batch.now.asked.k batch.now.asked.queries.now.series)) }
{
    let mut summary = Summary::NONE;
    let mut ahead = Vec::new(crew.alloc);
    for i in 0..batch.asked.queries.count() {
        let pairs = batch.answer(crew, i, &mut ahead)?;
        summary.add(&pairs.items);
    }
    Ok(summary)
}
