//! The answers to a batch of queries, one after another, and their text. Who answers a query is chosen here: one worker, all of them,
//! or each worker another query. The text of a query is written once all of it stands in memory, and before that of the next.

ghost use Rattle.std.specs.Prelude.{◌≡◌, ◌<◌, ◌≤◌, IfErr, IfOk, OnOk, length};
ghost use Rattle.group_answer.specs.Asking.{AreAnswers, answer_to};
ghost use Rattle.search_run.specs.Stops.{Stops};
ghost use Rattle.search_run.specs.Traffic.{wrote_to};

use crate::batch::Batch;
use crate::crew::Crew;
use crate::output::text::query_text;
use crate::status::Status;
use group_answer::{Answered, next_answer};
use outside::{Gate, NoMemory, Sink, write_whole};
use series_core::{LabelList, PairList, Rows};
use std::alloc::Global;
use std::thread::Threads;
use window_rows::choose;

/// What is written of the series that are nearest to a query.
#[derive(Drop)]
pub enum Telling<'a> {
    /// All of them, with their labels.
    Nearest(&'a Option<LabelList>),
    /// Some of them, chosen so that their numbers lie apart: by how much they differ at least, and how many.
    Apart(u32, u32),
}

ghost use Rattle.search_run.specs.Batches.{AppendsTold, CanBeTold, IsBatch, IsTold, told};

impl Telling<'_> {
    /// The text of query i, to which these pairs are nearest.
    fn text(&self, alloc: Global, i: u32, pairs: &PairList) -> Result<Vec<u8>, NoMemory>
        requires { CanBeTold self.now }
        ensures { IfOk result (λ text. text.items ≡ told self.now i pairs.now) }
    {
        match self {
            Telling::Nearest(labels) => query_text(alloc, i, labels, pairs),
            Telling::Apart(apart, k) => {
                let chosen = choose(alloc, &pairs.items, *apart, *k)?;
                query_text(alloc, i, &None, &chosen)
            }
        }
    }
}

/// How the next query is answered.
#[derive(Clone, Copy, Debug, PartialEq, Eq)]
enum Way {
    /// By one worker.
    Alone,
    /// By all workers.
    Team,
    /// With those behind it, each by one worker.
    SideBySide,
}

impl<R: Rows> Batch<'_, R> {
    /// How query i is answered.
    fn way(&self, i: u32) -> Way
        requires below { i < length self.now.asked.queries.now.series }
    {
        let left = self.asked.queries.count() - i;
        if self.workers == 1 {
            Way::Alone
        } else if left < self.workers {
            Way::Team
        } else {
            Way::SideBySide
        }
    }
}

impl<R: Rows + Sync> Batch<'_, R> {
    /// The answer to query i: from what was found ahead, or by a search now, which may find further answers ahead.
    pub fn answer<T: Threads + Sync, G: Gate + Sync>(
        &self,
        crew: &Crew<'_, T, G>,
        i: u32,
        ahead: &mut Vec<Answered>,
    ) -> Result<PairList, NoMemory>
        requires batch { IsBatch R.collection self.now }
        requires below { i < length self.now.asked.queries.now.series }
        requires ahead { AreAnswers R.collection self.now.asked ahead.old.items }
        ensures right { IfOk result (λ pairs. pairs ≡ answer_to R.collection self.now.asked i) }
        ensures ahead { AreAnswers R.collection self.now.asked ahead.new.items }
    {
        if let Some(pairs) = self.asked.take(ahead, i) {
            return Ok(pairs);
        }
        match self.way(i) {
            Way::Alone => {
                let end = self.asked.queries.count();
                next_answer(crew.alloc, &self.asked, i, end, ahead)
            }
            Way::Team => self.by_team(crew, i),
            Way::SideBySide => {
                *ahead = self.side_by_side(crew, i)?;
                match self.asked.take(ahead, i) {
                    Some(pairs) => Ok(pairs),
                    None => Err(NoMemory),
                }
            }
        }
    }
}

/// Writes for each query the lines of the series nearest to it.
pub fn write_answers<T: Threads + Sync, R: Rows + Sync, G: Gate + Sync, S: Sink>(
    crew: &Crew<'_, T, G>,
    batch: &Batch<'_, R>,
    telling: &Telling<'_>,
    out: &mut S,
) -> Result<(), Status>
    requires batch { IsBatch R.collection batch.now }
    requires telling { CanBeTold telling.now }
    ensures ok { OnOk result (AppendsTold telling.now (R.collection batch.now.asked.rows.now) batch.now.asked.k
        batch.now.asked.queries.now.series (S.written out.old) (S.written out.new)) }
    ensures stops { IfErr result (Stops (IsTold telling.now (R.collection batch.now.asked.rows.now) batch.now.asked.k)
        batch.now.asked.queries.now.series (wrote_to S.Sink out.old out.new)) }
    ensures counts { S.faults out.old ≤ S.faults out.new }
{
    let mut ahead = Vec::new(crew.alloc);
    for i in 0..batch.asked.queries.count() {
        let pairs = batch.answer(crew, i, &mut ahead)?;
        let text = telling.text(crew.alloc, i, &pairs)?;
        write_whole(out, &text)?;
    }
    Ok(())
}
