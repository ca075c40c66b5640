//! A search by one worker in one thread.
ghost use Rattle.std.specs.Prelude.{◌≡◌, ◌≤◌, IfOk, length};
ghost use Rattle.series_core.specs.Answer.{answer};
ghost use Rattle.subtree_build.specs.Fits.{Fits as IndexFits};
ghost use Rattle.search_machine.specs.Ground.{Fits, enough_turns};
ghost use Rattle.search_machine.specs.Machine.{opened};
ghost use Rattle.query_core.specs.Teams.{EndsAlone, StandsAt, searched};
ghost use Rattle.search_machine.specs.Legal.{Legal, IsStraight};
ghost use Rattle.search_task.specs.Questions.{search_over};

use crate::team::Team;
use outside::NoMemory;
use search_limits::MOST_QUEUES;
use search_machine::Outcome;
use search_task::{Search, Task};
use series_core::Rows;
use std::alloc::Global;
use subtree_build::Index;

/// The search for the answer by one worker over 1 to 64 queues, to its end. Its outcome is legal and straight, and its pairs
/// are the answer: the k nearest rows.
pub fn one_worker<R: Rows>(
    alloc: Global,
    task: &Task<'_, R>,
    index: &Index,
    queues: u32,
) -> Result<Outcome, NoMemory>
    requires fits { IndexFits task.now.collection task.now.layout index.now }
    requires queues { (1 ≤ queues) × (queues ≤ MOST_QUEUES) }
    ensures legal { IfOk result (λ o. Legal (search_over task.now index.now 1 queues) o) }
    ensures straight { IfOk result IsStraight }
    ensures answer { IfOk result (λ o. o.pairs ≡ answer task.now.collection task.now.query task.now.k) }
{
    let search = Search::new(task, index);
    let team = finished(alloc, search, queues)?;
    team.ended(alloc)
}

// The team of one worker that has come to its end.
fn finished<'a, R: Rows>(
    alloc: Global,
    search: Search<'a, R>,
    queues: u32,
) -> Result<Team<'a, R>, NoMemory>
    requires queues { (1 ≤ queues) × (queues ≤ MOST_QUEUES) }
    ensures searches { IfOk result (λ t. searched t ≡ search_over search.entry.question search.entry.index 1 queues) }
    ensures ends { IfOk result EndsAlone }
{
    // for the fact that the index can be searched
    let _k = search.k();
    let most = 8 * u64::from(search.leaf_count()) + 1 + 2 * u64::from(queues);
    let mut team = Team::open(alloc, search, 1, queues)?;
    finish(&mut team, most);
    Ok(team)
}

// Gives the one worker turns until it is done, at most `most` of them.
fn finish<R: Rows>(team: &mut Team<'_, R>, most: u64)
    requires alone { length team.old.workers ≡ 1 }
    requires fits { Fits (searched team.old) }
    requires enough { enough_turns (searched team.old) ≤ most }
    requires opens { StandsAt team.old (opened (searched team.old)) }
    ensures same { searched team.new ≡ searched team.old }
    ensures ends { EndsAlone team.new }
{
    for _turns in 0..most {
        let Some(i) = team.first_busy() else {
            return;
        };
        team.turn(i);
    }
}
