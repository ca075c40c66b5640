//! A search by a schedule: each entry is one turn of that worker.
ghost use Rattle.std.specs.Prelude.{◌≡◌, ◌≤◌, ◌≢◌, ℕ, IfOk, IfErr, IfNone, IfSome, Err};
ghost use Rattle.series_core.specs.Answer.{answer};
ghost use Rattle.subtree_build.specs.Fits.{Fits as IndexFits};
ghost use Rattle.search_machine.specs.Ground.{Fits, enough_turns};
ghost use Rattle.search_machine.specs.Legal.{Legal};
ghost use Rattle.search_machine.specs.Machine.{opened, played};
ghost use Rattle.search_machine.specs.Outcome.{outcome};
ghost use Rattle.search_task.specs.Questions.{search_over};
ghost use Rattle.query_core.specs.Replays.{FirstStranger, IsPlayed, NoStranger, Refuses};
ghost use Rattle.search_machine.specs.Schedules.{NamesEach};
ghost use Rattle.query_core.specs.Teams.{StandsAt, searched};

use crate::team::Team;
use outside::NoMemory;
use search_limits::{MOST_QUEUES, MOST_WORKERS};
use search_machine::Outcome;
use search_task::{Search, Task};
use series_core::Rows;
use std::alloc::Global;
use subtree_build::Index;
use thiserror::Error;

/// Why a schedule gives no outcome.
#[derive(Clone, Copy, PartialEq, Eq, Debug, Error)]
pub enum ReplayError {
    /// Memory ran out.
    #[error("out of memory")]
    NoMemory,
    /// The entry at this place is the first that is no worker's number.
    #[error("entry {0} names no worker")]
    Stranger(u64),
    /// There is no stranger, and this worker is the first that is not done at the end.
    #[error("worker {0} is not done")]
    Unfinished(u32),
}

/// The search for the answer by 1 to 64 workers over 1 to 64 queues, turn by turn as the schedule names them; an entry for a
/// worker that is done changes nothing. Its pairs are the answer: the k nearest rows. Stranger and Unfinished come exactly where they say, and a schedule that names each
/// worker `8 * leaves + workers + 2 * workers * queues` times is never Unfinished.
pub fn replay<R: Rows>(
    alloc: Global,
    task: &Task<'_, R>,
    index: &Index,
    workers: u32,
    queues: u32,
    schedule: &[u32],
) -> Result<Outcome, ReplayError>
    requires fits { IndexFits task.now.collection task.now.layout index.now }
    requires workers { (1 ≤ workers) × (workers ≤ MOST_WORKERS) }
    requires queues { (1 ≤ queues) × (queues ≤ MOST_QUEUES) }
    ensures played { IfOk result (λ o. IsPlayed (search_over task.now index.now workers queues) schedule.now) }
    ensures outcome { let g = search_over task.now index.now workers queues in
        IfOk result (λ o. o ≡ outcome g (played g schedule.now)) }
    ensures legal { IfOk result (λ o. Legal (search_over task.now index.now workers queues) o) }
    ensures answer { IfOk result (λ o. o.pairs ≡ answer task.now.collection task.now.query task.now.k) }
    ensures refused { IfErr result (λ e. Refuses (search_over task.now index.now workers queues) schedule.now e) }
    ensures enough { let g = search_over task.now index.now workers queues in
        NamesEach g (enough_turns g) schedule.now → (i : ℕ) → result ≢ Err (ReplayError.Unfinished i) }
{
    let search = Search::new(task, index);
    let Ok(mut team) = Team::open(alloc, search, workers, queues) else {
        return Err(ReplayError::NoMemory);
    };
    if let Some(at) = play(&mut team, schedule) {
        return Err(ReplayError::Stranger(at));
    }
    if let Some(i) = team.first_busy() {
        return Err(ReplayError::Unfinished(i));
    }
    match team.ended(alloc) {
        Ok(outcome) => Ok(outcome),
        Err(NoMemory) => Err(ReplayError::NoMemory),
    }
}

// Gives the turns of the schedule up to the first stranger, and answers its place; None where there is none.
fn play<R: Rows>(team: &mut Team<'_, R>, schedule: &[u32]) -> Option<u64>
    requires opens { StandsAt team.old (opened (searched team.old)) }
    ensures same { searched team.new ≡ searched team.old }
    ensures none { IfNone result (NoStranger (searched team.old) schedule.now) }
    ensures played { IfNone result (StandsAt team.new (played (searched team.old) schedule.now)) }
    ensures stranger { IfSome result (FirstStranger (searched team.old) schedule.now) }
{
    for (at, worker) in schedule.iter().enumerate() {
        if !team.has(*worker) {
            return Some(at as u64);
        }
        team.turn(*worker);
    }
    None
}
