//! What a team ends with: the lines of its queues, and the outcome that follows from them.
ghost use Rattle.std.specs.Prelude.{◌≡◌, IfOk, map};
ghost use Rattle.search_machine.specs.Machine.{State};
ghost use Rattle.search_machine.specs.Outcome.{line_of, outcome};
ghost use Rattle.query_core.specs.Teams.{StandsAt, searched};

use crate::conclusion::conclude;
use crate::team::Team;
use leaf_queues::Queue;
use outside::NoMemory;
use search_machine::{EntryList, LineList, Outcome, QueueLine};
use series_core::Rows;
use std::alloc::Global;

impl<'a, R: Rows> Team<'a, R> {
    /// The outcome of the state for which the team stands.
    pub(crate) fn ended(&self, alloc: Global) -> Result<Outcome, NoMemory>
        ensures { (s : State) → StandsAt self.now s → IfOk result (λ o. o ≡ outcome (searched self.now) s) }
    {
        let lines = lines(alloc, self.hand.queues())?;
        conclude(alloc, &self.search, self.start, &self.workers, lines)
    }
}

// The line of each queue.
fn lines(alloc: Global, queues: &[Queue]) -> Result<LineList, NoMemory>
    ensures { IfOk result (λ ls. ls ≡ map line_of queues.now) }
{
    let mut lines = Vec::with_capacity(alloc, queues.len())?;
    for queue in queues {
        lines.push_reserved(line(alloc, queue)?);
    }
    Ok(LineList { items: lines })
}

// The line of a queue.
fn line(alloc: Global, queue: &Queue) -> Result<QueueLine, NoMemory>
    ensures { IfOk result (λ l. l ≡ line_of queue.now) }
{
    Ok(QueueLine {
        taken: EntryList {
            items: queue.taken().to_vec(alloc)?,
        },
        kept: queue.kept().unwrap_or(0),
    })
}
