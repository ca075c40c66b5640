//! What closed runs, and queues that came back from their locks, tell as the lines of an outcome.
ghost use Rattle.std.specs.Prelude.{◌≡◌, IfOk, length, map};
ghost use Rattle.search_machine.specs.Outcome.{line_of};
ghost use Rattle.live_query.specs.Marked.{line_of_run};

use leaf_queues::Queue;
use outside::NoMemory;
use query_core::{EntryList, LineList, QueueLine};
use sealed_runs::RunsClosed;
use std::alloc::Global;

/// The line of each closed run, in their order; a run that never closed keeps the limit 0.
pub(crate) fn lines(alloc: Global, closed: &RunsClosed, queues: u32) -> Result<LineList, NoMemory>
    requires { queues ≡ length closed.now }
    ensures { IfOk result (λ ls. ls ≡ map line_of_run closed.now) }
{
    let mut lines = Vec::with_capacity(alloc, queues as usize)?;
    for m in 0..queues {
        lines.push_reserved(QueueLine {
            taken: EntryList {
                items: closed.taken(m).to_vec(alloc)?,
            },
            kept: closed.kept(m).unwrap_or(0),
        });
    }
    Ok(LineList { items: lines })
}

/// The line of each queue; one that was never shut keeps the limit 0.
pub(crate) fn queue_lines(alloc: Global, queues: &[Queue]) -> Result<LineList, NoMemory>
    ensures { IfOk result (λ ls. ls ≡ map line_of queues.now) }
{
    let mut lines = Vec::with_capacity(alloc, queues.len())?;
    for queue in queues {
        lines.push_reserved(QueueLine {
            taken: EntryList {
                items: queue.taken().to_vec(alloc)?,
            },
            kept: queue.kept().unwrap_or(0),
        });
    }
    Ok(LineList { items: lines })
}
