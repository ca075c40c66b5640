//! Locks round queues: they begin with a pass for each caller, and are closed with all passes back.
//! Passes lie in rows, and a column of them is taken by taking the first of each row.
ghost use Rattle.std.specs.Prelude.{◌≡◌, ℕ, ◌<◌, ◌≤◌, IfOk, List, Some, length, slice_get, vec_len};
ghost use Rattle.turn_lock.specs.Passes.{opening_of};
ghost use Rattle.leaf_queues.specs.PlainQueue.{PlainQueue};
ghost use Rattle.live_query.specs.LockedQueues.{AreOwn, QueueLock};
ghost use Rattle.live_query.specs.LockParts.{AreDealt, AreFronts, AreNumbered, AreRound, Row, WentBy, calls_in};

use leaf_queues::Queue;
use outside::NoMemory;
use search_limits::MOST_WORKERS;
use std::alloc::Global;
use turn_lock::{TurnLock, TurnPass};

/// A lock round each queue, for 1 to 64 callers, and for each lock the row of its passes.
pub(crate) fn begin_locks(
    alloc: Global,
    queues: Vec<Queue>,
    callers: u32,
) -> Result<(Vec<TurnLock<Queue>>, Vec<Vec<TurnPass<Queue>>>), NoMemory>
    requires callers { (1 ≤ callers) × (callers ≤ MOST_WORKERS) }
    ensures round { IfOk result (λ r. AreRound queues.items callers r.0.items) }
    ensures dealt { IfOk result (λ r. AreDealt r.0.items 0 r.1.items) }
{
    let mut locks = Vec::with_capacity(alloc, queues.len())?;
    let mut rows = Vec::with_capacity(alloc, queues.len())?;
    for queue in queues {
        let Ok((lock, row)) = TurnLock::begin(alloc, queue, callers) else {
            return Err(NoMemory);
        };
        locks.push_reserved(lock);
        rows.push_reserved(row);
    }
    Ok((locks, rows))
}

/// The first pass of each row.
pub(crate) fn take_fronts(
    alloc: Global,
    rows: &mut Vec<Vec<TurnPass<Queue>>>,
) -> Result<Vec<TurnPass<Queue>>, NoMemory>
    requires some { (j : ℕ) (row : Row) → slice_get rows.old.items j ≡ Some row → 0 < vec_len row }
    ensures { IfOk result (λ fronts. AreFronts rows.old.items fronts.items rows.new.items) }
{
    let mut fronts = Vec::with_capacity(alloc, rows.len())?;
    for j in 0..rows.len() {
        fronts.push_reserved(rows[j].remove(0));
    }
    Ok(fronts)
}

/// Closes the locks with the rows of each caller's passes, and gives the queues back, each with its one history.
pub(crate) fn close_locks(
    alloc: Global,
    locks: Vec<TurnLock<Queue>>,
    mut rows: Vec<Vec<TurnPass<Queue>>>,
) -> Result<Vec<Queue>, NoMemory>
    requires round { (before : List PlainQueue) × AreRound before (vec_len rows) locks.items }
    requires own { (i : ℕ) (row : Row) → slice_get rows.items i ≡ Some row → AreOwn locks.items row.items }
    requires numbered { AreNumbered rows.items }
    ensures len { IfOk result (λ queues. vec_len queues ≡ length locks.items) }
    ensures went { (m : ℕ) (k : QueueLock) (r : PlainQueue) → slice_get locks.items m ≡ Some k
        → IfOk result (λ queues. slice_get queues.items m ≡ Some r
        → WentBy (length rows.items) (λ i. calls_in rows.items i m) (opening_of k) r) }
{
    let mut queues = Vec::with_capacity(alloc, locks.len())?;
    for lock in locks {
        let passes = take_fronts(alloc, &mut rows)?;
        queues.push_reserved(lock.close(passes));
    }
    Ok(queues)
}
