//! The searchers of the drain part over locked queues: each has one pass of each lock, in the locks' order.
ghost use Rattle.std.specs.Prelude.{◌≡◌, All, IfOk, List, length, map};
ghost use Rattle.leaf_queues.specs.PlainQueue.{PlainQueue};
ghost use Rattle.live_query.specs.LockedQueues.{AreOwn, QueueLock};
ghost use Rattle.live_query.specs.LockParts.{AreDealt, AreRound, HasNew, Row};
ghost use Rattle.live_query.specs.Parts.{AreEquipped};

use crate::drain_hand::DrainHand;
use crate::locked_queues::LockedQueues;
use crate::locking::Locking;
use crate::locks::take_fronts;
use crate::searcher::{Rested, Searcher};
use best_word::BestWord;
use leaf_queues::Queue;
use outside::NoMemory;
use query_core::Worker;
use series_core::Rows;
use std::alloc::Global;
use turn_lock::{TurnLock, TurnPass};

/// Gives each searcher its hand over these locks, with the next pass of each.
pub(crate) fn equip<'a, 'b, T, R: Rows>(
    rt: &'b T,
    alloc: Global,
    word: &'b BestWord,
    roots: u64,
    locks: &'b [TurnLock<Queue>],
    team: Vec<Searcher<Worker<'a, R>, Rested>>,
    mut rows: Vec<Vec<TurnPass<Queue>>>,
) -> Result<Vec<Locking<'a, 'b, R, T>>, NoMemory>
    requires word { All (λ c. c.hand.seen.best ≡ word.now) team.items }
    requires round { (queues : List PlainQueue) × AreRound queues (length team.items) locks.now }
    requires dealt { AreDealt locks.now 0 rows.items }
    ensures { IfOk result (λ ready. AreEquipped (HasNew locks.now) roots team.entry.items ready.items) }
{
    let mut ready = Vec::with_capacity(alloc, team.len())?;
    for searcher in team {
        let passes = take_fronts(alloc, &mut rows)?;
        let (hand, rest) = searcher.let_go();
        let Rested { seen, .. } = hand;
        let queues = LockedQueues::new(rt, locks, passes);
        ready.push_reserved(rest.take(DrainHand::new(word, seen, roots, queues)));
    }
    Ok(ready)
}

/// The workers, and each one's passes of the locks.
pub(crate) fn dismiss<'a, 'b, R: Rows, T>(
    alloc: Global,
    team: Vec<Locking<'a, 'b, R, T>>,
) -> Result<(Vec<Worker<'a, R>>, Vec<Vec<TurnPass<Queue>>>), NoMemory>
    ensures workers { IfOk result (λ r. r.0.items ≡ map (λ c. c.worker) team.entry.items) }
    ensures rows { IfOk result (λ r. map (λ (row : Row). row.items) r.1.items ≡ map (λ c. c.hand.queues.passes) team.entry.items) }
    ensures own { (locks : List QueueLock) → All (λ c. c.hand.queues.locks ≡ locks) team.entry.items
        → IfOk result (λ r. All (λ (row : Row). AreOwn locks row.items) r.1.items) }
{
    let mut workers = Vec::with_capacity(alloc, team.len())?;
    let mut rows = Vec::with_capacity(alloc, team.len())?;
    for searcher in team {
        let Searcher { worker, hand, .. } = searcher;
        workers.push_reserved(worker);
        rows.push_reserved(hand.into_queues().into_passes());
    }
    Ok((workers, rows))
}
