//! Workers that are held at a gate before one of their turns, until the other worker has come to one of its own: a worker that
//! stands before its pop, while the other takes from the queue and shuts it, changes no answer.
use super::forms::{Form, searched};
use super::points::{BY_BOUND, BY_DISTANCE};
use crate::claims::assert_same;
use outside::{Gate, NoMemory};
use plain_search::three_points;
use query_core::{Outcome, Task};
use series_core::Entry;
use std::alloc::Global;
use std::sync::atomic::{AtomicU64, Ordering};
use std::test::*;

/// How often a held worker looks for the other.
const LOOKS: u64 = 20_000_000_000;

/// A worker is held before this turn of its own until the other has come to that turn.
#[derive(Clone, Copy, Debug)]
pub(super) struct Hold {
    worker: u32,
    before: u64,
    until: u64,
}

/// A gate of two workers that counts the turns to which each has come, and holds them.
#[derive(Drop)]
pub(super) struct Holding {
    holds: [Hold; 3],
    turns: [AtomicU64; 2],
    ran_out: AtomicU64,
}

impl Holding {
    pub(super) fn at(holds: [Hold; 3]) -> Holding {
        Holding {
            holds,
            turns: [AtomicU64::new(0), AtomicU64::new(0)],
            ran_out: AtomicU64::new(0),
        }
    }

    /// How many turns the worker has come to.
    pub(super) fn come(&self, worker: usize) -> u64 {
        match self.turns.get(worker) {
            Some(turns) => turns.load(Ordering::SeqCst),
            None => 0,
        }
    }

    /// Waits until the worker has come to its turn of this number.
    fn wait_for(&self, worker: usize, turn: u64) {
        for _look in 0..LOOKS {
            if self.come(worker) > turn {
                return;
            }
        }
        self.ran_out.fetch_add(1, Ordering::SeqCst);
    }

    /// How many workers waited in vain.
    pub(super) fn in_vain(&self) -> u64 {
        self.ran_out.load(Ordering::SeqCst)
    }
}

impl Gate for Holding {
    fn pass(&self, worker: u32, turn: u64) {
        if worker > 1 {
            return;
        }
        if let Some(turns) = self.turns.get(worker as usize) {
            turns.fetch_add(1, Ordering::SeqCst);
        }
        for held in &self.holds {
            if held.worker == worker && held.before == turn {
                self.wait_for(1 - worker as usize, held.until);
            }
        }
    }
}

/// The worker waits before this turn of its own until the other has come to that turn.
pub(super) fn waits(worker: u32, before: u64, until: u64) -> Hold {
    Hold {
        worker,
        before,
        until,
    }
}

/// A search by two workers that are held: over how many queues, and how many turns each worker takes.
#[derive(Clone, Copy, Debug)]
struct Case {
    queues: u32,
    holds: [Hold; 3],
    turns: [u64; 2],
}

/// Worker 0 claims the one root child at its turn 0, puts its two leaves, and ends its fill part with turn 6. Worker 1 comes to its
/// first turn no sooner, and claims nothing. Then each leaf that is taken, and each queue that is shut, is a read and a pop.
fn cases() -> [Case; 4] {
    let alone = waits(1, 0, 6);
    // worker 0 stands before its first read, and worker 1 takes both leaves and shuts the queue
    let unread = Case {
        queues: 1,
        holds: [alone, alone, waits(0, 7, 6)],
        turns: [9, 7],
    };
    // worker 0 has read, and stands before its first pop
    let unpopped = Case {
        queues: 1,
        holds: [alone, alone, waits(0, 8, 6)],
        turns: [9, 7],
    };
    // worker 0 takes the first leaf and stands; worker 1 takes the second and shuts the queue
    let between = Case {
        queues: 1,
        holds: [alone, waits(1, 1, 9), waits(0, 9, 4)],
        turns: [11, 5],
    };
    // worker 0 stands before its pop from queue 0; worker 1 takes all from queue 1 and then from queue 0
    let two_queues = Case {
        queues: 2,
        holds: [alone, alone, waits(0, 8, 8)],
        turns: [11, 9],
    };
    [unread, unpopped, between, two_queues]
}

/// The entries that all queues gave, by their bounds.
fn given(alloc: Global, outcome: &Outcome) -> Result<Vec<Entry>, NoMemory> {
    let mut given = Vec::new(alloc);
    for line in &outcome.lines.items {
        given.extend_from_slice(line.taken.items.as_slice())?;
    }
    given.sort_unstable_by_key(|entry| entry.bound);
    Ok(given)
}

#[test]
fn a_worker_that_stands_at_a_queue_changes_no_answer(rt: HostRuntime) -> Result<(), Fail> {
    let alloc = rt.alloc();
    let (rows, settings, index) = three_points(&rt, alloc)?;
    let task = Task::new(&rows, &[0, 0], 3, &settings.layout);
    for case in cases() {
        for locked in [false, true] {
            if case.queues < 1 || case.queues > 64 {
                return Err(Fail::new("no such number of queues"));
            }
            let form = Form {
                workers: 2,
                queues: case.queues,
                locked,
            };
            let gate = Holding::at(case.holds);
            let outcome = searched(&rt, alloc, &task, &index, &gate, form)?;
            let turns = [gate.come(0), gate.come(1)];
            assert_same!(rt; (gate.in_vain(), turns), (0, case.turns), "{form:?}, {case:?}");
            let given = given(alloc, &outcome)?;
            let found = (outcome.pairs.items.as_slice(), given.as_slice());
            let wanted = (BY_DISTANCE.as_slice(), BY_BOUND.as_slice());
            assert_same!(rt; found, wanted, "{form:?}, {case:?}");
        }
    }
    Ok(())
}
