//! Gates that watch the workers: each worker's turns are counted without a gap over both parts, and two workers come to their
//! first turn side by side.
use super::forms::{Form, searched};
use crate::claims::assert_same;
use outside::Gate;
use plain_search::three_points;
use query_core::Task;
use std::sync::atomic::{AtomicU64, Ordering};
use std::test::*;

/// How often one hold looks for the other worker.
const LOOKS: u64 = 20_000_000_000;

/// A gate of two workers that counts the turns of each, and holds each at its first turn until the other has come.
#[derive(Drop)]
pub(crate) struct Meeting {
    turns: [AtomicU64; 2],
    gaps: AtomicU64,
    ran_out: AtomicU64,
}

impl Meeting {
    pub(crate) fn of_two() -> Meeting {
        Meeting {
            turns: [AtomicU64::new(0), AtomicU64::new(0)],
            gaps: AtomicU64::new(0),
            ran_out: AtomicU64::new(0),
        }
    }

    fn taken(&self, worker: usize) -> u64 {
        match self.turns.get(worker) {
            Some(turns) => turns.load(Ordering::SeqCst),
            None => 0,
        }
    }

    /// How many workers looked for the other in vain, and how many turns had another number than their place.
    pub(crate) fn faults(&self) -> [u64; 2] {
        [
            self.ran_out.load(Ordering::SeqCst),
            self.gaps.load(Ordering::SeqCst),
        ]
    }
}

impl Gate for Meeting {
    fn pass(&self, worker: u32, turn: u64) {
        let worker = worker as usize;
        let Some(turns) = self.turns.get(worker) else {
            self.gaps.fetch_add(1, Ordering::SeqCst);
            return;
        };
        if turns.fetch_add(1, Ordering::SeqCst) != turn {
            self.gaps.fetch_add(1, Ordering::SeqCst);
        }
        if turn > 0 || worker > 1 {
            return;
        }
        for _look in 0..LOOKS {
            if self.taken(1 - worker) > 0 {
                return;
            }
        }
        self.ran_out.fetch_add(1, Ordering::SeqCst);
    }
}

#[test]
fn two_workers_come_side_by_side_and_count_their_turns(rt: HostRuntime) -> Result<(), Fail> {
    let alloc = rt.alloc();
    let (rows, settings, index) = three_points(&rt, alloc)?;
    let task = Task::new(&rows, &[0, 0], 3, &settings.layout);
    for locked in [false, true] {
        let form = Form {
            workers: 2,
            queues: 2,
            locked,
        };
        let gate = Meeting::of_two();
        let outcome = searched(&rt, alloc, &task, &index, &gate, form)?;
        assert_same!(rt; outcome.pairs.items.len(), 3);
        assert_same!(rt; gate.faults(), [0, 0], "each waited for the other and counted its turns");
        // each claims at the least once, and reads and pops once for each queue
        let least = gate.taken(0).min(gate.taken(1));
        assert_same!(rt; least >= 5, true, "a worker took {least} turns");
    }
    Ok(())
}
