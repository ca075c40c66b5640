//! A gate at which two workers wait for each other.

use outside::Gate;
use std::sync::atomic::{AtomicU64, Ordering};

/// How often each of two workers came to its first turn, and how often one waited there in vain for the other.
#[derive(Drop)]
pub struct Meeting {
    came: [AtomicU64; 2],
    alone: AtomicU64,
}

impl Meeting {
    /// A meeting that no worker has reached yet.
    pub fn new() -> Meeting {
        Meeting {
            came: [AtomicU64::new(0), AtomicU64::new(0)],
            alone: AtomicU64::new(0),
        }
    }

    /// How often the first and the second worker came, and how often one waited in vain.
    pub fn counts(&self) -> (u64, u64, u64) {
        let [first, second] = &self.came;
        (
            first.load(Ordering::SeqCst),
            second.load(Ordering::SeqCst),
            self.alone.load(Ordering::SeqCst),
        )
    }
}

impl Gate for Meeting {
    fn pass(&self, worker: u32, turn: u64) {
        if turn != 0 {
            return;
        }
        let [first, second] = &self.came;
        let (mine, other) = if worker == 0 {
            (first, second)
        } else {
            (second, first)
        };
        let count = mine.fetch_add(1, Ordering::SeqCst).wrapping_add(1);
        for _ in 0..20_000_000_000u64 {
            if other.load(Ordering::SeqCst) >= count {
                return;
            }
        }
        self.alone.fetch_add(1, Ordering::SeqCst);
    }
}
