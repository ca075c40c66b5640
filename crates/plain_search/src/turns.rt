//! A gate that counts.
use outside::Gate;
use std::sync::atomic::{AtomicU64, Ordering};

/// Counts the turns of two workers, and those that had another number than their place.
#[derive(Drop)]
pub struct Turns {
    first: AtomicU64,
    second: AtomicU64,
    wrong: AtomicU64,
}

impl Turns {
    /// No turn was taken yet.
    pub fn of_two() -> Turns {
        Turns {
            first: AtomicU64::new(0),
            second: AtomicU64::new(0),
            wrong: AtomicU64::new(0),
        }
    }

    /// How many turns both have taken, and how many of them had another number than their place.
    pub fn told(&self) -> (u64, u64) {
        let first = self.first.load(Ordering::SeqCst);
        let second = self.second.load(Ordering::SeqCst);
        let wrong = self.wrong.load(Ordering::SeqCst);
        (first.wrapping_add(second), wrong)
    }
}

impl Gate for Turns {
    fn pass(&self, worker: u32, turn: u64) {
        let own = if worker == 0 {
            &self.first
        } else {
            &self.second
        };
        if own.fetch_add(1, Ordering::SeqCst) != turn {
            self.wrong.fetch_add(1, Ordering::SeqCst);
        }
    }
}
