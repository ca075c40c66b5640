//! Rows that count how often each of them is asked for, and hold those who ask for one of two until the other is asked for too.
ghost use Rattle.std.specs.Prelude.{◌≡◌};

use series_core::{Flat, Rows};
use std::sync::atomic::{AtomicU64, Ordering};

/// How often one hold looks for the other.
const LOOKS: u64 = 20_000_000_000;

/// Rows that are watched: how often any is asked for, and how often each of the first three.
#[derive(Drop)]
pub struct Watched {
    /// The rows.
    pub flat: Flat,
    any: AtomicU64,
    asked: [AtomicU64; 3],
    held: Option<(usize, usize)>,
    ran_out: AtomicU64,
}

impl Watched {
    /// These rows, where those who ask for one of the two that are held wait for those who ask for the other.
    pub fn over(flat: Flat, held: Option<(usize, usize)>) -> Watched
        ensures { result.flat ≡ flat }
    {
        Watched {
            flat,
            any: AtomicU64::new(0),
            asked: [AtomicU64::new(0), AtomicU64::new(0), AtomicU64::new(0)],
            held,
            ran_out: AtomicU64::new(0),
        }
    }

    /// How often any row was asked for.
    pub fn all_times(&self) -> u64 {
        self.any.load(Ordering::SeqCst)
    }

    /// How often row `i` of the first three was asked for.
    pub fn times(&self, i: usize) -> u64 {
        match self.asked.get(i) {
            Some(asked) => asked.load(Ordering::SeqCst),
            None => 0,
        }
    }

    /// How many who waited for the other looked in vain.
    pub fn ran_out(&self) -> u64 {
        self.ran_out.load(Ordering::SeqCst)
    }

    /// Counts that row `i` is asked for, and waits for the other one where it is held.
    fn note(&self, i: usize) {
        self.any.fetch_add(1, Ordering::SeqCst);
        if let Some(asked) = self.asked.get(i) {
            asked.fetch_add(1, Ordering::SeqCst);
        }
        match self.held {
            Some((first, second)) if i == first => self.wait_for(second),
            Some((first, second)) if i == second => self.wait_for(first),
            _ => {}
        }
    }

    /// Waits until row `i` is asked for.
    fn wait_for(&self, i: usize) {
        for _look in 0..LOOKS {
            if self.times(i) > 0 {
                return;
            }
        }
        self.ran_out.fetch_add(1, Ordering::SeqCst);
    }
}

impl Rows for Watched {
    ghost collection = { λ w. w.flat };

    fn count(&self) -> u32 {
        self.flat.count()
    }

    fn length(&self) -> u32 {
        self.flat.length()
    }

    fn row(&self, i: u32) -> &[i16] {
        self.note(i as usize);
        self.flat.row(i)
    }
}
