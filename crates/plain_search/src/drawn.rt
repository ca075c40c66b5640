//! Small collections with many equal distances, and how they are cut and searched, as a generator draws them.
ghost use Rattle.std.specs.Prelude.{◌≡◌, ◌*◌, ◌≤◌, IfOk, IsTrue, vec_len};
ghost use Rattle.segment_sums.specs.Division.{division_of};

use breakpoints::Table;
use outside::NoMemory;
use rand_xoshiro::SplitMix64;
use rand_xoshiro::rand_core::Rng;
use search_limits::{MOST_QUEUES, MOST_WORKERS};
use series_core::{Flat, MAX_BEST};
use std::alloc::Global;
use subtree_build::Settings;

/// How a tree over series of four values is cut into words and leaves, and how it is searched.
#[derive(Clone, Copy, Debug)]
pub struct Shape {
    /// Whether words have the bent table.
    pub bent: bool,
    /// How many segments there are.
    pub segments: u32,
    /// The most members of a leaf.
    pub leaf_size: u32,
    /// How many series are looked for.
    pub k: u32,
    /// How many workers search.
    pub workers: u32,
    /// How many queues they have.
    pub queues: u32,
}

impl Shape {
    /// Whether there may be such a search over series of four values.
    pub fn is_sound(&self) -> bool
        ensures segments { IsTrue result → (1 ≤ self.now.segments) × (self.now.segments ≤ 4) }
        ensures k { IsTrue result → (1 ≤ self.now.k) × (self.now.k ≤ MAX_BEST) }
        ensures workers { IsTrue result → (1 ≤ self.now.workers) × (self.now.workers ≤ MOST_WORKERS) }
        ensures queues { IsTrue result → (1 ≤ self.now.queues) × (self.now.queues ≤ MOST_QUEUES) }
    {
        let some = self.segments >= 1 && self.k >= 1 && self.workers >= 1 && self.queues >= 1;
        some && self.segments <= 4
            && self.k <= MAX_BEST
            && self.workers <= MOST_WORKERS
            && self.queues <= MOST_QUEUES
    }

    /// The settings of its tree.
    pub fn settings(&self) -> Settings
        requires some { 1 ≤ self.now.segments }
        requires few { self.now.segments ≤ 4 }
        ensures { result.layout.cuts ≡ division_of 4 self.now.segments }
    {
        let table = if self.bent { Table::Bent } else { Table::Flat };
        Settings::new(4, self.segments, table, self.leaf_size)
    }
}

/// A shape, with one of these numbers of workers.
pub fn drawn_shape(rng: &mut SplitMix64, workers: [u32; 4]) -> Shape {
    Shape {
        bent: rng.next_u32() % 2 == 1,
        segments: 1 + rng.next_u32() % 4,
        leaf_size: 1 + rng.next_u32() % 4,
        k: 1 + rng.next_u32() % 20,
        workers: workers[(rng.next_u32() % 4) as usize],
        queues: 1 + rng.next_u32() % 5,
    }
}

/// One of five values, so that many distances are equal.
fn drawn_value(rng: &mut SplitMix64) -> i16 {
    match rng.next_u32() % 5 {
        0 => -9000,
        1 => -300,
        2 => 0,
        3 => 300,
        _ => 9000,
    }
}

/// A series of four values.
pub fn drawn_series(rng: &mut SplitMix64) -> [i16; 4] {
    [
        drawn_value(rng),
        drawn_value(rng),
        drawn_value(rng),
        drawn_value(rng),
    ]
}

/// `count` series of four values, at most 100 of them.
pub fn drawn_collection(alloc: Global, rng: &mut SplitMix64, count: u32) -> Result<Flat, NoMemory>
    ensures { IfOk result (λ rows. rows.points ≡ 4) }
{
    let values = drawn_values(alloc, rng, 4 * count.min(100))?;
    Ok(Flat::from_values(4, values))
}

/// `count` drawn values.
fn drawn_values(alloc: Global, rng: &mut SplitMix64, count: u32) -> Result<Vec<i16>, NoMemory>
    ensures { IfOk result (λ values. vec_len values ≡ count) }
{
    let mut values = Vec::new(alloc);
    for _value in 0..count {
        values.push(drawn_value(rng))?;
    }
    Ok(values)
}
