//! Random small collections with many equal distances, each with a query and how it is searched.
ghost use Rattle.std.specs.Prelude.{◌≡◌, ◌≤◌, IfOk};
ghost use Rattle.segment_sums.specs.Division.{division_of};
ghost use Rattle.subtree_build.specs.Fits.{Fits};

use crate::claims::assert_same;
use outside::{NoGate, NoMemory};
use plain_search::{Shape, drawn_collection, drawn_series, drawn_shape, tree_with};
use rand_xoshiro::SplitMix64;
use rand_xoshiro::rand_core::{Rng, SeedableRng};
use series_core::{Flat, Rows};
use std::alloc::Global;
use std::process::Abort;
use std::test::Fail;
use std::thread::Threads;
use subtree_build::{Index, Settings, build};

/// A drawn collection, with a query and how it is cut and searched.
#[derive(Drop)]
pub(crate) struct Case {
    /// Its place among the cases of a test.
    pub round: u32,
    /// The collection.
    pub rows: Flat,
    /// How it is cut and searched.
    pub shape: Shape,
    /// The query.
    pub query: [i16; 4],
    /// Whether the tree has its tables, or nothing beside it.
    pub tables: bool,
}

impl Case {
    /// The tree over the collection, with its settings.
    pub(crate) fn tree<T: Threads + Sync>(
        &self,
        rt: &T,
        alloc: Global,
    ) -> Result<(Settings, Index), NoMemory>
        ensures points { IfOk result (λ _. self.now.rows.points ≡ 4) }
        ensures k { IfOk result (λ _. (1 ≤ self.now.shape.k) × (self.now.shape.k ≤ 1024)) }
        ensures workers { IfOk result (λ _. (1 ≤ self.now.shape.workers) × (self.now.shape.workers ≤ 64)) }
        ensures queues { IfOk result (λ _. (1 ≤ self.now.shape.queues) × (self.now.shape.queues ≤ 64)) }
        ensures cuts { IfOk result (λ r. r.0.layout.cuts ≡ division_of 4 self.now.shape.segments) }
        ensures fits { IfOk result (λ r. Fits self.now.rows r.0.layout r.1) }
    {
        if !self.shape.is_sound() || self.rows.length() != 4 {
            return Err(NoMemory);
        }
        let settings = self.shape.settings();
        let index = build(rt, alloc, &self.rows, &settings, 1, &NoGate)?;
        let index = tree_with(&self.rows, &settings, index, self.tables);
        Ok((settings, index))
    }
}

/// Draws 120 cases, each searched by one of these numbers of workers, and claims that searches of them agree, by a tree with its tables
/// and by one with nothing beside it. The first collection is empty, and the others have at most 24 series.
pub(crate) fn all_agree<F: Fn(&Case) -> Result<bool, NoMemory>>(
    rt: &impl Abort,
    alloc: Global,
    seed: u64,
    workers: [u32; 4],
    agree: F,
) -> Result<(), Fail>
    requires { F.IsAlwaysCallable agree }
{
    let mut rng = SplitMix64::seed_from_u64(seed);
    for round in 0..120 {
        let count = if round == 0 {
            0
        } else {
            1 + rng.next_u32() % 24
        };
        let rows = drawn_collection(alloc, &mut rng, count)?;
        let shape = drawn_shape(&mut rng, workers);
        let query = drawn_series(&mut rng);
        let mut case = Case {
            round,
            rows,
            shape,
            query,
            tables: true,
        };
        for tables in [true, false] {
            case.tables = tables;
            assert_same!(rt; agree(&case)?, true, "round {round}: {count} series, {shape:?}, tables: {tables}");
        }
    }
    Ok(())
}
