//! Random small collections with many equal distances: the pairs are those of a plain sort, by any number of workers over any number of queues.
use super::forms::{Form, searched};
use crate::cases::{Case, all_agree};
use crate::claims::assert_same;
use crate::workers::drawn::is_right;
use outside::{NoGate, NoMemory};
use plain_search::{Shape, drawn_collection, drawn_series, drawn_shape, plain_nearest};
use query_core::Task;
use rand_xoshiro::SplitMix64;
use rand_xoshiro::rand_core::SeedableRng;
use std::alloc::Global;
use std::sync::Wait;
use std::test::*;
use std::thread::Threads;

/// How many workers search.
const WORKERS: [u32; 4] = [1, 2, 3, 8];

/// Whether a search without locks and one over locked queues find what a plain sort finds.
fn agrees<T: Threads + Wait + Sync>(rt: &T, alloc: Global, case: &Case) -> Result<bool, NoMemory> {
    let (settings, index) = case.tree(rt, alloc)?;
    let shape = case.shape;
    let task = Task::new(&case.rows, &case.query, shape.k, &settings.layout);
    let wanted = plain_nearest(alloc, &case.rows, &case.query, shape.k)?;
    for locked in [false, true] {
        let form = Form {
            workers: shape.workers,
            queues: shape.queues,
            locked,
        };
        let outcome = searched(rt, alloc, &task, &index, &NoGate, form)?;
        if !is_right(&outcome, &wanted, index.leaf_count()) {
            return Ok(false);
        }
    }
    Ok(true)
}

#[test]
fn finds_what_a_plain_sort_finds(rt: HostRuntime) -> Result<(), Fail> {
    let alloc = rt.alloc();
    all_agree(&rt, alloc, 13, WORKERS, |case| agrees(&rt, alloc, case))
}

// Of sixteen root children one worker draws groups of two, and 64 workers draw each by itself.
#[test]
fn one_worker_and_64_find_what_a_plain_sort_finds(rt: HostRuntime) -> Result<(), Fail> {
    let alloc = rt.alloc();
    let mut rng = SplitMix64::seed_from_u64(64);
    for (workers, queues) in [(1, 1), (1, 64), (64, 1), (64, 64)] {
        for count in [0, 1, 7, 100] {
            let rows = drawn_collection(alloc, &mut rng, count)?;
            let shape = Shape {
                segments: 4,
                workers,
                queues,
                ..drawn_shape(&mut rng, WORKERS)
            };
            let query = drawn_series(&mut rng);
            let case = Case {
                round: 0,
                rows,
                shape,
                query,
                tables: true,
            };
            assert_same!(rt; agrees(&rt, alloc, &case)?, true, "{count} series, {shape:?}");
        }
    }
    Ok(())
}
