//! Random small collections with many equal distances: the pairs are those of a plain sort, whatever the schedule.
use crate::cases::{Case, all_agree};
use outside::NoMemory;
use plain_search::{Shape, are_same, plain_nearest};
use query_core::{Fate, Outcome, Task, one_worker, replay};
use rand_xoshiro::SplitMix64;
use rand_xoshiro::rand_core::{Rng, SeedableRng};
use std::alloc::Global;
use std::test::*;
use std::thread::Threads;

/// Whether the pairs are these, and each of the leaves has one fate, one of them the start leaf's.
pub(crate) fn is_right(outcome: &Outcome, pairs: &[(u64, u32)], leaves: u32) -> bool {
    let mut starts = 0u32;
    for fate in &outcome.fates.items {
        if *fate == Fate::Start {
            starts = starts.wrapping_add(1);
        }
    }
    if outcome.fates.items.len() != leaves as usize || starts != leaves.min(1) {
        return false;
    }
    are_same(&outcome.pairs.items, pairs)
}

/// Drawn turns, and then each worker's turns until it is surely done.
fn drawn_schedule(
    alloc: Global,
    rng: &mut SplitMix64,
    shape: Shape,
    leaves: u32,
) -> Result<Vec<u32>, NoMemory> {
    let mut schedule = Vec::new(alloc);
    if shape.workers == 0 {
        return Ok(schedule);
    }
    for _turn in 0..300 {
        schedule.push(rng.next_u32() % shape.workers)?;
    }
    let rounds = 2u32.wrapping_mul(shape.workers).wrapping_mul(shape.queues);
    let enough = 8u32
        .wrapping_mul(leaves)
        .wrapping_add(shape.workers)
        .wrapping_add(rounds);
    for worker in 0..shape.workers {
        for _turn in 0..enough {
            schedule.push(worker)?;
        }
    }
    Ok(schedule)
}

/// Whether a search by one worker and one by a drawn schedule find what a plain sort finds.
fn agree<T: Threads + Sync>(rt: &T, alloc: Global, case: &Case) -> Result<bool, NoMemory> {
    let (settings, index) = case.tree(rt, alloc)?;
    let shape = case.shape;
    let task = Task::new(&case.rows, &case.query, shape.k, &settings.layout);
    let nearest = plain_nearest(alloc, &case.rows, &case.query, shape.k)?;
    let alone = one_worker(alloc, &task, &index, shape.queues)?;
    let mut rng = SplitMix64::seed_from_u64(u64::from(case.round));
    let schedule = drawn_schedule(alloc, &mut rng, shape, index.leaf_count())?;
    let Ok(played) = replay(alloc, &task, &index, shape.workers, shape.queues, &schedule) else {
        return Err(NoMemory);
    };
    let leaves = index.leaf_count();
    Ok(is_right(&alone, &nearest, leaves) && is_right(&played, &nearest, leaves))
}

#[test]
fn find_what_a_plain_sort_finds(rt: HostRuntime) -> Result<(), Fail> {
    let alloc = rt.alloc();
    all_agree(&rt, alloc, 11, [1, 2, 3, 4], |case| agree(&rt, alloc, case))
}
