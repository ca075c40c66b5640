//! Random small collections with many equal distances: the answer is that of a plain sort.
use crate::cases::{Case, all_agree};
use nearest_answer::{Task, one_worker_answer};
use outside::NoMemory;
use plain_search::{are_same, plain_nearest};
use std::alloc::Global;
use std::test::*;
use std::thread::Threads;

/// Whether the answer is what a plain sort finds.
fn agrees<T: Threads + Sync>(rt: &T, alloc: Global, case: &Case) -> Result<bool, NoMemory> {
    let (settings, index) = case.tree(rt, alloc)?;
    let task = Task::new(&case.rows, &case.query, case.shape.k, &settings.layout);
    let nearest = plain_nearest(alloc, &case.rows, &case.query, case.shape.k)?;
    let answer = one_worker_answer(alloc, &task, &index)?;
    Ok(are_same(&answer.items, &nearest))
}

#[test]
fn finds_what_a_plain_sort_finds(rt: HostRuntime) -> Result<(), Fail> {
    let alloc = rt.alloc();
    all_agree(
        &rt,
        alloc,
        11,
        [1, 2, 3, 4],
        |case| agrees(&rt, alloc, case),
    )
}
