//! A small search as worked by hand: its whole outcome, whatever the number of workers.
use super::forms::{Form, searched};
use super::points::{BY_BOUND, BY_DISTANCE};
use crate::claims::assert_same;
use crate::outcomes::{Worked, is_as_worked};
use outside::NoGate;
use plain_search::three_points;
use query_core::{Fate, Outcome, Start, Task};
use series_core::NONE;
use std::alloc::Global;
use std::process::Abort;
use std::sync::Wait;
use std::test::*;
use std::thread::Threads;

/// How many workers search, and whether over locked queues.
const WAYS: [(u32, bool); 6] = [
    (1, false),
    (2, false),
    (8, false),
    (1, true),
    (2, true),
    (8, true),
];

/// The search for the k points nearest to (0,0), over two queues, with locks or without.
fn near_points<T: Threads + Wait + Sync>(
    rt: &T,
    alloc: Global,
    k: u32,
    workers: u32,
    locked: bool,
) -> Result<Outcome, Fail> {
    if k < 1 || k > 3 || workers < 1 || workers > 64 {
        return Err(Fail::new("no such search"));
    }
    let (rows, settings, index) = three_points(rt, alloc)?;
    let task = Task::new(&rows, &[0, 0], k, &settings.layout);
    let form = Form {
        workers,
        queues: 2,
        locked,
    };
    Ok(searched(rt, alloc, &task, &index, &NoGate, form)?)
}

/// Claims that each way ends with this outcome.
fn all_as_worked<T: Threads + Wait + Abort + Sync>(
    rt: &T,
    alloc: Global,
    k: u32,
    worked: &Worked<'_>,
) -> Result<(), Fail> {
    for (workers, locked) in WAYS {
        let outcome = near_points(rt, alloc, k, workers, locked)?;
        let same = is_as_worked(&outcome, worked);
        assert_same!(rt; same, true, "{workers} workers, locked {locked}: {outcome:?}");
    }
    Ok(())
}

#[test]
fn one_leaf_is_scanned_and_two_are_cut(rt: HostRuntime) -> Result<(), Fail> {
    let start = Start { leaf: 0, limit: 0 };
    all_as_worked(
        &rt,
        rt.alloc(),
        1,
        &Worked {
            pairs: &BY_DISTANCE[..1],
            start,
            lines: &[(&[], Some(0)), (&[], Some(0))],
            fates: &[Fate::Start, Fate::Bound(65536), Fate::Bound(268435456)],
        },
    )
}

#[test]
fn each_leaf_is_taken_from_its_queue(rt: HostRuntime) -> Result<(), Fail> {
    let [near, far] = BY_BOUND;
    let start = Start {
        leaf: 0,
        limit: NONE,
    };
    all_as_worked(
        &rt,
        rt.alloc(),
        3,
        &Worked {
            pairs: &BY_DISTANCE,
            start,
            lines: &[(&[far], None), (&[near], None)],
            fates: &[Fate::Start, Fate::Queue(1), Fate::Queue(0)],
        },
    )
}
