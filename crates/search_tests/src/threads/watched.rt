//! Rows that are watched: cut series are never asked for, and two workers really search side by side.
use super::forms::{Form, searched};
use super::points::BY_DISTANCE;
use crate::claims::assert_same;
use outside::NoGate;
use plain_search::{Watched, three_points};
use query_core::{Outcome, Task};
use std::alloc::Global;
use std::sync::Wait;
use std::test::*;
use std::thread::Threads;

/// The search by two workers over two queues for the k nearest to (0,0) among three watched series of two values, and the rows
/// that were watched. With `held`, those who ask for one of two rows wait for those who ask for the other.
fn watched_search<T: Threads + Wait + Sync>(
    rt: &T,
    alloc: Global,
    k: u32,
    held: bool,
    locked: bool,
) -> Result<(Outcome, Watched), Fail> {
    if k < 1 || k > 3 {
        return Err(Fail::new("no such search"));
    }
    let (flat, settings, index) = three_points(rt, alloc)?;
    let rows = Watched::over(flat, held.then_some((1, 2)));
    let task = Task::new(&rows, &[0, 0], k, &settings.layout);
    let form = Form {
        workers: 2,
        queues: 2,
        locked,
    };
    let outcome = searched(rt, alloc, &task, &index, &NoGate, form)?;
    Ok((outcome, rows))
}

// How many are asked for, whether the rows of the two leaves beside that of the query wait for one another, and how often each row is
// asked for: those of leaves that are cut never are.
const WATCHED: [(u32, bool, [u64; 3]); 2] = [(1, false, [1, 0, 0]), (3, true, [1, 1, 1])];

#[test]
fn two_workers_ask_side_by_side_for_what_is_not_cut(rt: HostRuntime) -> Result<(), Fail> {
    for (k, held, asked) in WATCHED {
        for locked in [false, true] {
            let (outcome, rows) = watched_search(&rt, rt.alloc(), k, held, locked)?;
            let times = [rows.times(0), rows.times(1), rows.times(2)];
            let pairs = Some(outcome.pairs.items.as_slice());
            assert_same!(rt; pairs, BY_DISTANCE.get(..k as usize), "{k}, locked {locked}");
            // Where rows wait, none does so in vain.
            assert_same!(rt; (times, rows.ran_out()), (asked, 0), "{k}, locked {locked}");
        }
    }
    Ok(())
}
