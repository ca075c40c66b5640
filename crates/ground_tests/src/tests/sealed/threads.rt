//! Threads that pop together take what is within the limit, however they come.
ghost use Rattle.std.specs.Prelude.{◌≡◌, ◌<◌, ◌≤◌, All, IfOk, length, vec_len};
ghost use Rattle.sealed_runs.specs.Entries.{LeavesDiffer};
ghost use Rattle.sealed_runs.specs.Visits.{IsPass};

use super::calls::pop_open;
use super::plain::{plain_queue, scattered};
use crate::claims::assert_same;
use outside::NoMemory;
use sealed_runs::{RunPass, Runs, RunsClosed};
use series_core::{Entry, PopReply};
use std::alloc::Global;
use std::test::Fail;
use std::thread::{Threads, for_each_mut};

// Pops each run until it closes: at most once more than there are entries.
fn pop_each(runs: &Runs, pass: &mut RunPass, queues: u32, entries: usize, limit: u64)
    requires own { IsPass runs.now.runs pass.old }
    requires queues { queues ≡ length runs.now.runs }
    ensures { IsPass runs.now.runs pass.new }
{
    for m in 0..queues {
        for _turn in 0..=entries {
            let Some(PopReply::Leaf(_)) = pop_open(runs, pass, m, limit) else {
                break;
            };
        }
    }
}

// Each pass in a thread of its own, all over the same runs.
fn pop_together<R: Threads + Sync>(
    rt: &R,
    alloc: Global,
    entries: Vec<Entry>,
    sizes: Sizes,
) -> Result<RunsClosed, NoMemory>
    requires leaves { LeavesDiffer entries.items }
    requires queues { (1 ≤ sizes.queues) × (sizes.queues ≤ 64) }
    requires callers { (1 ≤ sizes.callers) × (sizes.callers ≤ 64) }
    ensures { IfOk result (λ closed. length closed ≡ sizes.queues) }
{
    let Sizes {
        queues,
        callers,
        limit,
    } = sizes;
    let count = entries.len();
    let (runs, mut passes) = Runs::seal(alloc, entries, queues, callers)?;
    for_each_mut(
        rt,
        passes.as_mut_slice(),
        callers as usize,
        &|_, pass| { pop_each(&runs, pass, queues, count, limit) },
    );
    Ok(runs.close(passes))
}

#[derive(Clone, Copy)]
struct Sizes {
    queues: u32,
    callers: u32,
    limit: u64,
}

/// How many entries there are, the queues, the threads and the limit.
const CASES: [(u32, u32, u32, u64); 4] = [
    (1000, 4, 4, 500),
    (1000, 3, 2, 0),
    (7, 64, 4, 2000),
    (0, 1, 4, 9),
];

#[test]
fn two_and_four_threads_take_what_is_within_the_limit(rt: HostRuntime) -> Result<(), Fail> {
    for (count, queues, callers, limit) in CASES {
        let alloc = rt.alloc();
        let sizes = Sizes {
            queues,
            callers,
            limit,
        };
        let entries = scattered(alloc, count)?;
        let plain = entries.clone()?;
        let closed = pop_together(&rt, alloc, entries, sizes)?;
        for m in 0..queues {
            let mut queue = plain_queue(alloc, &plain, queues, m)?;
            queue.pop_all(limit)?;
            let same = queue.is_run(&closed, m);
            assert_same!(rt; same, true, "run {m} of {queues} with {callers} threads");
        }
    }
    Ok(())
}
