//! Small searches as worked by hand, turn by turn on paper: their outcomes, and schedules that give none.
use crate::claims::assert_same;
use crate::outcomes::{Worked, is_as_worked};
use plain_search::{three_points, two_points};
use query_core::{Fate, Outcome, ReplayError, Start, Task, replay};
use series_core::{Entry, NONE, Pair};
use std::alloc::Global;
use std::process::Abort;
use std::test::*;
use std::thread::Threads;

const fn pair(distance: u64, number: u32) -> Pair {
    Pair { distance, number }
}

/// The search for the series nearest to 0 of -1 and 1, over one queue, by a schedule.
fn nearest_of_two<T: Threads + Sync>(
    rt: &T,
    alloc: Global,
    workers: u32,
    schedule: &[u32],
) -> Result<Result<Outcome, ReplayError>, Fail> {
    if workers < 1 || workers > 64 {
        return Err(Fail::new("no such number of workers"));
    }
    let (rows, settings, index) = two_points(rt, alloc)?;
    let query = [0];
    let task = Task::new(&rows, &query, 1, &settings.layout);
    Ok(replay(alloc, &task, &index, workers, 1, schedule))
}

/// Claims that this schedule takes these entries from the queue, and that the leaf of -1 has this fate.
fn claim_nearest_of_two<T: Threads + Abort + Sync>(
    rt: &T,
    alloc: Global,
    workers: u32,
    schedule: &[u32],
    taken: &[Entry],
    fate: Fate,
) -> Result<(), Fail> {
    let Ok(outcome) = nearest_of_two(rt, alloc, workers, schedule)? else {
        return Err(Fail::new("no outcome"));
    };
    let pairs = [pair(1, 0)];
    let lines = [(taken, Some(1))];
    let fates = [fate, Fate::Start];
    let worked = Worked {
        pairs: &pairs,
        start: Start { leaf: 1, limit: 1 },
        lines: &lines,
        fates: &fates,
    };
    assert_same!(rt; is_as_worked(&outcome, &worked), true, "{outcome:?}");
    Ok(())
}

#[test]
fn eleven_turns_of_one_worker(rt: HostRuntime) -> Result<(), Fail> {
    let taken = [Entry { bound: 1, leaf: 0 }];
    claim_nearest_of_two(&rt, rt.alloc(), 1, &[0; 11], &taken, Fate::Queue(0))
}

#[test]
fn a_leaf_that_comes_late(rt: HostRuntime) -> Result<(), Fail> {
    let schedule = [0, 0, 1, 1, 1, 1, 1, 0, 0, 0, 0, 0, 0, 0];
    claim_nearest_of_two(&rt, rt.alloc(), 2, &schedule, &[], Fate::Late(0))
}

#[test]
fn schedules_without_an_outcome(rt: HostRuntime) -> Result<(), Fail> {
    let cases: [(&[u32], ReplayError); 4] = [
        (&[0; 10], ReplayError::Unfinished(0)),
        (&[], ReplayError::Unfinished(0)),
        (&[0, 1], ReplayError::Stranger(1)),
        (
            &[0, 0, 0, 0, 0, 0, 0, 0, 0, 0, 0, 7],
            ReplayError::Stranger(11),
        ),
    ];
    for (schedule, error) in cases {
        let played = nearest_of_two(&rt, rt.alloc(), 1, schedule)?;
        assert_same!(rt; played.err(), Some(error), "{schedule:?}");
    }
    let played = nearest_of_two(&rt, rt.alloc(), 3, &[0; 11])?;
    assert_same!(rt;
        played.err(),
        Some(ReplayError::Unfinished(1)),
        "two idle workers"
    );
    Ok(())
}

/// Turns of worker 0, and then turns of workers 1, 2 and 0.
fn shut_schedule(alloc: Global) -> Result<Vec<u32>, Fail> {
    let mut schedule = Vec::new(alloc);
    for (worker, turns) in [(0u32, 2u32), (1, 39), (2, 39), (0, 39)] {
        for _turn in 0..turns {
            schedule.push(worker)?;
        }
    }
    Ok(schedule)
}

#[test]
fn queues_that_are_shut_before_the_first_put(rt: HostRuntime) -> Result<(), Fail> {
    let alloc = rt.alloc();
    let (rows, settings, index) = three_points(&rt, alloc)?;
    let query = [0, 0];
    let task = Task::new(&rows, &query, 3, &settings.layout);
    let schedule = shut_schedule(alloc)?;
    let Ok(outcome) = replay(alloc, &task, &index, 3, 2, &schedule) else {
        return Err(Fail::new("no outcome"));
    };
    let pairs = [pair(0, 0), pair(90000, 2), pair(400000000, 1)];
    let start = Start {
        leaf: 0,
        limit: NONE,
    };
    let worked = Worked {
        pairs: &pairs,
        start,
        lines: &[(&[], Some(NONE)), (&[], Some(NONE))],
        fates: &[Fate::Start, Fate::Late(0), Fate::Late(0)],
    };
    assert_same!(rt; is_as_worked(&outcome, &worked), true, "{outcome:?}");
    Ok(())
}
