//! Searches of two workers turn by turn, as worked by hand: what each asks at each turn, what it is answered, and what it knows before.
ghost use Rattle.subtree_build.specs.Fits.{Fits};

use super::play::{Known, Play};
use crate::claims::assert_same;
use plain_search::{three_points, two_points};
use query_core::{Call, Reply, Task};
use series_core::{Entry, Flat, NONE, PopReply, PutReply};
use std::alloc::Global;
use std::process::Abort;
use std::test::*;
use subtree_build::Index;

/// A turn: whether it is the second worker's; what that worker knows before it: whether its fill part has ended, and the number of its
/// k-th pair; its call, and the reply.
type Row = (bool, bool, Option<u32>, Call, Reply);

const CLAIM: Call = Call::Claim;

const READ: Call = Call::Read;

const NO_MORE: Reply = Reply::Claimed(None);

const PLACED: Reply = Reply::PutTold(PutReply::Placed);

const SHUT: Reply = Reply::PutTold(PutReply::Shut(1));

// The leaf of -1, those of (300,0) and of (0,20000), with their bounds.
const ONE: Entry = Entry { bound: 1, leaf: 0 };

const NEAR: Entry = Entry {
    bound: 65536,
    leaf: 1,
};

const FAR: Entry = Entry {
    bound: 268435456,
    leaf: 2,
};

const ONE_GIVEN: Reply = Reply::PopTold(PopReply::Leaf(ONE));

const NEAR_GIVEN: Reply = Reply::PopTold(PopReply::Leaf(NEAR));

const CLOSED_AT_1: Reply = Reply::PopTold(PopReply::Closed(1));

const CLOSED_AT_90000: Reply = Reply::PopTold(PopReply::Closed(90000));

// The nearest to 0 of -1 and 1: the first worker alone. The leaf of -1 has the bound 1, and that of 1 is the start.
const ALONE: [Row; 11] = [
    (false, false, Some(1), CLAIM, Reply::Claimed(Some(0))),
    (false, false, Some(1), READ, Reply::Seen(1)),
    (false, false, Some(1), Call::Put(0, ONE), PLACED),
    (false, false, Some(1), READ, Reply::Seen(1)),
    (false, false, Some(1), CLAIM, Reply::Claimed(Some(1))),
    (false, false, Some(1), READ, Reply::Seen(1)),
    (false, false, Some(1), CLAIM, NO_MORE),
    (false, true, Some(1), READ, Reply::Seen(1)),
    (false, true, Some(1), Call::Pop(0, 1), ONE_GIVEN),
    (false, true, Some(0), READ, Reply::Seen(1)),
    (false, true, Some(0), Call::Pop(0, 1), CLOSED_AT_1),
];

// The same search where the second worker shuts the queue before the first has put its leaf.
const LATE: [Row; 13] = [
    (false, false, Some(1), CLAIM, Reply::Claimed(Some(0))),
    (false, false, Some(1), READ, Reply::Seen(1)),
    (true, false, None, CLAIM, Reply::Claimed(Some(1))),
    (true, false, None, READ, Reply::Seen(1)),
    (true, false, None, CLAIM, NO_MORE),
    (true, true, None, READ, Reply::Seen(1)),
    (true, true, None, Call::Pop(0, 1), CLOSED_AT_1),
    (false, false, Some(1), Call::Put(0, ONE), SHUT),
    (false, false, Some(1), READ, Reply::Seen(1)),
    (false, false, Some(0), READ, Reply::Seen(1)),
    (false, false, Some(0), CLAIM, NO_MORE),
    (false, true, Some(0), READ, Reply::Seen(1)),
    (false, true, Some(0), Call::Pop(0, 1), CLOSED_AT_1),
];

// The two nearest to (0,0) of (0,0), (0,20000) and (300,0): what the first worker offers is what the second reads, which shuts the queue
// with it although a leaf waits there.
const OFFERED: [Row; 15] = [
    (false, false, None, CLAIM, Reply::Claimed(Some(0))),
    (false, false, None, READ, Reply::Seen(NONE)),
    (false, false, None, Call::Put(0, NEAR), PLACED),
    (false, false, None, READ, Reply::Seen(NONE)),
    (false, false, None, Call::Put(0, FAR), PLACED),
    (false, false, None, READ, Reply::Seen(NONE)),
    (false, false, None, CLAIM, NO_MORE),
    (true, false, None, CLAIM, NO_MORE),
    (false, true, None, READ, Reply::Seen(NONE)),
    (false, true, None, Call::Pop(0, NONE), NEAR_GIVEN),
    (
        false,
        true,
        Some(2),
        Call::Offer(90000),
        Reply::Offered(NONE),
    ),
    (true, true, None, READ, Reply::Seen(90000)),
    (true, true, None, Call::Pop(0, 90000), CLOSED_AT_90000),
    (false, true, Some(2), READ, Reply::Seen(90000)),
    (false, true, Some(2), Call::Pop(0, 90000), CLOSED_AT_90000),
];

/// What both workers know behind the last turn, and the best-so-far at the end.
type End = ([Known; 2], u64);

const ALONE_END: End = ([(true, Some(0), true), (false, None, false)], 1);

const LATE_END: End = ([(true, Some(0), true), (true, None, true)], 1);

const OFFERED_END: End = ([(true, Some(2), true), (true, None, true)], 90000);

/// Plays a search, and compares each turn with the table and the end with this one.
fn follow(
    rt: &impl Abort,
    alloc: Global,
    task: &Task<'_, Flat>,
    index: &Index,
    table: &[Row],
    end: End,
) -> Result<(), Fail>
    requires { Fits task.now.collection task.now.layout index.now }
{
    let mut play = Play::open(alloc, task, index)?;
    for (i, (second, filled, worst, call, reply)) in table.iter().enumerate() {
        assert_same!(rt; play.known(*second), (*filled, *worst, false), "before turn {i}");
        assert_same!(rt; play.turn(*second), Some((*call, *reply)), "turn {i}");
    }
    let (known, least) = end;
    assert_same!(rt; [play.known(false), play.known(true)], known, "behind the last turn");
    assert_same!(rt; play.close(alloc)?, least, "the best-so-far");
    Ok(())
}

#[test]
fn one_worker_turn_by_turn(rt: HostRuntime) -> Result<(), Fail> {
    let alloc = rt.alloc();
    let (rows, settings, index) = two_points(&rt, alloc)?;
    let task = Task::new(&rows, &[0], 1, &settings.layout);
    follow(&rt, alloc, &task, &index, &ALONE, ALONE_END)?;
    follow(&rt, alloc, &task, &index, &LATE, LATE_END)
}

#[test]
fn each_worker_reads_what_the_other_offered(rt: HostRuntime) -> Result<(), Fail> {
    let alloc = rt.alloc();
    let (rows, settings, index) = three_points(&rt, alloc)?;
    let task = Task::new(&rows, &[0, 0], 2, &settings.layout);
    follow(&rt, alloc, &task, &index, &OFFERED, OFFERED_END)
}
