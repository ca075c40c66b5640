//! A queue answers as worked by hand, directly and through a lock, and as a sorted list does.
mod sorted_list;

use crate::claims::assert_same;
use leaf_queues::{Call, Queue, Reply};
use rand_xoshiro::SplitMix64;
use rand_xoshiro::rand_core::{Rng, SeedableRng};
use series_core::{Entry, PopReply, PutReply};
use sorted_list::SortedList;
use std::test::Fail;
use turn_lock::{Object, TurnLock};

const fn put(bound: u64, leaf: u32) -> Call {
    Call::Put(Entry { bound, leaf })
}

// What is asked of a queue with room for two entries, and what it answers.
fn worked_calls() -> [(Call, Reply); 7] {
    let least = Entry { bound: 3, leaf: 2 };
    [
        (put(5, 0), Reply::Put(PutReply::Placed)),
        (put(3, 2), Reply::Put(PutReply::Placed)),
        (put(9, 4), Reply::Put(PutReply::Filled(2))),
        (Call::Pop(4), Reply::Pop(PopReply::Leaf(least))),
        (Call::Pop(4), Reply::Pop(PopReply::Closed(4))),
        (put(1, 6), Reply::Put(PutReply::Shut(4))),
        (Call::Pop(100), Reply::Pop(PopReply::Closed(4))),
    ]
}

fn is_left_as_worked(queue: &Queue) -> bool {
    queue.taken() == [Entry { bound: 3, leaf: 2 }].as_slice()
        && queue.waiting() == [Entry { bound: 5, leaf: 0 }].as_slice()
        && queue.kept() == Some(4)
}

#[test]
fn answers_as_worked_by_hand(rt: HostRuntime) -> Result<(), Fail> {
    let mut queue = Queue::new(rt.alloc(), 2)?;
    assert_same!(rt; queue.kept(), None);
    for (call, reply) in worked_calls() {
        assert_same!(rt; queue.apply(0, call), reply, "{call:?}");
    }
    assert!(rt; is_left_as_worked(&queue));
    Ok(())
}

#[test]
fn answers_the_same_through_a_lock(rt: HostRuntime) -> Result<(), Fail> {
    let queue = Queue::new(rt.alloc(), 2)?;
    let Ok((lock, mut passes)) = TurnLock::begin(rt.alloc(), queue, 1) else {
        return Err(Fail::new("out of memory"));
    };
    let Some(mut pass) = passes.pop() else {
        unreachable!()
    };
    for (call, reply) in worked_calls() {
        assert_same!(rt; lock.call(&rt, &mut pass, call), reply, "{call:?}");
    }
    passes.push_reserved(pass);
    assert!(rt; is_left_as_worked(&lock.close(passes)));
    Ok(())
}

// Two of three calls are puts; bounds and leaves are few, so that many are equal. Bounds lie this far apart.
fn drawn_call(rng: &mut SplitMix64, apart: u64) -> Call {
    let bound = (rng.next_u64() % 9).saturating_mul(apart);
    let leaf = rng.next_u32() % 7;
    if rng.next_u64() % 3 > 0 {
        put(bound, leaf)
    } else {
        Call::Pop(bound.saturating_add(apart))
    }
}

#[test]
fn answers_as_a_sorted_list(rt: HostRuntime) -> Result<(), Fail> {
    let mut rng = SplitMix64::seed_from_u64(7);
    for round in 0..20 {
        let apart = [1, 1 << 52][round % 2];
        let mut queue = Queue::new(rt.alloc(), 40)?;
        let mut list = SortedList::new(rt.alloc(), 40);
        for _ in 0..60 {
            let call = drawn_call(&mut rng, apart);
            assert_same!(rt;
                queue.apply(0, call),
                list.answer(call)?,
                "round {round}: {call:?}"
            );
        }
        let mut left = queue.waiting().to_vec(rt.alloc())?;
        left.sort_unstable();
        assert_same!(rt; left.as_slice(), list.waiting(), "round {round}");
    }
    Ok(())
}
