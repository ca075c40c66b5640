//! Lists of whole numbers from 0 on: what was pushed and appended comes back in order.
use crate::claims::assert_same;
use block_list::{BlockList, Unplaced};
use std::alloc::Global;
use std::test::Fail;

/// A list of the numbers from `from` up to but not including `to`.
fn numbers(alloc: Global, from: u32, to: u32) -> Result<BlockList<u32>, Unplaced<u32>> {
    let mut list = BlockList::new();
    for n in from..to {
        list.push(alloc, n)?;
    }
    Ok(list)
}

/// What a test says where a push is refused, and nothing may be refused.
const REFUSED: &str = "a push was refused";

/// How many numbers stand in the list, if they are those from 0 on in order.
fn counted(list: &BlockList<u32>) -> Option<u32> {
    let mut next = 0u32;
    for n in list.iter() {
        if n != next || next == u32::MAX {
            return None;
        }
        next += 1;
    }
    Some(next)
}

#[test]
fn two_lists_of_known_lengths(rt: HostRuntime) -> Result<(), Fail> {
    let alloc = rt.alloc();
    for (first, all) in [(17, 37), (500_000, 1_000_000)] {
        let mut list = numbers(alloc, 0, first).ok().ok_or(REFUSED)?;
        list.append(numbers(alloc, first, all).ok().ok_or(REFUSED)?);
        assert_same!(rt;
            counted(&list),
            Some(all),
            "{first} numbers, and {all} in all"
        );
    }
    Ok(())
}

#[test]
fn each_two_lists_in_each_order(rt: HostRuntime) -> Result<(), Fail> {
    let alloc = rt.alloc();
    for a in [0u32, 1, 16, 17] {
        for b in [0u32, 1, 16, 17] {
            let mut first = numbers(alloc, 0, a).ok().ok_or(REFUSED)?;
            first.append(numbers(alloc, a, a + b).ok().ok_or(REFUSED)?);
            assert_same!(rt; counted(&first), Some(a + b), "{a} and {b}");
            first.push(alloc, a + b).ok().ok_or(REFUSED)?;
            assert_same!(rt;
                counted(&first),
                Some(a + b + 1),
                "{a} and {b}, and one more"
            );
        }
    }
    Ok(())
}

#[test]
fn a_refused_item_comes_back(rt: HostRuntime) {
    let alloc = rt.alloc();
    let mut list = BlockList::new();
    for n in 0..37u32 {
        if let Err(refused) = list.push(alloc, n) {
            assert_same!(rt; refused.value, n);
            assert_same!(rt; counted(&list), Some(n), "the items before it stand");
            return;
        }
    }
    assert_same!(rt; counted(&list), Some(37));
}

/// Takes what threads may share and send.
fn crosses<T: Send + Sync>(_item: &T) {}

#[test]
fn a_list_crosses_threads(rt: HostRuntime) {
    let list: BlockList<u32> = BlockList::new();
    crosses(&list);
    assert_same!(rt; counted(&list), Some(0));
}
