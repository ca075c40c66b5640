//! Indexes put together of frames and members: the worked one, parts that make no frame, and members that a frame has no place for.
ghost use Rattle.std.specs.Prelude.{◌≤◌};

use crate::claims::assert_same;
use crate::worked::is_leaf;
use breakpoints::Table;
use isax_word::{Full, Layout, Member};
use segment_sums::Cuts;
use std::alloc::Global;
use std::test::Fail;
use subtree_build::{Assembly, Frame, Index, Node};

/// The worked collection: four series of four values.
const ROWS: [[i16; 4]; 4] = [
    [0, 0, 0, 0],
    [10, 10, 10, 10],
    [-10, -10, -10, -10],
    [0, 0, 10, 10],
];

/// The series of these numbers as members by two segments.
fn listed(alloc: Global, numbers: &[u32]) -> Result<Vec<Member>, Fail> {
    let layout = Layout {
        cuts: Cuts::new(4, 2),
        table: Table::Flat,
    };
    let mut items = Vec::new(alloc);
    for number in numbers {
        let Some(row) = ROWS.get(*number as usize) else {
            return Err(Fail::new("no such series"));
        };
        items.push(Member {
            number: *number,
            full: Full::of(&layout, row),
        })?;
    }
    Ok(items)
}

#[test]
fn the_worked_parts(rt: HostRuntime) -> Result<(), Fail> {
    let alloc = rt.alloc();
    let counts = vec![in alloc; 1, 3]?;
    let members = listed(alloc, &[2, 0, 1, 3])?;
    let roots = vec![in alloc; 0, 3]?;
    let nodes = vec![in alloc; Node::Leaf(0), Node::Leaf(1)]?;
    let Ok(frame) = Frame::of(alloc, 2, roots, nodes, counts, 4) else {
        return Err(Fail::new("the parts make a frame"));
    };
    let Some(index) = Index::of_frame(frame, members) else {
        return Err(Fail::new("the frame and its members make an index"));
    };
    assert_same!(rt; index.leaf_count(), 2, "leaves");
    assert_same!(rt; index.root_count(), 2, "root children");
    assert_same!(rt; is_leaf(&index, 0, &[(0, 1), (0, 1)], &[2]), true, "the first leaf");
    assert_same!(rt; is_leaf(&index, 1, &[(1, 1), (1, 1)], &[0, 1, 3]), true, "the second leaf");
    assert_same!(rt; index.has_means() || index.has_codes(), false, "something beside the tree");
    Ok(())
}

/// A node that is split so often in one segment, each split with its low child alone, down to leaf 0.
fn chain(alloc: Global, segment: u32, splits: u32) -> Result<Node, Fail> {
    let mut node = Node::Leaf(0);
    for _ in 0..splits {
        let low = Box::new(alloc, node)?;
        node = Node::Split {
            segment,
            low: Some(low),
            high: None,
        };
    }
    Ok(node)
}

/// A node that is split in segment 0 into leaves of two numbers.
fn pair(alloc: Global, low: u32, high: u32) -> Result<Node, Fail> {
    Ok(Node::Split {
        segment: 0,
        low: Some(Box::new(alloc, Node::Leaf(low))?),
        high: Some(Box::new(alloc, Node::Leaf(high))?),
    })
}

/// Whether root numbers of two segments, nodes and `count` empty leaves are refused.
fn are_refused(alloc: Global, roots: &[u32], nodes: Vec<Node>, count: u32) -> Result<bool, Fail> {
    let mut counts = Vec::new(alloc);
    for _ in 0..count {
        counts.push(0)?;
    }
    if counts.len() > 10 {
        return Err(Fail::new("that many leaves are not tried"));
    }
    let roots = roots.to_vec(alloc)?;
    match Frame::of(alloc, 2, roots, nodes, counts, 0) {
        Ok(frame) => {
            let Some(index) = Index::of_frame(frame, Vec::new(alloc)) else {
                return Err(Fail::new("a frame of no members refuses none"));
            };
            if index.leaf_count() != count {
                return Err(Fail::new("another number of leaves"));
            }
            Ok(false)
        }
        Err(Assembly::Parts) => Ok(true),
        Err(Assembly::NoMemory) => Err(Fail::new("no memory for the frame")),
    }
}

/// A node that is split and has no child.
fn childless() -> Node {
    Node::Split {
        segment: 0,
        low: None,
        high: None,
    }
}

#[test]
fn parts_that_make_an_index(rt: HostRuntime) -> Result<(), Fail> {
    let alloc = rt.alloc();
    let none = are_refused(alloc, &[], Vec::new(alloc), 0)?;
    assert_same!(rt; none, false, "no root child");
    let deep = vec![in alloc; chain(alloc, 1, 7)?]?;
    assert_same!(rt; are_refused(alloc, &[3], deep, 1)?, false, "eight bits in a segment");
    let both = vec![in alloc; pair(alloc, 0, 1)?, Node::Leaf(2)]?;
    assert_same!(rt; are_refused(alloc, &[0, 2], both, 3)?, false, "two children and a leaf");
    Ok(())
}

/// The frame of one leaf that is said to have `count` of `members` members; None where it is refused.
fn one_leaf(alloc: Global, count: u32, members: u32) -> Result<Option<Frame>, Fail> {
    let roots = vec![in alloc; 3]?;
    let nodes = vec![in alloc; Node::Leaf(0)]?;
    let counts = vec![in alloc; count]?;
    match Frame::of(alloc, 2, roots, nodes, counts, members) {
        Ok(frame) => Ok(Some(frame)),
        Err(Assembly::Parts) => Ok(None),
        Err(Assembly::NoMemory) => Err(Fail::new("no memory for the frame")),
    }
}

#[test]
fn counts_add_up_to_the_members(rt: HostRuntime) -> Result<(), Fail> {
    let alloc = rt.alloc();
    assert_same!(rt; one_leaf(alloc, 3, 3)?.is_some(), true, "three of three");
    assert_same!(rt; one_leaf(alloc, 2, 3)?.is_some(), false, "two of three");
    assert_same!(rt; one_leaf(alloc, 4, 3)?.is_some(), false, "four of three");
    Ok(())
}

/// Whether a frame of one leaf with three members makes an index of the series of these numbers.
fn three_are(alloc: Global, numbers: &[u32]) -> Result<bool, Fail> {
    let Some(frame) = one_leaf(alloc, 3, 3)? else {
        return Err(Fail::new("the parts make a frame"));
    };
    Ok(Index::of_frame(frame, listed(alloc, numbers)?).is_some())
}

#[test]
fn a_frame_takes_as_many_members(rt: HostRuntime) -> Result<(), Fail> {
    let alloc = rt.alloc();
    assert_same!(rt; three_are(alloc, &[0, 1, 3])?, true, "as many");
    assert_same!(rt; three_are(alloc, &[0, 1])?, false, "one too few");
    assert_same!(rt; three_are(alloc, &[0, 1, 2, 3])?, false, "one too many");
    Ok(())
}

#[test]
fn parts_that_make_none(rt: HostRuntime) -> Result<(), Fail> {
    let alloc = rt.alloc();
    let two = vec![in alloc; Node::Leaf(0), Node::Leaf(1)]?;
    assert_same!(rt; are_refused(alloc, &[1, 1], two, 2)?, true, "equal root numbers");
    let two = vec![in alloc; Node::Leaf(0), Node::Leaf(1)]?;
    assert_same!(rt; are_refused(alloc, &[2, 1], two, 2)?, true, "descending root numbers");
    let one = vec![in alloc; Node::Leaf(0)]?;
    assert_same!(rt; are_refused(alloc, &[4], one, 1)?, true, "a root number of three bits");
    let one = vec![in alloc; Node::Leaf(0)]?;
    assert_same!(rt; are_refused(alloc, &[0, 1], one, 1)?, true, "a root number without a node");
    let deep = vec![in alloc; chain(alloc, 1, 8)?]?;
    assert_same!(rt; are_refused(alloc, &[3], deep, 1)?, true, "nine bits in a segment");
    let aside = vec![in alloc; chain(alloc, 2, 1)?]?;
    assert_same!(rt; are_refused(alloc, &[3], aside, 1)?, true, "a segment past the last");
    let empty = vec![in alloc; childless()]?;
    assert_same!(rt; are_refused(alloc, &[3], empty, 0)?, true, "a split without child");
    let turned = vec![in alloc; pair(alloc, 1, 0)?]?;
    assert_same!(rt; are_refused(alloc, &[3], turned, 2)?, true, "leaves out of order");
    let same = vec![in alloc; pair(alloc, 0, 0)?]?;
    assert_same!(rt; are_refused(alloc, &[3], same, 1)?, true, "one leaf twice");
    let few = vec![in alloc; Node::Leaf(0)]?;
    assert_same!(rt; are_refused(alloc, &[3], few, 2)?, true, "a leaf below no node");
    let many = vec![in alloc; pair(alloc, 0, 1)?]?;
    assert_same!(rt; are_refused(alloc, &[3], many, 1)?, true, "a node of no leaf");
    Ok(())
}
