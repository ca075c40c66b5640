//! The boxes of an index: that of each leaf's means, and those of groups of leaves that stand in a row. Where the box of a group
//! is far from a query, so is each of its leaves.
ghost use Rattle.std.specs.Prelude.{◌≡◌, ◌≤◌, All, IfOk, length};
ghost use Rattle.subtree_build.specs.Places.{boxes_seen, AreBoxes, AreGroups, IsPlace};

use crate::leaf::LeafPlace;
use mean_bound::{MeanBox, Means};
use outside::NoMemory;
use std::alloc::Global;

/// How many leaves are in a group; the last has those that are left.
pub const GROUP: u32 = 16;

/// How many leaves are in a wide group, each of which is sixteen groups.
pub const WIDE_GROUP: u32 = 256;

/// The box of each leaf, of each group of leaves and of each wide group.
#[derive(Drop)]
pub(crate) struct Boxes {
    pub(crate) leaves: Vec<MeanBox>,
    pub(crate) groups: Vec<MeanBox>,
    pub(crate) wide_groups: Vec<MeanBox>,
}

/// The boxes of the means at places.
pub(crate) fn boxes_of(
    alloc: Global,
    means: &[Means],
    places: &[LeafPlace],
) -> Result<Boxes, NoMemory>
    requires { All (IsPlace (length means.now)) places.now }
    ensures { IfOk result (AreBoxes means.now places.now) }
{
    let leaves = boxes_at(alloc, means, places)?;
    let groups = grouped(alloc, leaves.as_slice(), GROUP as usize)?;
    let wide_groups = grouped(alloc, leaves.as_slice(), WIDE_GROUP as usize)?;
    Ok(Boxes {
        leaves,
        groups,
        wide_groups,
    })
}

/// The box of the means at each place.
fn boxes_at(alloc: Global, means: &[Means], places: &[LeafPlace]) -> Result<Vec<MeanBox>, NoMemory>
    requires { All (IsPlace (length means.now)) places.now }
    ensures { IfOk result (λ boxes. boxes.items ≡ boxes_seen means.now places.now) }
{
    let mut boxes = Vec::with_capacity(alloc, places.len())?;
    for place in places {
        let of_leaf = &means[place.first as usize..place.end as usize];
        boxes.push(MeanBox::around(of_leaf))?;
    }
    Ok(boxes)
}

/// The box of each `size` boxes in a row.
fn grouped(alloc: Global, boxes: &[MeanBox], size: usize) -> Result<Vec<MeanBox>, NoMemory>
    requires some { 1 ≤ size }
    requires few { size ≤ 256 }
    ensures { IfOk result (λ groups. AreGroups size boxes.now groups.items) }
{
    let mut groups = Vec::new(alloc);
    let mut rest = boxes;
    while 0 < rest.len() {
        let (group, behind) = rest.split_at(size.min(rest.len()));
        groups.push(MeanBox::around_boxes(group))?;
        rest = behind;
    }
    Ok(groups)
}
