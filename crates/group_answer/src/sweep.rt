//! The sweep: all members, stretch after stretch. All fours go through a stretch before the next, so its codes come from memory once.
ghost use Rattle.std.specs.Prelude.{◌≤◌, All, length};
ghost use Rattle.group_answer.specs.Sweeping.{AreSwept, members_of};

use crate::asked::Asked;
use crate::four::Four;
use crate::tuning::STRETCH_BLOCKS;
use row_codes::block_count;
use series_core::Rows;
use subtree_build::coded_length;

/// Sweeps all members for all fours.
pub(crate) fn sweep<R: Rows>(asked: &Asked<'_, R>, fours: &mut [Four<'_, R>])
    requires { All (AreSwept R.collection asked.now 0) fours.old }
    ensures { All (AreSwept R.collection asked.now (length (members_of asked.now.index.now))) fours.new }
{
    let count = asked.index.members().len();
    let size = stretch_size(asked);
    let mut from = 0usize;
    while from < count {
        let to = count.min(from.saturating_add(size));
        sweep_stretch(asked, fours, from, to);
        from = to;
    }
}

// How many members a stretch has, at least one: the more blocks stand for a row, the fewer.
fn stretch_size<R: Rows>(asked: &Asked<'_, R>) -> usize
    ensures { 1 ≤ result }
{
    let blocks = block_count(coded_length(asked.rows)) as usize;
    (STRETCH_BLOCKS / blocks.max(1)).max(1)
}

// Sweeps the members from place `from` up to but not including `to` for all fours.
fn sweep_stretch<R: Rows>(asked: &Asked<'_, R>, fours: &mut [Four<'_, R>], from: usize, to: usize)
    requires order { from ≤ to }
    requires end { to ≤ length (members_of asked.now.index.now) }
    requires swept { All (AreSwept R.collection asked.now from) fours.old }
    ensures { All (AreSwept R.collection asked.now to) fours.new }
{
    for four in fours.iter_mut() {
        four.sweep(asked, from, to);
    }
}
