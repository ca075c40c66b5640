//! What tells members apart for a limit, as a sample of leaves shows it: their means, the codes of their rows alone, or nothing.
//! Of an index without means the full words of the members stand in for them. A wrong guess costs time, and never changes what is found.
ghost use Rattle.std.specs.Prelude.{◌<◌, length};
ghost use Rattle.search_task.specs.Questions.{leaf_series};

use crate::tuning::{SAMPLE_LEAVES, SAMPLE_MEMBERS, SHARE_BY_LEAVES, SHARE_OF, SHARE_TO_SWEEP};
use row_codes::CodeLimit;
use search_task::Search;
use series_core::Rows;

/// What tells the members apart that are farther than a limit.
#[derive(Clone, Copy, Debug, PartialEq, Eq)]
pub enum ApartBy {
    /// Their means tell it of half of them at least, and codes of most others.
    Means,
    /// Their means tell it of fewer than half of them, but codes of most.
    Codes,
    /// Neither tells it of most.
    Nothing,
}

// How many members were tried, how many of them their means leave near, and how many of these their codes too.
#[derive(Clone, Copy)]
struct Sample {
    members: u64,
    near: u64,
    left: u64,
}

/// What tells members apart for a limit.
pub(crate) fn what_tells<R: Rows>(search: &Search<'_, R>, limit: u64) -> ApartBy {
    let sample = sample_of(search, limit, SAMPLE_MEMBERS);
    let little = most_are_near(sample);
    let share = if little {
        SHARE_TO_SWEEP
    } else {
        SHARE_BY_LEAVES
    };
    if sample.left.saturating_mul(SHARE_OF) > sample.members.saturating_mul(share) {
        return ApartBy::Nothing;
    }
    if little {
        ApartBy::Codes
    } else {
        ApartBy::Means
    }
}

/// Whether means leave more than half of the members near, by one member of each leaf of the sample.
pub(crate) fn means_tell_little<R: Rows>(search: &Search<'_, R>, limit: u64) -> bool {
    most_are_near(sample_of(search, limit, 1))
}

// Tries the first members of the leaves of the sample, at most so many of each leaf.
fn sample_of<R: Rows>(search: &Search<'_, R>, limit: u64, each: usize) -> Sample {
    let index = search.index();
    let leaves = index.leaf_count();
    let most = CodeLimit::new(limit);
    let step = leaves / SAMPLE_LEAVES + 1;
    let mut sample = Sample {
        members: 0,
        near: 0,
        left: 0,
    };
    for i in 0..SAMPLE_LEAVES {
        let leaf = i * step;
        if leaf >= leaves {
            break;
        }
        for place in 0..each.min(search.leaf_size(leaf)) {
            sample = with_member(search, sample, leaf, place, &most);
        }
    }
    sample
}

// The sample with one more member, that at a place of a leaf. Of a member without means its own full word tells.
fn with_member<R: Rows>(
    search: &Search<'_, R>,
    sample: Sample,
    leaf: u32,
    place: usize,
    limit: &CodeLimit,
) -> Sample
    requires leaf { leaf < length search.now.index.leaves }
    requires place { place < length (leaf_series search.now.index leaf) }
{
    let index = search.index();
    let near = match index.leaf_means(leaf).get(place) {
        Some(means) => search.task().means().bound(means) <= limit.limit(),
        None => {
            let member = &index.leaf_members(leaf)[place];
            search.view().bound_full(&member.full) <= limit.limit()
        }
    };
    let left = near && search.codes_may_be_within(leaf, place, limit);
    Sample {
        members: sample.members.wrapping_add(1),
        near: sample.near.wrapping_add(u64::from(near)),
        left: sample.left.wrapping_add(u64::from(left)),
    }
}

// Whether means leave more than half of a sample near.
fn most_are_near(sample: Sample) -> bool {
    sample.near.saturating_mul(2) > sample.members
}
