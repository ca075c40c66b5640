//! Measuring a series into a list: its pair is added where its distance is above neither the limit nor the k-th pair.
ghost use Rattle.std.specs.Prelude.{◌≡◌, ◌-◌, ◌<◌, min, length};
ghost use Rattle.series_core.specs.Best.{IsBest};
ghost use Rattle.series_core.specs.Order.{distance_at};
ghost use Rattle.search_task.specs.Scanning.{IsScannedOne, MayAdd};

use crate::task::Task;
use series_core::{KBest, NONE, Pair, Rows, far};
use simd_distance::distance_within;

impl<'a, R: Rows> Task<'a, R> {
    /// Adds the pair of a series where its distance is above neither the limit nor the k-th pair, which is where it is at most
    /// `most`, and tells what is then the most.
    pub fn measure(&self, number: u32, limit: u64, most: u64, list: &mut KBest) -> u64
        requires series { number < length self.now.collection.series }
        requires list { MayAdd self.now limit list.old most }
        ensures list { MayAdd self.now limit list.new result }
        ensures pairs { IsScannedOne self.now limit number list.old.pairs list.new.pairs }
    {
        // for the fact that the task is a question
        let _k = self.k();
        let row = self.rows.row(number);
        let Some(distance) = distance_within(row, self.query, most) else {
            return most;
        };
        list.add(Pair { distance, number });
        most_to_add(limit, list)
    }
}

/// The most that the distance of a pair may be that is added: the limit or the distance of the k-th pair.
pub fn most_to_add(limit: u64, list: &KBest) -> u64
    ensures most { result ≡ min limit (distance_at (list.now.k - 1) list.now.pairs) }
    ensures sound { IsBest list.now }
{
    // for the fact that the list is one: in order, and no longer than its limit
    let _held = list.pairs();
    far(limit).min(distance_of_worst(list))
}

/// The distance of the k-th pair, or `NONE` where fewer are held.
pub fn distance_of_worst(list: &KBest) -> u64
    ensures { result ≡ distance_at (list.now.k - 1) list.now.pairs }
{
    match list.worst() {
        Some(pair) => pair.distance,
        None => NONE,
    }
}
