//! The search of several batches: each by its own index, and the nearest of all of them together.
ghost use Rattle.std.specs.Prelude.{◌≡◌, ◌+◌, ◌<◌, ◌≤◌, ◌^◌, ◌++◌, All, IfOk, length, map};
ghost use Rattle.series_core.specs.Answer.{answer};
ghost use Rattle.series_core.specs.Pairs.{smallest};
ghost use Rattle.live_collection.specs.Histories.{series_of};
ghost use Rattle.live_collection.specs.Numbers.{HasPoints, counted_from};

use crate::live::LiveReply;
use crate::part::PartList;
use outside::NoMemory;
use series_core::{KBest, MAX_BEST, MAX_COUNT, Pair, PairList, Rows};
use std::alloc::Global;

/// The k nearest of the series of all parts, numbers counted over all of them, and how many series there are.
pub(crate) fn search(
    alloc: Global,
    parts: &PartList,
    query: &[i16],
    k: u32,
) -> Result<LiveReply, NoMemory>
    requires points { All (HasPoints (length query.now)) parts.now }
    requires few { length (series_of parts.now) ≤ MAX_COUNT }
    requires some { 0 < k }
    requires limit { k ≤ MAX_BEST }
    ensures count { IfOk result (λ r. r.count ≡ length (series_of parts.now)) }
    ensures pairs { IfOk result (λ r.
        r.pairs ≡ answer (record { points = length query.now; series = series_of parts.now }) query.now k) }
{
    let mut best = KBest::new(alloc, k)?;
    let mut count = 0;
    for part in parts.iter() {
        let batch = part.batch();
        let found = batch.nearest(alloc, query, k)?;
        add_counted(&mut best, &found.items, count);
        count += batch.series.count();
    }
    let items = best.pairs().to_vec(alloc)?;
    Ok(LiveReply {
        count,
        pairs: PairList { items },
    })
}

// Adds each pair to the best, its number counted from this one on.
fn add_counted(best: &mut KBest, found: &[Pair], first: u32)
    requires { All (λ p. first + p.number < 2 ^ 32) found.now }
    ensures k { best.new.k ≡ best.old.k }
    ensures pairs { best.new.pairs ≡ smallest best.old.k (map (counted_from first) found.now ++ best.old.pairs) }
{
    // for the fact that the pairs that are held are the best of themselves
    let _held = best.pairs();
    for pair in found {
        best.add(Pair {
            distance: pair.distance,
            number: first + pair.number,
        });
    }
}
