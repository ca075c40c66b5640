//! The nearest other of one series: whether some other is nearer than a limit allows, and which is the nearest.
ghost use Rattle.std.specs.Prelude.{◌≡◌, ◌<◌, IfOk, IfSome, All, length, true, take};
ghost use Rattle.std.specs.List.{filter};
ghost use Rattle.std.specs.Option.{option_to_list};
ghost use Rattle.discord_query.specs.Discords.{farness_of, is_other, other, least_farness};
ghost use Rattle.discord_query.specs.Searches.{IsNear, IsReady};

use crate::recent::{Known, Recent};
use crate::tuning::{LEAVES_AROUND, RECENT_SERIES};
use best_word::Floor;
use isax_word::Layout;
use mean_bound::{MeanBox, MeanView, Means};
use nearest_answer::{Task, one_worker_answer};
use outside::NoMemory;
use series_core::{NONE, Pair, Rows};
use simd_distance::distance_within;
use std::alloc::Global;
use subtree_build::Index;

/// What all workers search: rows, their index, the leaf of each series, how many discords are wanted, and how many series a worker takes
/// at a time.
#[derive(Drop)]
pub(crate) struct DiscordSearch<'a, R> {
    pub rows: &'a R,
    pub index: &'a Index,
    pub layout: &'a Layout,
    pub homes: &'a [u32],
    pub k: u32,
    pub size: u32,
}

/// `NONE` less the distance of the k-th discord, or `NONE` where there are fewer: no limit falls below it.
impl<'a, R: Rows> Floor for DiscordSearch<'a, R> {
    ghost floor = { λ s. least_farness (R.collection s.rows.now) s.k };
}

/// The first of the pairs that is not of this series.
fn first_but(pairs: &[Pair], number: u32) -> Option<Pair>
    ensures { option_to_list result ≡ take 1 (filter (is_other number) pairs.now) }
{
    for pair in pairs {
        if pair.number != number {
            return Some(*pair);
        }
    }
    None
}

/// Whether the bound of the means at this place, if there are any, leaves a member within a radius.
fn is_within(view: &MeanView, means: &[Means], i: usize, radius: u64) -> bool {
    match means.get(i) {
        Some(means) => view.bound(means) <= radius,
        None => true,
    }
}

/// Whether the bound of a box, if there is one, leaves none of a leaf's members within a radius.
fn is_far(view: &MeanView, own: Option<&MeanBox>, radius: u64) -> bool {
    match own {
        Some(own) => view.bound_box(own) > radius,
        None => false,
    }
}

impl<'a, R: Rows> DiscordSearch<'a, R> {
    /// The nearest other of a series: of two as near, the one with the smaller number. None where there is no other.
    pub fn other(&self, alloc: Global, number: u32) -> Result<Option<Pair>, NoMemory>
        requires ready { IsReady R.collection self.now }
        requires number { number < length (R.collection self.now.rows.now).series }
        ensures { IfOk result (λ o. option_to_list o ≡ other (R.collection self.now.rows.now) number) }
    {
        let task = Task::new(self.rows, self.rows.row(number), 2, self.layout);
        let nearest = one_worker_answer(alloc, &task, self.index)?;
        Ok(first_but(nearest.items.as_slice(), number))
    }

    /// Whether a series may be given up: some other is nearer to it than `NONE` less the limit. Those that were near others last are
    /// tried first.
    pub fn is_given_up(&self, number: u32, limit: u64, recent: &mut Recent) -> bool
        requires ready { IsReady R.collection self.now }
        requires number { number < length (R.collection self.now.rows.now).series }
        ensures { result ≡ true → All (λ p. limit < p.distance) (farness_of (R.collection self.now.rows.now) number) }
    {
        let home = match self.homes.get(number as usize) {
            Some(home) if limit < NONE => *home,
            _ => return false,
        };
        let nearer = NONE - limit - 1;
        let view = self.view(number);
        for place in 0..RECENT_SERIES {
            let known = recent.at(place);
            if view.bound(&known.means) <= nearer && self.is_near(number, known.number, nearer) {
                recent.put_first(place, known);
                return true;
            }
        }
        let Some(other) = self.near_other(number, &view, home, nearer) else {
            return false;
        };
        recent.put_first(RECENT_SERIES - 1, self.known(other));
        true
    }

    /// A series with its means. Its row was just measured, so it is near at hand.
    fn known(&self, number: u32) -> Known
        requires ready { IsReady R.collection self.now }
    {
        if number >= self.rows.count() {
            return Known::none();
        }
        let means = Means::of(&self.layout.cuts, self.rows.row(number));
        Known { number, means }
    }

    /// Another series within a radius of this one, if one is found. It is sought from the series' own leaf outwards, since leaves that
    /// stand near one another have words that are alike.
    fn near_other(&self, number: u32, view: &MeanView, home: u32, radius: u64) -> Option<u32>
        requires ready { IsReady R.collection self.now }
        requires number { number < length (R.collection self.now.rows.now).series }
        ensures { IfSome result (λ t. IsNear (R.collection self.now.rows.now) number t radius) }
    {
        for step in 0..LEAVES_AROUND.min(self.index.leaf_count()) {
            if let Some(other) = self.near_in(number, view, home.wrapping_add(step), radius) {
                return Some(other);
            }
            if let Some(other) = self.near_in(number, view, home.wrapping_sub(step + 1), radius) {
                return Some(other);
            }
        }
        None
    }

    /// A series as bounds by means see it.
    fn view(&self, number: u32) -> MeanView
        requires ready { IsReady R.collection self.now }
        requires number { number < length (R.collection self.now.rows.now).series }
    {
        MeanView::new(&self.layout.cuts, self.rows.row(number))
    }

    /// Another series within a radius of this one among the members of a leaf, if there is a leaf of this number. A leaf whose box is
    /// too far has none.
    fn near_in(&self, number: u32, view: &MeanView, leaf: u32, radius: u64) -> Option<u32>
        requires ready { IsReady R.collection self.now }
        requires number { number < length (R.collection self.now.rows.now).series }
        ensures { IfSome result (λ t. IsNear (R.collection self.now.rows.now) number t radius) }
    {
        if leaf >= self.index.leaf_count() || is_far(view, self.index.leaf_box(leaf), radius) {
            return None;
        }
        let means = self.index.leaf_means(leaf);
        for (i, member) in self.index.leaf_members(leaf).iter().enumerate() {
            if is_within(view, means, i, radius) && self.is_near(number, member.number, radius) {
                return Some(member.number);
            }
        }
        None
    }

    /// Whether this is the number of another series, within a radius of this one.
    fn is_near(&self, number: u32, other: u32, radius: u64) -> bool
        requires ready { IsReady R.collection self.now }
        requires number { number < length (R.collection self.now.rows.now).series }
        ensures { result ≡ true → IsNear (R.collection self.now.rows.now) number other radius }
    {
        if other == number || other >= self.rows.count() {
            return false;
        }
        let row = self.rows.row(number);
        distance_within(self.rows.row(other), row, radius).is_some()
    }
}
