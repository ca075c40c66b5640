//! The walk over one root child: it is cut where its bound is above the radius, and so is each leaf below it, by the box of its
//! means; the members of the leaves that remain are tested by the bounds of their means and then by their distances. Where an index has
//! no means, a leaf is cut by the bound of its word, and its members are tested by their distances alone.
ghost use Rattle.std.specs.Prelude.{◌≡◌, ◌<◌, ◌≤◌, ◌++◌, [], IsSome, OnOk, length, true};
ghost use Rattle.std.specs.Option.{option_to_list};
ghost use Rattle.lower_bound.specs.Bound.{view_of};
ghost use Rattle.mean_bound.specs.MeanBound.{mean_view_of};
ghost use Rattle.subtree_build.specs.Fits.{Fits};
ghost use Rattle.subtree_build.specs.Means.{means_of};
ghost use Rattle.range_query.specs.Searches.{IsReady, asked_of};
ghost use Rattle.range_query.specs.Near.{IsAsked, ask, near_series, near_leaf, near_root};

use crate::tuning::{GROUPS_A_SHARE, MOST_ROOTS_A_GROUP};
use isax_word::Member;
use lower_bound::QueryView;
use mean_bound::{MeanView, Means};
use outside::NoMemory;
use search_limits::MOST_WORKERS;
use series_core::{Pair, Rows, values_fit};
use simd_distance::distance_within;
use subtree_build::Index;

/// One query over one index: all pairs with a distance of at most the radius are sought, by workers that take `size` root
/// children at a time.
#[derive(Drop)]
pub(crate) struct RadiusSearch<'a, R> {
    pub rows: &'a R,
    pub index: &'a Index,
    pub view: &'a QueryView,
    pub means: &'a MeanView,
    pub query: &'a [i16],
    pub radius: u64,
    pub size: u32,
}

/// Puts a pair, where there is one, behind those that were found.
fn keep(found: &mut Vec<Pair>, pair: Option<Pair>) -> Result<(), NoMemory>
    ensures { OnOk result (found.new.items ≡ found.old.items ++ option_to_list pair) }
{
    match pair {
        Some(pair) => Ok(found.push(pair)?),
        None => Ok(()),
    }
}

/// How many root children a worker takes at a time: a part of its share, but no more than `MOST_ROOTS_A_GROUP`.
fn group_size(roots: u32, workers: u32) -> u32
    requires { (1 ≤ workers) × (workers ≤ MOST_WORKERS) }
    ensures { (1 ≤ result) × (result ≤ MOST_ROOTS_A_GROUP) }
{
    (roots / (GROUPS_A_SHARE * workers)).clamp(1, MOST_ROOTS_A_GROUP)
}

/// The law that an index that fits under the layout of a query's view is all that a search rests on.
fn search_law<R: Rows>(rows: &R, index: &Index, view: &QueryView, query: &[i16], radius: u64)
    requires fits { Fits (R.collection rows.now) view.now.layout index.now }
    requires length { (R.collection rows.now).points ≡ view.now.layout.cuts.row_length }
    requires query { length query.now ≡ view.now.layout.cuts.row_length }
    requires view { view.now ≡ view_of view.now.layout query.now }
    ensures { IsAsked (ask (R.collection rows.now) query.now radius) index.now view.now }
{
    let _count = rows.count();
    let _roots = index.root_count();
    let _segments = view.segments();
    values_fit(query);
}

impl<'a, R: Rows> RadiusSearch<'a, R> {
    /// The search for all pairs within a radius of a query that is seen so, by so many workers.
    pub fn new(
        rows: &'a R,
        index: &'a Index,
        view: &'a QueryView,
        means: &'a MeanView,
        query: &'a [i16],
        radius: u64,
        workers: u32,
    ) -> RadiusSearch<'a, R>
        requires fits { Fits (R.collection rows.now) view.now.layout index.now }
        requires length { (R.collection rows.now).points ≡ view.now.layout.cuts.row_length }
        requires query { length query.now ≡ view.now.layout.cuts.row_length }
        requires view { view.now ≡ view_of view.now.layout query.now }
        requires means { means.now ≡ mean_view_of view.now.layout.cuts query.now }
        requires workers { (1 ≤ workers) × (workers ≤ MOST_WORKERS) }
        ensures ready { IsReady R.collection result }
        ensures asked { asked_of R.collection result ≡ ask (R.collection rows.now) query.now radius }
        ensures size { (1 ≤ result.size) × (result.size ≤ MOST_ROOTS_A_GROUP) }
    {
        search_law(rows, index, view, query, radius);
        RadiusSearch {
            rows,
            index,
            view,
            means,
            query,
            radius,
            size: group_size(index.root_count(), workers),
        }
    }

    /// The pair of a member with these means, where it is within the radius.
    fn near(&self, member: &Member, means: &Means) -> Option<Pair>
        requires ready { IsReady R.collection self.now }
        requires number { member.now.number < length (R.collection self.now.rows.now).series }
        requires means { means.now ≡ means_of (R.collection self.now.rows.now) self.now.view.now.layout member.now }
        ensures { option_to_list result ≡ near_series (asked_of R.collection self.now) member.now.number }
    {
        if self.means.bound(means) > self.radius {
            return None;
        }
        self.measured(member.number)
    }

    /// The pair of a series, where it is within the radius.
    fn measured(&self, number: u32) -> Option<Pair>
        requires ready { IsReady R.collection self.now }
        requires number { number < length (R.collection self.now.rows.now).series }
        ensures { option_to_list result ≡ near_series (asked_of R.collection self.now) number }
    {
        match distance_within(self.rows.row(number), self.query, self.radius) {
            Some(distance) => Some(Pair { distance, number }),
            None => None,
        }
    }

    /// Whether the bound of the box of a leaf's means, or without means that of its word, is above the radius; then none of its members
    /// is near.
    fn is_cut(&self, leaf: u32) -> bool
        requires ready { IsReady R.collection self.now }
        requires leaf { leaf < length self.now.index.now.leaves }
        ensures { result ≡ true → near_leaf (asked_of R.collection self.now) self.now.index.now.leaves leaf ≡ [] }
    {
        match self.index.leaf_box(leaf) {
            Some(own) => self.means.bound_box(own) > self.radius,
            None => {
                let word = self.index.leaf_word(leaf);
                // for the fact that it is a word
                let _segments = word.segments();
                self.view.bound_word(word) > self.radius
            }
        }
    }

    /// Puts the pairs of a leaf's members that are within the radius behind those that were found. There is none where the
    /// leaf is cut.
    fn scan(&self, leaf: u32, found: &mut Vec<Pair>) -> Result<(), NoMemory>
        requires ready { IsReady R.collection self.now }
        requires leaf { leaf < length self.now.index.now.leaves }
        ensures { let near = near_leaf (asked_of R.collection self.now) self.now.index.now.leaves leaf in
            OnOk result (found.new.items ≡ found.old.items ++ near) }
    {
        if self.is_cut(leaf) {
            return Ok(());
        }
        if self.index.has_means() {
            self.test_all(leaf, found)
        } else {
            self.measure_all(leaf, found)
        }
    }

    /// The same of a leaf that is not cut, whose members have means.
    fn test_all(&self, leaf: u32, found: &mut Vec<Pair>) -> Result<(), NoMemory>
        requires ready { IsReady R.collection self.now }
        requires leaf { leaf < length self.now.index.now.leaves }
        requires means { IsSome self.now.index.now.means }
        ensures { let near = near_leaf (asked_of R.collection self.now) self.now.index.now.leaves leaf in
            OnOk result (found.new.items ≡ found.old.items ++ near) }
    {
        let members = self.index.leaf_members(leaf);
        let means = self.index.leaf_means(leaf);
        for i in 0..members.len() {
            keep(found, self.near(&members[i], &means[i]))?;
        }
        Ok(())
    }

    /// The same of a leaf whose members have no means: each is measured.
    fn measure_all(&self, leaf: u32, found: &mut Vec<Pair>) -> Result<(), NoMemory>
        requires ready { IsReady R.collection self.now }
        requires leaf { leaf < length self.now.index.now.leaves }
        ensures { let near = near_leaf (asked_of R.collection self.now) self.now.index.now.leaves leaf in
            OnOk result (found.new.items ≡ found.old.items ++ near) }
    {
        let members = self.index.leaf_members(leaf);
        for i in 0..members.len() {
            let member = &members[i];
            keep(found, self.measured(member.number))?;
        }
        Ok(())
    }

    /// Puts the pairs below root child `i` that are within the radius behind those that were found. The bound of the root
    /// child comes first, by two look-ups; the leaves below it lie in a row.
    pub fn walk(&self, i: u32, found: &mut Vec<Pair>) -> Result<(), NoMemory>
        requires ready { IsReady R.collection self.now }
        requires root { i < length self.now.index.now.roots }
        ensures { let near = near_root (asked_of R.collection self.now) self.now.index.now i in
            OnOk result (found.new.items ≡ found.old.items ++ near) }
    {
        if self.index.root_bound(self.view, i) > self.radius {
            return Ok(());
        }
        let (first, end) = self.index.root_leaves(i);
        for leaf in first..end {
            self.scan(leaf, found)?;
        }
        Ok(())
    }
}
