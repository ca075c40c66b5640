//! The answers to many queries, as many pairs for each as are wanted. Its one rule: all of them stand in memory before any place of the
//! caller's is written.
ghost use Rattle.std.specs.Prelude.{◌≡◌, ◌<◌, ◌≤◌, ◌*◌, ◌/◌, ◌++◌, None, Some, IfOk, OnOk, length};
ghost use Rattle.series_core.specs.Answer.{answer};
ghost use Rattle.window_rows.specs.Choice.{chosen_apart};
ghost use Rattle.isearch_c.specs.Asking.{AreWhole, CanAsk, CanChoose, CanWant, AreIndexed};
ghost use Rattle.isearch_c.specs.Faults.{count_fits, places_fit, queries_fit};
ghost use Rattle.isearch_c.specs.Found.{Hold, answers, filled, queries_in, wanted_of};

use isax_word::Layout;
use nearest_answer::one_worker_answer;
use outside::NoMemory;
use search_task::Task;
use series_core::{MAX_BEST, Pair, PairList, Rows};
use std::alloc::Global;
use subtree_build::Index;
use window_rows::{choose, enough_law};

/// What stands where there is no pair: the greatest numbers.
const NOTHING: Pair = Pair {
    distance: u64::MAX,
    number: u32::MAX,
};

/// How many pairs of a query are wanted, and how far apart their numbers are to lie, if they are to.
#[derive(Clone, Copy)]
pub struct Asked {
    /// How many pairs.
    pub k: u32,
    /// By how much their numbers are to differ at least.
    pub apart: Option<u32>,
}

/// Rows with an index that fits them, as one call searches them.
#[derive(Drop)]
pub struct IndexedRows<'a, R> {
    /// The rows.
    pub rows: &'a R,
    /// How they become words.
    pub layout: &'a Layout,
    /// Their index.
    pub index: &'a Index,
}

/// Whether so many may be wanted.
pub fn count_fits(k: u32) -> bool
    ensures { result ≡ count_fits k }
{
    1 <= k && k <= MAX_BEST
}

/// Whether so many values are queries of `length` values.
pub fn queries_fit(length: u32, values: usize) -> bool
    requires { 0 < length }
    ensures { result ≡ queries_fit length values }
{
    values / length as usize * length as usize == values
}

/// Whether there are k places for distances and for numbers for each query.
pub fn places_fit(queries: usize, k: u32, distances: usize, numbers: usize) -> bool
    ensures { result ≡ places_fit queries k distances numbers }
{
    let wanted = queries as u128 * u128::from(k);
    distances as u128 == wanted && numbers as u128 == wanted
}

impl<'a, R: Rows> IndexedRows<'a, R> {
    /// The k nearest rows to a query whose numbers lie so far apart. So many of the nearest are found as are always enough to choose from.
    fn nearest_apart(
        &self,
        alloc: Global,
        k: u32,
        apart: u32,
        query: &[i16],
    ) -> Result<PairList, NoMemory>
        requires indexed { AreIndexed R.collection self.now }
        requires query { length query.now ≡ (R.collection self.now.rows.now).points }
        requires k { 1 ≤ k }
        requires apart { CanChoose k apart }
        ensures { let c = R.collection self.now.rows.now in
            IfOk result (λ found. found ≡ chosen_apart apart (answer c query.now (length c.series)) k) }
    {
        enough_law();
        let wanted = (k - 1) * (2 * apart - 1) + 1;
        let task = Task::new(self.rows, query, wanted, self.layout);
        let found = one_worker_answer(alloc, &task, self.index)?;
        choose(alloc, &found.items, apart, k)
    }

    /// The k nearest rows to a query.
    fn nearest(&self, alloc: Global, k: u32, query: &[i16]) -> Result<PairList, NoMemory>
        requires indexed { AreIndexed R.collection self.now }
        requires query { length query.now ≡ (R.collection self.now.rows.now).points }
        requires k { CanWant k }
        ensures { IfOk result (λ found. found ≡ answer (R.collection self.now.rows.now) query.now k) }
    {
        let task = Task::new(self.rows, query, k, self.layout);
        one_worker_answer(alloc, &task, self.index)
    }

    /// What is wanted of one query.
    fn wanted(&self, alloc: Global, asked: Asked, query: &[i16]) -> Result<PairList, NoMemory>
        requires indexed { AreIndexed R.collection self.now }
        requires query { length query.now ≡ (R.collection self.now.rows.now).points }
        requires asked { CanAsk asked }
        ensures { IfOk result (λ pairs. pairs ≡ wanted_of asked (R.collection self.now.rows.now) query.now) }
    {
        match asked.apart {
            None => self.nearest(alloc, asked.k, query),
            Some(apart) => self.nearest_apart(alloc, asked.k, apart, query),
        }
    }

    /// What is wanted of each query, filled up to as many pairs as are wanted of each. The values are a whole number of queries.
    pub fn answers(
        &self,
        alloc: Global,
        asked: Asked,
        queries: &[i16],
    ) -> Result<Vec<Pair>, NoMemory>
        requires indexed { AreIndexed R.collection self.now }
        requires whole { AreWhole (R.collection self.now.rows.now).points queries.now }
        requires asked { CanAsk asked }
        ensures { let c = R.collection self.now.rows.now in
            IfOk result (λ pairs. pairs.items ≡ answers asked c (queries_in c.points queries.now)) }
    {
        let length = self.rows.length() as usize;
        let mut found = Vec::new(alloc);
        let mut rest = queries;
        for _ in 0..queries.len() / length {
            let (query, behind) = rest.split_at(length);
            let pairs = self.wanted(alloc, asked, query)?;
            put(&mut found, &pairs.items, asked.k)?;
            rest = behind;
        }
        Ok(found)
    }
}

/// Puts the pairs of a query behind those that were found, filled up.
pub fn put(found: &mut Vec<Pair>, pairs: &[Pair], k: u32) -> Result<(), NoMemory>
    requires { length pairs.now ≤ k }
    ensures { OnOk result (found.new.items ≡ found.old.items ++ filled k pairs.now) }
{
    found.extend_from_slice(pairs)?;
    for _ in pairs.len()..k as usize {
        found.push(NOTHING)?;
    }
    Ok(())
}

/// Writes distances and numbers of pairs, each at its place.
pub fn write(pairs: &[Pair], distances: &mut [u64], numbers: &mut [u32])
    requires distances { length distances.old ≡ length pairs.now }
    requires numbers { length numbers.old ≡ length pairs.now }
    ensures { Hold pairs.now distances.new numbers.new }
{
    for i in 0..pairs.len() {
        distances[i] = pairs[i].distance;
        numbers[i] = pairs[i].number;
    }
}
