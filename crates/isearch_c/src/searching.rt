//! Searching the index of a handle. Its one rule: the index is taken out of the handle for the search, and put back whatever came of it.
ghost use Rattle.std.specs.Prelude.{◌≡◌, ◌≢◌, ◌⊎◌, IfErr, IfOk, length, pos};
ghost use Rattle.series_core.specs.Answer.{within};
ghost use Rattle.isearch_c.specs.Faults.{EndsWithin, first_fault, has_room, nearest_fault, nearest_tests, query_fault, within_fault};
ghost use Rattle.isearch_c.specs.Found.{Hold, HoldFirst, all_nearest};
ghost use Rattle.isearch_c.specs.Kept.{near_in, searched};
ghost use Rattle.isearch_c.specs.Statuses.{EndsBy, code, ended};

use crate::answers::{IndexedRows, count_fits, places_fit, queries_fit, write};
use crate::held::Searchable;
use crate::slot::IsearchIndex;
use crate::status::Status;
use outside::NoMemory;
use range_query::within_alone;
use series_core::{Pair, Rows};
use std::alloc::Global;

/// The k nearest rows to each query, with their squared distances: nearer ones first, of two as near the one with the smaller number, and
/// the greatest numbers where there are fewer than k rows.
/// 0: they are written. 1: there is no index. 5: the values are no whole number of queries. 6: k is 0 or above 1024. 7: there are not k
/// places for each query. 9: memory ran out. But for 0 nothing is written.
#[unsafe(no_mangle)]
pub extern "C" fn isearch_nearest(
    index: &mut IsearchIndex,
    alloc: Global,
    queries: &[i16],
    k: u32,
    distances: &mut [u64],
    numbers: &mut [u32],
) -> i32
    ensures ends { let held = index.old.handle.held in
        EndsBy (nearest_fault held (length queries.now) k (length distances.old) (length numbers.old)) result }
    ensures same { index.new.handle.held ≡ index.old.handle.held }
    ensures answers { result ≡ pos 0 →
        Hold (all_nearest k (searched index.old.handle.held) queries.now) distances.new numbers.new }
    ensures kept { result ≢ pos 0 → (distances.new ≡ distances.old) × (numbers.new ≡ numbers.old) }
{
    let Some(held) = index.take(alloc) else {
        return Status::NoIndex.code();
    };
    let places = (distances.len(), numbers.len());
    let found = nearest(&held.searchable, alloc, queries, k, places);
    *index = IsearchIndex::of(held);
    match found {
        Ok(pairs) => {
            write(&pairs, distances, numbers);
            Status::Done.code()
        }
        Err(status) => status.code(),
    }
}

/// All rows whose squared distance to a query is at most the radius: nearer ones first, of two as near the one with the smaller number, and
/// how many there are.
/// 0: they stand at the first places. 1: there is no index. 5: the query is not as long as a row. 7: there are fewer places than rows, whose
/// number is told, and nothing else is written. 9: memory ran out. But for 0 and 7 nothing is written.
#[unsafe(no_mangle)]
pub extern "C" fn isearch_within(
    index: &mut IsearchIndex,
    alloc: Global,
    query: &[i16],
    radius: u64,
    distances: &mut [u64],
    numbers: &mut [u32],
    found: &mut usize,
) -> i32
    ensures ends { let held = index.old.handle.held in
        EndsWithin (within_fault held (length query.now)) (near_in held query.now radius) distances.old numbers.old result }
    ensures same { index.new.handle.held ≡ index.old.handle.held }
    ensures all { result ≡ pos 0 →
        HoldFirst (near_in index.old.handle.held query.now radius) distances.old distances.new numbers.old numbers.new }
    ensures kept { result ≢ pos 0 → (distances.new ≡ distances.old) × (numbers.new ≡ numbers.old) }
    ensures told { (result ≡ pos 0) ⊎ (result ≡ pos 7) → found.new ≡ length (near_in index.old.handle.held query.now radius) }
    ensures untold { result ≢ pos 0 → result ≢ pos 7 → found.new ≡ found.old }
{
    let Some(held) = index.take(alloc) else {
        return Status::NoIndex.code();
    };
    let found_near = near_in(&held.searchable, alloc, query, radius);
    *index = IsearchIndex::of(held);
    let near = match found_near {
        Ok(near) => near,
        Err(status) => return status.code(),
    };
    *found = near.len();
    if !has_room(near.len(), distances.len(), numbers.len()) {
        return Status::WrongPlaces.code();
    }
    write(
        &near,
        &mut distances[..near.len()],
        &mut numbers[..near.len()],
    );
    Status::Done.code()
}

/// Whether there are places for so many pairs.
fn has_room(pairs: usize, distances: usize, numbers: usize) -> bool
    ensures { result ≡ has_room pairs distances numbers }
{
    pairs <= distances && pairs <= numbers
}

/// All rows of a collection within a radius of a query, or why it cannot be asked.
fn near_in(
    searchable: &Searchable,
    alloc: Global,
    query: &[i16],
    radius: u64,
) -> Result<Vec<Pair>, Status>
    ensures ends { EndsBy (query_fault searchable.now.rows.points (length query.now)) (ended result) }
    ensures found { IfOk result (λ near. near.items ≡ within searchable.now.rows query.now radius) }
    ensures failed { IfErr result (λ s. code s ≢ pos 0 × (code s ≢ pos 7)) }
{
    if query.len() != searchable.rows.length() as usize {
        return Err(Status::WrongQueries);
    }
    let layout = &searchable.settings.layout;
    let (rows, index) = (&searchable.rows, &searchable.index);
    match within_alone(alloc, rows, index, layout, query, radius) {
        Ok(near) => Ok(near),
        Err(NoMemory) => Err(Status::NoMemory),
    }
}

/// The k nearest rows of a collection for each query, filled up to k, or why they cannot be asked for or written: there are to be so many
/// places for their distances and for their numbers.
fn nearest(
    searchable: &Searchable,
    alloc: Global,
    queries: &[i16],
    k: u32,
    places: (usize, usize),
) -> Result<Vec<Pair>, Status>
    ensures ends { let tests = nearest_tests searchable.now.rows.points (length queries.now) k in
        EndsBy (first_fault (tests places.0 places.1)) (ended result) }
    ensures found { IfOk result (λ pairs. pairs.items ≡ all_nearest k searchable.now.rows queries.now) }
    ensures places { IfOk result (λ pairs. (places.0 ≡ length pairs.items) × (places.1 ≡ length pairs.items)) }
    ensures failed { IfErr result (λ s. code s ≢ pos 0) }
{
    // for the fact that the rows are a collection
    let length = searchable.rows.length();
    if !queries_fit(length, queries.len()) {
        return Err(Status::WrongQueries);
    }
    if !count_fits(k) {
        return Err(Status::WrongCount);
    }
    let count = queries.len() / length as usize;
    if !places_fit(count, k, places.0, places.1) {
        return Err(Status::WrongPlaces);
    }
    let indexed = IndexedRows {
        rows: &searchable.rows,
        layout: &searchable.settings.layout,
        index: &searchable.index,
    };
    match indexed.nearest_to_all(alloc, k, queries) {
        Ok(pairs) => Ok(pairs),
        Err(NoMemory) => Err(Status::NoMemory),
    }
}
