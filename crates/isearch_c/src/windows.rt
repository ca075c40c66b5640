//! The windows of one long series that are nearest and lie apart, with an index that lasts as long as the call. Its one rule: no window is
//! copied.
ghost use Rattle.std.specs.Prelude.{◌≡◌, ◌≢◌, ◌*◌, ◌/◌, true, IfOk, length, pos};
ghost use Rattle.window_rows.specs.Windows.{collection_of};
ghost use Rattle.isearch_c.specs.Faults.{choice_fits, settings_fit, windows_fault, windows_fit};
ghost use Rattle.isearch_c.specs.Asking.{AreWhole, CanAsk};
ghost use Rattle.isearch_c.specs.Found.{Hold, all_apart, answers, queries_in};
ghost use Rattle.isearch_c.specs.Statuses.{EndsBy};

use crate::answers::{Asked, IndexedRows, places_fit, queries_fit, write};
use crate::settings::IsearchSettings;
use crate::status::Status;
use outside::NoMemory;
use search_limits::MOST_APART;
use series_core::{MAX_BEST, MAX_COUNT, MAX_LENGTH, Pair};
use std::alloc::Global;
use subtree_build::build_alone;
use window_rows::Windows;

/// Whether windows of `length` values may be taken of a series of so many values; there may be none.
fn windows_fit(length: u32, values: usize) -> bool
    ensures { result ≡ windows_fit length values }
{
    0 < length && length <= MAX_LENGTH && values <= MAX_COUNT as usize
}

/// Whether so many windows may be wanted that lie so far apart.
fn choice_fits(k: u32, apart: u32) -> bool
    ensures { result ≡ choice_fits k apart }
{
    1 <= k
        && k <= MAX_BEST
        && 1 <= apart
        && apart <= MOST_APART
        && (k - 1) * (2 * apart - 1) + 1 <= MAX_BEST
}

/// For each query, as long as a window, the k windows of a series that are nearest and begin at least `apart` values from one another: squared
/// distances and the places where they begin, and the greatest numbers where there are fewer. The windows are not copied.
/// 0: they are written. 3: the series has more than 16777216 values, or windows none or more than 65536. 4: the settings do not serve
/// windows. 5: the values are no whole number of queries. 6: k or `apart` is beyond its limits. 7: there are not k places for each query. 9:
/// memory ran out. But for 0 nothing is written.
#[unsafe(no_mangle)]
pub extern "C" fn isearch_windows(
    alloc: Global,
    series: &[i16],
    queries: &[i16],
    settings: &IsearchSettings,
    k: u32,
    apart: u32,
    distances: &mut [u64],
    numbers: &mut [u32],
) -> i32
    ensures ends { let fault = windows_fault settings.now (length series.now) (length queries.now) k apart in
        EndsBy (fault (length distances.old) (length numbers.old)) result }
    ensures answers { result ≡ pos 0 → let c = collection_of series.now settings.now.length 1 in
        Hold (all_apart k apart c queries.now) distances.new numbers.new }
    ensures kept { result ≢ pos 0 → (distances.new ≡ distances.old) × (numbers.new ≡ numbers.old) }
{
    let length = settings.length;
    if !windows_fit(length, series.len()) {
        return Status::WrongRows.code();
    }
    if !settings.fit() {
        return Status::WrongSettings.code();
    }
    if !queries_fit(length, queries.len()) {
        return Status::WrongQueries.code();
    }
    if !choice_fits(k, apart) {
        return Status::WrongCount.code();
    }
    let count = queries.len() / length as usize;
    if !places_fit(count, k, distances.len(), numbers.len()) {
        return Status::WrongPlaces.code();
    }
    let asked = Asked {
        k,
        apart: Some(apart),
    };
    let Ok(pairs) = found(alloc, series, queries, settings, asked) else {
        return Status::NoMemory.code();
    };
    write(&pairs, distances, numbers);
    Status::Done.code()
}

/// What is wanted of each query, over an index of the windows that is built for it.
fn found(
    alloc: Global,
    series: &[i16],
    queries: &[i16],
    settings: &IsearchSettings,
    asked: Asked,
) -> Result<Vec<Pair>, NoMemory>
    requires windows { windows_fit settings.now.length (length series.now) ≡ true }
    requires settings { settings_fit settings.now ≡ true }
    requires whole { AreWhole settings.now.length queries.now }
    requires asked { CanAsk asked }
    ensures { let c = collection_of series.now settings.now.length 1 in
        IfOk result (λ pairs. pairs.items ≡ answers asked c (queries_in c.points queries.now)) }
{
    let rows = Windows::new(series, settings.length, 1);
    let settings = settings.settings();
    let index = build_alone(alloc, &rows, &settings)?;
    let indexed = IndexedRows {
        rows: &rows,
        layout: &settings.layout,
        index: &index,
    };
    indexed.answers(alloc, asked, queries)
}
