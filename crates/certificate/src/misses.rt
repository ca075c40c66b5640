//! The test that no series is missed: each is compared only up to the last distance.
//! All blocks are tested at some series before the next ones are read; only where one is missed is it looked for block by block.

ghost use Rattle.std.specs.Prelude.{◌≡◌, ◌≤◌, ◌<◌, false, length};
ghost use Rattle.series_core.specs.Answer.{distance_or_none};
ghost use Rattle.series_core.specs.declared.rows.TheConstants.{MAX_LENGTH};
ghost use Rattle.certificate.specs.Refusals.{refusal_of};
ghost use Rattle.certificate.specs.Missing.{MissNone, MissNoneOf, MissesNoneOf};
ghost use Rattle.certificate.specs.Verdict.{misses_refusal, is_missed, is_before_last, is_among};

use crate::block::Block;
use crate::checking::last_answer;
use crate::error::Reject;
use crate::tuning::SERIES_OF_GROUP;
use series_core::{NONE, Pair, Rows, values_fit};
use simd_distance::distance_within;

/// Whether some block misses a series, by one walk over the series. Where none does, no test of a block for missed series
/// fails. There is one block a query.
pub fn is_any_missed<R: Rows, Q: Rows>(rows: &R, queries: &Q, k: u32, blocks: &[Block]) -> bool
    requires rank { 0 < k }
    requires query_length { (Q.collection queries.now).points ≡ (R.collection rows.now).points }
    requires one_each { length blocks.now ≡ length (Q.collection queries.now).series }
    ensures { result ≡ false → MissNone (R.collection rows.now) (Q.collection queries.now) k blocks.now }
{
    let count = rows.count();
    for group in 0..count.div_ceil(SERIES_OF_GROUP) {
        let first = group * SERIES_OF_GROUP;
        let end = first + SERIES_OF_GROUP.min(count - first);
        if is_group_missed(rows, queries, k, blocks, first, end) {
            return true;
        }
    }
    false
}

// Whether some block misses one of the series from `first` up to `end`.
fn is_group_missed<R: Rows, Q: Rows>(
    rows: &R,
    queries: &Q,
    k: u32,
    blocks: &[Block],
    first: u32,
    end: u32,
) -> bool
    requires rank { 0 < k }
    requires query_length { (Q.collection queries.now).points ≡ (R.collection rows.now).points }
    requires one_each { length blocks.now ≡ length (Q.collection queries.now).series }
    requires order { first ≤ end }
    requires within { end ≤ length (R.collection rows.now).series }
    ensures { result ≡ false → MissNoneOf (R.collection rows.now) (Q.collection queries.now) k first end blocks.now }
{
    // for the fact that the queries are as many as a number of 32 bits can tell, and have one length
    let _count = queries.count();
    for (b, block) in blocks.iter().enumerate() {
        let last = last_answer(rows, k, block.pairs());
        if misses_one_of(rows, queries.row(b as u32), last, block.pairs(), first, end) {
            return true;
        }
    }
    false
}

// Whether one of the series from `first` up to `end` has a pair smaller than the last answer and is not among the answers.
fn misses_one_of<R: Rows>(
    rows: &R,
    query: &[i16],
    last: Option<Pair>,
    answers: &[Pair],
    first: u32,
    end: u32,
) -> bool
    requires query_length { length query.now ≡ (R.collection rows.now).points }
    requires order { first ≤ end }
    requires within { end ≤ length (R.collection rows.now).series }
    ensures { result ≡ false → MissesNoneOf (R.collection rows.now) query.now last answers.now first end }
{
    // for the fact that the rows have one length
    let _length = rows.length();
    for number in first..end {
        if is_missed(query, last, answers, number, rows.row(number)) {
            return true;
        }
    }
    false
}

/// Tests that each series whose pair is smaller than the last answer is among the answers.
pub fn check_misses<R: Rows>(
    rows: &R,
    b: u32,
    query: &[i16],
    last: Option<Pair>,
    answers: &[Pair],
) -> Result<(), Reject>
    requires { length query.now ≡ (R.collection rows.now).points }
    ensures { refusal_of result ≡ misses_refusal (R.collection rows.now) b query.now last answers.now }
{
    for number in 0..rows.count() {
        if is_missed(query, last, answers, number, rows.row(number)) {
            return Err(Reject::Missed(b, number));
        }
    }
    Ok(())
}

// Whether the pair of a series is smaller than the last answer and the series is not among the answers.
// Most series are given up early: what is farther than the last answer is not smaller.
fn is_missed(query: &[i16], last: Option<Pair>, answers: &[Pair], number: u32, row: &[i16]) -> bool
    requires same_length { length row.now ≡ length query.now }
    requires short { length row.now ≤ MAX_LENGTH }
    ensures { result ≡ is_missed query.now last answers.now number row.now }
{
    values_fit(row);
    values_fit(query);
    match distance_within(row, query, last_distance(last)) {
        None => false,
        Some(distance) => {
            is_before_last(last, Pair { distance, number }) && !is_among(answers, number)
        }
    }
}

/// The distance of the last answer, or `NONE` where there is none.
pub fn last_distance(last: Option<Pair>) -> u64
    ensures { result ≡ distance_or_none last }
{
    match last {
        None => NONE,
        Some(last) => last.distance,
    }
}

// Whether a pair is smaller than the last answer; where there is none, each pair is.
fn is_before_last(last: Option<Pair>, pair: Pair) -> bool
    ensures { result ≡ is_before_last last pair }
{
    match last {
        None => true,
        Some(last) => pair.is_before(&last),
    }
}

// Whether the series with this number is among the answers.
fn is_among(answers: &[Pair], number: u32) -> bool
    ensures { result ≡ is_among answers.now number }
{
    answers.iter().any(|answer| answer.number == number)
}
