//! The means of members and the codes of their rows, in the order of the members. Workers make them side by side, each for a
//! stretch of members, and a row is fetched once for both: rows lie in another order, and building waits for them most.
ghost use Rattle.std.specs.Prelude.{◌≡◌, ◌*◌, ◌≤◌, length};
ghost use Rattle.std.specs.Thread.{IsSync};
ghost use Rattle.row_codes.specs.Rows.{block_count};
ghost use Rattle.subtree_build.specs.Means.{AreFilled, HavePlaces, all_values, coded_points};

use crate::fetched::{FETCHED, fetch};
use isax_word::{Layout, Member};
use mean_bound::Means;
use row_codes::{CodeBlock, block_count, code_row};
use series_core::{MAX_LENGTH, MAX_VALUES, Rows};
use std::thread::{Threads, join_mut};

/// What means and codes are made of: rows, how means cut them, and how many of the values of each are coded.
#[derive(Clone, Copy)]
pub(crate) struct Source<'a, R> {
    rows: &'a R,
    layout: &'a Layout,
    pub(crate) coded: u32,
}

impl<'a, R: Rows> Source<'a, R> {
    /// These rows, cut by this layout.
    pub(crate) fn of(rows: &'a R, layout: &'a Layout) -> Source<'a, R>
        ensures value { result ≡ record { rows = rows.entry; layout = layout.entry; coded = coded_points (R.collection rows.now) } }
        ensures limit { result.coded ≤ (R.collection rows.now).points }
        ensures short { result.coded ≤ MAX_LENGTH }
    {
        Source {
            rows,
            layout,
            coded: coded_length(rows),
        }
    }
}

/// Puts the means and the codes of members at their places, by so many workers, each for a stretch of members. This thread starts all others,
/// one after another: none waits until another was started.
#[cycle(stretches)]
pub(crate) fn fill<H: Threads + Sync, R: Rows + Sync>(
    rt: &H,
    source: &Source<'_, R>,
    members: &[Member],
    workers: u32,
    means: &mut [Means],
    codes: &mut [CodeBlock],
)
    requires { HavePlaces (R.collection source.now.rows.now) source.now.layout.now source.now.coded members.now
        means.old codes.old }
    ensures { AreFilled (R.collection source.now.rows.now) source.now.layout.now members.now means.new codes.new }
{
    if workers < 2 {
        let mut block = [0; FETCHED];
        fill_in_turn(source, members, &mut block, means, codes);
        return;
    }
    let rest = workers - 1;
    let mid = members.len() / workers as usize;
    let (low, high) = members.split_at(mid);
    let (low_means, high_means) = means.split_at_mut(mid);
    let (low_codes, high_codes) = codes.split_at_mut(mid * block_count(source.coded) as usize);
    let mut front = ||
        requires { IsSync R.row × HavePlaces (R.collection source.now.rows.now) source.now.layout.now
            source.now.coded low.now low_means.now low_codes.now }
        ensures { AreFilled (R.collection source.entry.now.rows.now) source.entry.now.layout.now
            low.entry.now low_means.exit.now low_codes.exit.now }
    {
        let mut block = [0; FETCHED];
        fill_in_turn(source, low, &mut block, low_means, low_codes);
    };
    let mut back = ||
        requires { IsSync H.row × IsSync R.row × HavePlaces (R.collection source.now.rows.now) source.now.layout.now
            source.now.coded high.now high_means.now high_codes.now }
        ensures { AreFilled (R.collection source.entry.now.rows.now) source.entry.now.layout.now
            high.entry.now high_means.exit.now high_codes.exit.now }
    { fill(rt, source, high, rest, high_means, high_codes) };
    join_mut(rt, &mut front, &mut back);
}

/// Puts the means and the codes of members at their places, by halves until the rows of the members fit a block: what is
/// fetched together is waited for once. The block is lent for that, so that it is cleared once and not for each fetch.
pub(crate) fn fill_in_turn<R: Rows>(
    source: &Source<'_, R>,
    members: &[Member],
    block: &mut [i16; FETCHED],
    means: &mut [Means],
    codes: &mut [CodeBlock],
)
    requires { HavePlaces (R.collection source.now.rows.now) source.now.layout.now source.now.coded members.now
        means.old codes.old }
    ensures { AreFilled (R.collection source.now.rows.now) source.now.layout.now members.now means.new codes.new }
{
    match members {
        [] => {}
        [member] => fill_from(
            source,
            source.rows.row(member.number),
            members,
            means,
            codes,
        ),
        _ => {
            let values = members.len() * source.rows.length() as usize;
            if values <= FETCHED {
                fetch(source.rows, members, &mut block[..values]);
                fill_from(source, &block[..values], members, means, codes);
                return;
            }
            let mid = members.len() / 2;
            let (low, high) = members.split_at(mid);
            let (low_means, high_means) = means.split_at_mut(mid);
            let (low_codes, high_codes) = codes.split_at_mut(
                mid * block_count(source.coded) as usize,
            );
            fill_in_turn(source, low, block, low_means, low_codes);
            fill_in_turn(source, high, block, high_means, high_codes);
        }
    }
}

/// Puts the means and the codes of members, whose rows' values lie one after another, at their places.
fn fill_from<R: Rows>(
    source: &Source<'_, R>,
    values: &[i16],
    members: &[Member],
    means: &mut [Means],
    codes: &mut [CodeBlock],
)
    requires places { HavePlaces (R.collection source.now.rows.now) source.now.layout.now source.now.coded members.now
        means.old codes.old }
    requires values { values.now ≡ all_values (R.collection source.now.rows.now) members.now }
    ensures { AreFilled (R.collection source.now.rows.now) source.now.layout.now members.now means.new codes.new }
{
    let length = source.rows.length() as usize;
    let coded = source.coded as usize;
    let blocks = block_count(source.coded) as usize;
    for i in 0..members.len() {
        let row = &values[i * length..i * length + length];
        means[i] = Means::of(&source.layout.cuts, row);
        code_row(&row[..coded], &mut codes[i * blocks..i * blocks + blocks]);
    }
}

/// How many values of each row are coded, the first ones: those of whole blocks of 256 values, and those behind them where they fill seven
/// eighths of one block more, so that codes take less than a third of what values do. None are where rows have more values than a file
/// may hold: such rows are windows that overlap, and their codes would take more than what they lie in.
pub fn coded_length<R: Rows>(rows: &R) -> u32
    ensures value { result ≡ coded_points (R.collection rows.now) }
    ensures limit { result ≤ (R.collection rows.now).points }
    ensures short { result ≤ MAX_LENGTH }
{
    let length = rows.length();
    let values = u64::from(rows.count()) * u64::from(length);
    if values > u64::from(MAX_VALUES) {
        0
    } else {
        length.min(256 * ((length + 32) / 256))
    }
}
