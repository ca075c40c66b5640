//! The tests of the answers: as many as are wanted, each real, with the label of its series, and in order.

ghost use Rattle.std.specs.Prelude.{◌≡◌, ◌≤◌, ◌<◌, ◌+◌, length, IfSome};
ghost use Rattle.std.specs.Option.{option_copied};
ghost use Rattle.series_core.specs.declared.best.TheConstants.{MAX_BEST};
ghost use Rattle.certificate.specs.Refusals.{refusal_of};
ghost use Rattle.certificate.specs.Verdict.{wanted, is_real, is_label, is_above, is_right, answers_refusal};

use crate::block::Block;
use crate::error::Reject;
use series_core::{Pair, Rows};
use simd_distance::distance_within;

/// Tests the answers of block `b`; the least rank that is wrong is the error.
pub fn check_answers<R: Rows>(
    rows: &R,
    labels: Option<&[u64]>,
    k: u32,
    b: u32,
    query: &[i16],
    block: &Block,
) -> Result<(), Reject>
    requires limit { k ≤ MAX_BEST }
    requires same_length { length query.now ≡ (R.collection rows.now).points }
    requires labels { IfSome (option_copied labels) (λ ls. length ls ≡ length (R.collection rows.now).series) }
    requires labelled { IfSome (option_copied labels) (λ ls. length block.now.labels ≡ length block.now.answers) }
    ensures { refusal_of result
        ≡ answers_refusal (R.collection rows.now) (option_copied labels.entry) k b query.now block.now }
{
    let wanted = k.min(rows.count()) as usize;
    let answers = block.pairs();
    for (i, answer) in answers.iter().enumerate() {
        if i >= wanted || !is_right(rows, labels, query, block, i, answer) {
            return Err(Reject::Answers(b, i as u32 + 1));
        }
    }
    if answers.len() < wanted {
        return Err(Reject::Answers(b, answers.len() as u32 + 1));
    }
    Ok(())
}

// Whether the answer at place `i` is real, with the right label, and above the one before it.
fn is_right<R: Rows>(
    rows: &R,
    labels: Option<&[u64]>,
    query: &[i16],
    block: &Block,
    i: usize,
    answer: &Pair,
) -> bool
    requires same_length { length query.now ≡ (R.collection rows.now).points }
    requires labels { IfSome (option_copied labels) (λ ls. length ls ≡ length (R.collection rows.now).series) }
    requires place { i < length block.now.answers }
    requires labelled { IfSome (option_copied labels) (λ ls. length block.now.labels ≡ length block.now.answers) }
    ensures { result
        ≡ is_right (R.collection rows.now) (option_copied labels.entry) query.now block.now i answer.now }
{
    is_real(rows, query, answer)
        && is_label(labels, block.written_labels(), i, answer)
        && is_above(block.pairs(), i, answer)
}

// Whether a pair is that of a series, with its real distance.
fn is_real<R: Rows>(rows: &R, query: &[i16], pair: &Pair) -> bool
    requires { length query.now ≡ (R.collection rows.now).points }
    ensures { result ≡ is_real (R.collection rows.now) query.now pair.now }
{
    pair.number < rows.count()
        && distance_within(rows.row(pair.number), query, pair.distance) == Some(pair.distance)
}

// Whether the label at place `i` is that of the pair's series, where the series have labels.
fn is_label(labels: Option<&[u64]>, written: &[u64], i: usize, pair: &Pair) -> bool
    requires number { IfSome (option_copied labels) (λ ls. pair.now.number < length ls) }
    requires place { IfSome (option_copied labels) (λ ls. i < length written.now) }
    ensures { result ≡ is_label (option_copied labels.entry) written.now i pair.now }
{
    match labels {
        None => true,
        Some(labels) => written[i] == labels[pair.number as usize],
    }
}

// Whether a pair is greater than the one before place `i`, where there is one.
fn is_above(pairs: &[Pair], i: usize, pair: &Pair) -> bool
    requires { i < length pairs.now }
    ensures { result ≡ is_above pairs.now i pair.now }
{
    i == 0 || pairs[i - 1].is_before(pair)
}
