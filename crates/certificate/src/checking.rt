//! Checking a certificate against the plain list of all series: one walk over the series for all queries.
//! It uses no tree, and it looks at no start and no queue.

ghost use Rattle.std.specs.Prelude.{◌≡◌, ◌<◌, ◌≤◌, false, length, None, IfSome, IfOk, is_some};
ghost use Rattle.std.specs.List.{All};
ghost use Rattle.std.specs.Option.{option_copied};
ghost use Rattle.series_core.specs.Answer.{answer};
ghost use Rattle.series_core.specs.declared.best.TheConstants.{MAX_BEST};
ghost use Rattle.certificate.specs.declared.block.Block.{Block};
ghost use Rattle.certificate.specs.Refusals.{refusal_of};
ghost use Rattle.certificate.specs.Missing.{block_misses, lines_refusal};
ghost use Rattle.certificate.specs.Verdict.{verdict, last_answer, HaveAnswers, IsFor};

use crate::answers::check_answers;
use crate::block::Block;
use crate::error::Reject;
use crate::leaves::{check_bounds, check_lows};
use crate::misses::{check_misses, is_any_missed, last_distance};
use isax_word::Layout;
use lower_bound::QueryView;
use series_core::{Pair, Rows};

/// Tests a certificate, one block a query, against all series; the first test that fails is the error. It takes no memory.
/// The series, the queries and the layout have one length; `k` is from 1 to 1024.
pub fn check<R: Rows, Q: Rows>(
    rows: &R,
    labels: Option<&[u64]>,
    queries: &Q,
    k: u32,
    layout: &Layout,
    blocks: &[Block],
) -> Result<(), Reject>
    requires some { 0 < k }
    requires limit { k ≤ MAX_BEST }
    requires query_length { (Q.collection queries.now).points ≡ (R.collection rows.now).points }
    requires layout_length { layout.now.cuts.row_length ≡ (R.collection rows.now).points }
    requires labels { IfSome (option_copied labels) (λ ls. length ls ≡ length (R.collection rows.now).series) }
    requires blocks { All (IsFor layout.now.cuts.segments (is_some (option_copied labels))) blocks.now }
    // The answer is the verdict.
    ensures verdict { refusal_of result
        ≡ verdict (R.collection rows.now) (option_copied labels.entry) (Q.collection queries.now) k layout.now blocks.now }
    // Where it is yes, the answers of each block are those of its query.
    ensures answers { IfOk result (λ _.
        HaveAnswers (R.collection rows.now) (Q.collection queries.now) k blocks.now) }
{
    let want = queries.count();
    if blocks.len() != want as usize {
        return Err(Reject::Blocks(blocks.len() as u64, u64::from(want)));
    }
    let missed = is_any_missed(rows, queries, k, blocks);
    for (b, block) in blocks.iter().enumerate() {
        let query = queries.row(b as u32);
        check_lines(rows, labels, k, layout, b as u32, query, block)?;
        check_missed(rows, k, b as u32, query, block, missed)?;
    }
    Ok(())
}

// Tests the answers and the leaf lines of block `b`, which is that of this query.
fn check_lines<R: Rows>(
    rows: &R,
    labels: Option<&[u64]>,
    k: u32,
    layout: &Layout,
    b: u32,
    query: &[i16],
    block: &Block,
) -> Result<(), Reject>
    requires some { 0 < k }
    requires limit { k ≤ MAX_BEST }
    requires query_length { length query.now ≡ (R.collection rows.now).points }
    requires layout_length { layout.now.cuts.row_length ≡ (R.collection rows.now).points }
    requires labels { IfSome (option_copied labels) (λ ls. length ls ≡ length (R.collection rows.now).series) }
    requires block { IsFor layout.now.cuts.segments (is_some (option_copied labels)) block.now }
    ensures { refusal_of result
        ≡ lines_refusal (R.collection rows.now) (option_copied labels.entry) k layout.now b query.now block.now }
{
    check_answers(rows, labels, k, b, query, block)?;
    let leaves = block.leaf_lines();
    check_bounds(b, &QueryView::new(layout, query), leaves)?;
    let last = last_answer(rows, k, block.pairs());
    check_lows(b, last_distance(last), leaves)
}

// Tests that block `b` misses no series. Where it is known that no block does, there is nothing to do.
fn check_missed<R: Rows>(
    rows: &R,
    k: u32,
    b: u32,
    query: &[i16],
    block: &Block,
    missed: bool,
) -> Result<(), Reject>
    requires some { 0 < k }
    requires query_length { length query.now ≡ (R.collection rows.now).points }
    requires known { missed ≡ false → block_misses (R.collection rows.now) k b query.now block.now ≡ None }
    ensures { refusal_of result ≡ block_misses (R.collection rows.now) k b query.now block.now }
{
    if missed {
        check_misses(
            rows,
            b,
            query,
            last_answer(rows, k, block.pairs()),
            block.pairs(),
        )
    } else {
        Ok(())
    }
}

/// The answer of rank `k`, where there are at least `k` series.
pub fn last_answer<R: Rows>(rows: &R, k: u32, answers: &[Pair]) -> Option<Pair>
    requires { 0 < k }
    ensures { result ≡ last_answer (R.collection rows.now) k answers.now }
{
    if k <= rows.count() {
        answers.get(k as usize - 1).copied()
    } else {
        None
    }
}
