//! A certificate of the k nearest to one query: written from a search, and checked without any index.
ghost use Rattle.std.specs.Prelude.{◌≡◌, ◌≤◌, [], ◌∷◌, ◌++◌, IfOk, OnOk, length};
ghost use Rattle.certificate.specs.Spelling.{query_line};
ghost use Rattle.certificate.specs.Verdict.{HaveAnswers};
ghost use Rattle.run_traffic.specs.Lines.{line_of, ranked};
ghost use Rattle.examples.specs.Written.{IsWritten, asked};

use certificate::{Block, CertError, Reject, check, print, read};
use isax_word::Layout;
use outside::{NoGate, NoMemory};
use query_core::{Task, one_worker};
use run_traffic::push_line;
use series_core::{MAX_BEST, Pair, PairList, Rows};
use std::alloc::Global;
use std::thread::Threads;
use subtree_build::{Settings, build};

/// Why a text certifies no answers.
#[derive(Debug, Drop, thiserror::Error)]
pub enum Refusal {
    #[error("no certificate: {0}")]
    Read(CertError),
    #[error("the certificate does not hold")]
    Rejected(Reject),
}

/// A whole certificate of the `k` nearest to one query: its line, the answer lines, and the lines that certify them.
pub fn written<T: Threads + Sync, R: Rows + Sync>(
    rt: &T,
    alloc: Global,
    rows: &R,
    query: &[i16],
    k: u32,
    settings: &Settings,
) -> Result<Vec<u8>, NoMemory>
    requires rows { (R.collection rows.now).points ≡ settings.now.layout.cuts.row_length }
    requires length { length query.now ≡ settings.now.layout.cuts.row_length }
    requires k { (1 ≤ k) × (k ≤ MAX_BEST) }
    ensures { let x = asked (R.collection rows.now) query.now k settings.now.layout in
        IfOk result (λ text. IsWritten x settings.now.leaf_size query.now text.items) }
{
    let index = build(rt, alloc, rows, settings, 4, &NoGate)?;
    let task = Task::new(rows, query, k, &settings.layout);
    // for the fact that the task is a question
    let _k = task.k();
    let outcome = one_worker(alloc, &task, &index, 1)?;
    let mut text = answer_text(alloc, &outcome.pairs)?;
    text.extend_from_slice(&print(alloc, &index, &outcome)?)?;
    Ok(text)
}

/// The line of the first query, and a line for each of these pairs.
fn answer_text(alloc: Global, pairs: &PairList) -> Result<Vec<u8>, NoMemory>
    ensures { IfOk result (λ text. text.items
        ≡ query_line 0 ++ ranked (λ r p. line_of r (p.number ∷ p.distance ∷ [])) 1 pairs.now) }
{
    let mut text = Vec::new(alloc);
    push_query(&mut text)?;
    push_answers(&mut text, &pairs.items)?;
    Ok(text)
}

/// Appends the line of the first query.
fn push_query(text: &mut Vec<u8>) -> Result<(), NoMemory>
    ensures { OnOk result (text.new.items ≡ text.old.items ++ query_line 0) }
{
    text.extend_from_slice(b"query ")?;
    push_line(text, 0, &[])
}

/// Appends a line for each pair, the first of them of rank 1: rank, number and distance.
fn push_answers(text: &mut Vec<u8>, pairs: &[Pair]) -> Result<(), NoMemory>
    ensures { OnOk result (text.new.items
        ≡ text.old.items ++ ranked (λ r p. line_of r (p.number ∷ p.distance ∷ [])) 1 pairs.now) }
{
    let mut rank = 1;
    for pair in pairs {
        push_answer(text, rank, pair)?;
        rank += 1;
    }
    Ok(())
}

/// Appends the line of the pair of a rank.
fn push_answer(text: &mut Vec<u8>, rank: u64, pair: &Pair) -> Result<(), NoMemory>
    ensures { OnOk result (text.new.items
        ≡ text.old.items ++ line_of rank (pair.now.number ∷ pair.now.distance ∷ [])) }
{
    push_line(text, rank, &[u64::from(pair.number), pair.distance])
}

/// The blocks of a certificate that holds, one a query: their answers are those of the queries.
pub fn checked<R: Rows, Q: Rows>(
    alloc: Global,
    rows: &R,
    queries: &Q,
    k: u32,
    layout: &Layout,
    text: &[u8],
) -> Result<Vec<Block>, Refusal>
    requires rows { (R.collection rows.now).points ≡ layout.now.cuts.row_length }
    requires queries { (Q.collection queries.now).points ≡ layout.now.cuts.row_length }
    requires k { (1 ≤ k) × (k ≤ MAX_BEST) }
    ensures { IfOk result (λ blocks.
        HaveAnswers (R.collection rows.now) (Q.collection queries.now) k blocks.items) }
{
    let blocks = read(alloc, text, layout.cuts.segments(), false).map_err(Refusal::Read)?;
    check(rows, None, queries, k, layout, &blocks).map_err(Refusal::Rejected)?;
    Ok(blocks)
}
