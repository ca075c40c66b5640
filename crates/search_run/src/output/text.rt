//! The text of a search, line by line. Fields are parted by one space, and each line ends with a line feed.

ghost use Rattle.std.specs.Prelude.{◌≡◌, ◌++◌, OnOk, IfOk};
ghost use Rattle.search_run.specs.Texts.{query_line, query_text, answer_line, answer_lines};

use outside::NoMemory;
use run_traffic::push_line;
use series_core::{LabelList, Pair, PairList};
use std::alloc::Global;

/// The text of query i: its line, and the lines of its answers.
pub fn query_text(
    alloc: Global,
    i: u32,
    labels: &Option<LabelList>,
    pairs: &PairList,
) -> Result<Vec<u8>, NoMemory>
    ensures { IfOk result (λ text. text.items ≡ query_text labels.now i pairs.now) }
{
    let mut text = Vec::new(alloc);
    push_query(&mut text, i)?;
    push_answers(&mut text, labels, &pairs.items)?;
    Ok(text)
}

// Appends the line of a query.
fn push_query(text: &mut Vec<u8>, i: u32) -> Result<(), NoMemory>
    ensures { OnOk result (text.new.items ≡ text.old.items ++ query_line i) }
{
    text.extend_from_slice(b"query ")?;
    push_line(text, u64::from(i), &[])
}

// Appends the lines of answers, from rank 1 on.
fn push_answers(
    text: &mut Vec<u8>,
    labels: &Option<LabelList>,
    pairs: &[Pair],
) -> Result<(), NoMemory>
    ensures { OnOk result (text.new.items ≡ text.old.items ++ answer_lines labels.now 1 pairs.now) }
{
    let mut rank = 1u64;
    for pair in pairs {
        push_answer(text, labels, rank, pair)?;
        rank += 1;
    }
    Ok(())
}

// Appends the line of one answer.
fn push_answer(
    text: &mut Vec<u8>,
    labels: &Option<LabelList>,
    rank: u64,
    pair: &Pair,
) -> Result<(), NoMemory>
    ensures { OnOk result (text.new.items ≡ text.old.items ++ answer_line labels.now rank pair.now) }
{
    let number = u64::from(pair.number);
    match labels {
        Some(labels) => {
            let label = labels.items.get(pair.number as usize);
            let label = label.copied().unwrap_or(0);
            push_line(text, rank, &[number, pair.distance, label])
        }
        None => push_line(text, rank, &[number, pair.distance]),
    }
}
