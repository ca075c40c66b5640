//! The lines of a certificate: one function a form, each of which reads a whole line with its line feed.

ghost use Rattle.std.specs.Prelude.{◌≡◌, ◌≤◌};
ghost use Rattle.std.specs.Option.{option_to_list};
ghost use Rattle.certificate.specs.Fields.{Sees, SeesOk};
ghost use Rattle.certificate.specs.LineForms.{query_of, answer_of, start_of, start_leaf_of, queue_of, leaf_of};

use crate::block::LeafLine;
use crate::fields::{after, after_number, is_end, number};
use crate::words::{entries, label, limit, said, word};
use outside::NoMemory;
use search_machine::{EntryList, Start};
use series_core::Pair;
use std::alloc::Global;

/// Whether this is the line of query `i`: Some of `i` where it is.
#[tactic(auto, unfolding(crate::specs::LineForms::query_of))]
pub fn query(line: &[u8], i: u64) -> Option<u64>
    ensures { result ≡ query_of i line.now }
{
    let rest = after(line, b"query ")?;
    let rest = after_number(rest, i)?;
    if is_end(rest) { Some(i) } else { None }
}

/// The answer of rank `rank`, and its label where answers have labels.
#[tactic(auto, unfolding(crate::specs::LineForms::answer_of))]
pub fn answer(line: &[u8], labelled: bool, rank: u64) -> Option<(Pair, Option<u64>)>
    ensures { Sees (λ x. (x.0, option_to_list x.1)) result (answer_of labelled rank line.now) }
{
    let rest = after_number(line, rank)?;
    let rest = after(rest, b" ")?;
    let (number_read, rest) = number(rest, u64::from(u32::MAX))?;
    let rest = after(rest, b" ")?;
    let (distance, rest) = number(rest, u64::MAX)?;
    let (label, rest) = label(rest, labelled)?;
    let number = number_read as u32;
    let pair = Pair { distance, number };
    if is_end(rest) {
        Some((pair, label))
    } else {
        None
    }
}

/// The start: None within where there is no leaf.
#[tactic(auto, unfolding(crate::specs::LineForms::start_of))]
pub fn start(line: &[u8]) -> Option<Option<Start>>
    ensures { result ≡ start_of line.now }
{
    let rest = after(line, b"start ")?;
    match after(rest, b"none") {
        Some(rest) if is_end(rest) => Some(None),
        Some(_) => None,
        None => start_leaf(rest),
    }
}

// The leaf and the limit of a start.
#[tactic(auto, unfolding(crate::specs::LineForms::start_leaf_of))]
fn start_leaf(text: &[u8]) -> Option<Option<Start>>
    ensures { result ≡ start_leaf_of text.now }
{
    let (leaf_read, rest) = number(text, u64::from(u32::MAX))?;
    let rest = after(rest, b" ")?;
    let (limit, rest) = limit(rest)?;
    let leaf = leaf_read as u32;
    if is_end(rest) {
        Some(Some(Start { leaf, limit }))
    } else {
        None
    }
}

/// The entries of queue `m`.
#[tactic(auto, unfolding(crate::specs::LineForms::queue_of))]
pub fn queue(alloc: Global, line: &[u8], m: u64) -> Result<Option<EntryList>, NoMemory>
    ensures { SeesOk (λ entries. entries) result (queue_of m line.now) }
{
    let Some(rest) = after(line, b"queue ") else {
        return Ok(None);
    };
    let Some(rest) = after_number(rest, m) else {
        return Ok(None);
    };
    match entries(alloc, rest)? {
        Some((entries, rest)) if is_end(rest) => Ok(Some(entries)),
        _ => Ok(None),
    }
}

/// The line of leaf `l`, whose word has `segments` segments, from 1 to 16.
#[tactic(auto, unfolding(crate::specs::LineForms::leaf_of))]
pub fn leaf(line: &[u8], segments: u32, l: u64) -> Option<LeafLine>
    requires some { 1 ≤ segments }
    requires few { segments ≤ 16 }
    ensures { result ≡ leaf_of segments l line.now }
{
    let rest = after(line, b"leaf ")?;
    let rest = after_number(rest, l)?;
    let rest = after(rest, b" word ")?;
    let Some((word, rest)) = word(rest, segments) else {
        return None;
    };
    let (said, rest) = said(rest)?;
    if is_end(rest) {
        Some(LeafLine { word, said })
    } else {
        None
    }
}
