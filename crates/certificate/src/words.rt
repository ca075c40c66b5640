//! The fields of a certificate's lines that have parts: entries of queues, words, limits, labels, what is said of a leaf.

ghost use Rattle.std.specs.Prelude.{◌≡◌, ◌≤◌, IfSome, length};
ghost use Rattle.std.specs.Option.{option_to_list};
ghost use Rattle.certificate.specs.Fields.{Sees, SeesOk, entry_at, entries_at, part_at, all_parts_at, word_at, said_at, limit_at, labels_at};

use crate::block::Said;
use crate::fields::{after, number, stops};
use crate::parts::Parts;
use isax_word::{Part, Word};
use outside::NoMemory;
use search_machine::EntryList;
use series_core::{Entry, NONE};
use std::alloc::Global;

// An entry: bound, colon, leaf.
#[tactic(auto, unfolding(crate::specs::Fields::entry_at))]
fn entry(text: &[u8]) -> Option<(Entry, &[u8])>
    ensures { Sees (λ x. (x.0, x.1.now)) result (entry_at text.now) }
{
    let (bound, rest) = number(text, u64::MAX)?;
    let rest = after(rest, b":")?;
    let (leaf, rest) = number(rest, u64::from(u32::MAX))?;
    let leaf = leaf as u32;
    Some((Entry { bound, leaf }, rest))
}

/// The entries of a queue, each behind a space. Each has a byte, so there are no more of them than bytes.
pub fn entries(alloc: Global, text: &[u8]) -> Result<Option<(EntryList, &[u8])>, NoMemory>
    ensures { SeesOk (λ x. (x.0, x.1.now)) result (entries_at (length text.now) text.now) }
{
    let mut items = Vec::new(alloc);
    let mut rest = text;
    for _ in 0..text.len() {
        let Some(next) = after(rest, b" ") else {
            break;
        };
        let Some((entry, next)) = entry(next) else {
            return Ok(None);
        };
        items.push(entry)?;
        rest = next;
    }
    Ok(Some((EntryList { items }, rest)))
}

// A part of a word: prefix, colon, number of bits. In most of them each number has one digit.
fn part(text: &[u8]) -> Option<(Part, &[u8])>
    ensures { Sees (λ x. (x.0, x.1.now)) result (part_at text.now) }
{
    if let [prefix, colon, bits, rest @ ..] = text {
        if *colon == b':' && prefix.is_ascii_digit() && bits.is_ascii_digit() && stops(rest) {
            let part = Part {
                prefix: *prefix - b'0',
                bits: *bits - b'0',
            };
            return Some((part, rest));
        }
    }
    long_part(text)
}

// A part of a word, whose numbers have any number of digits.
#[tactic(auto, unfolding(crate::specs::Fields::part_at))]
fn long_part(text: &[u8]) -> Option<(Part, &[u8])>
    ensures { Sees (λ x. (x.0, x.1.now)) result (part_at text.now) }
{
    let (prefix, rest) = number(text, 255)?;
    let rest = after(rest, b":")?;
    let (bits, rest) = number(rest, 255)?;
    let prefix = prefix as u8;
    let bits = bits as u8;
    Some((Part { prefix, bits }, rest))
}

// `segments` parts of a word, parted by commas.
#[tactic(auto, unfolding(crate::specs::Fields::all_parts_at))]
fn parts(text: &[u8], segments: u32) -> Option<(Parts, &[u8])>
    requires some { 1 ≤ segments }
    requires few { segments ≤ 16 }
    ensures read { Sees (λ x. (x.0, x.1.now)) result (all_parts_at segments text.now) }
    ensures size { IfSome result (λ x. length x.0 ≡ segments) }
{
    let mut parts = Parts::new();
    let (first, mut rest) = part(text)?;
    parts.push(first);
    for _ in 1..segments {
        let next = after(rest, b",")?;
        let (part, next) = part(next)?;
        parts.push(part);
        rest = next;
    }
    Some((parts, rest))
}

/// A word of `segments` segments, from 1 to 16.
#[tactic(auto, unfolding(crate::specs::Fields::word_at))]
pub fn word(text: &[u8], segments: u32) -> Option<(Word, &[u8])>
    requires some { 1 ≤ segments }
    requires few { segments ≤ 16 }
    ensures { Sees (λ x. (x.0, x.1.now)) result (word_at segments text.now) }
{
    let (parts, rest) = parts(text, segments)?;
    let word = parts.word()?;
    Some((word, rest))
}

/// What is said of a leaf.
#[tactic(auto, unfolding(crate::specs::Fields::said_at))]
pub fn said(text: &[u8]) -> Option<(Said, &[u8])>
    ensures { Sees (λ x. (x.0, x.1.now)) result (said_at text.now) }
{
    if let Some(rest) = after(text, b" scanned") {
        return Some((Said::Scanned, rest));
    }
    let rest = after(text, b" bound ")?;
    let (bound, rest) = number(rest, u64::MAX)?;
    Some((Said::Bound(bound), rest))
}

/// The limit of a start: a distance, or `NONE` for the word `none`.
#[tactic(auto, unfolding(crate::specs::Fields::limit_at))]
pub fn limit(text: &[u8]) -> Option<(u64, &[u8])>
    ensures { Sees (λ x. (x.0, x.1.now)) result (limit_at text.now) }
{
    match after(text, b"none") {
        Some(rest) => Some((NONE, rest)),
        None => number(text, NONE - 1),
    }
}

/// A space and a label, where answers have labels.
#[tactic(auto, unfolding(crate::specs::Fields::labels_at))]
pub fn label(text: &[u8], labelled: bool) -> Option<(Option<u64>, &[u8])>
    ensures { Sees (λ x. (option_to_list x.0, x.1.now)) result (labels_at labelled text.now) }
{
    if !labelled {
        return Some((None, text));
    }
    let rest = after(text, b" ")?;
    let (label, rest) = number(rest, u64::MAX)?;
    Some((Some(label), rest))
}
