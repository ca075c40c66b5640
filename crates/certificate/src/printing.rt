//! Printing a certificate: the lines behind the answers of a query, from what the search of it ended with.
//! A line of a leaf is made in place and then appended; there is room for most lines from the start.

ghost use Rattle.std.specs.Prelude.{◌≡◌, ◌+◌, ◌<◌, ◌≤◌, ◌++◌, [], ◌∷◌, length, codes, decimal, slice_get, Some, IfOk, OnOk};
ghost use Rattle.std.specs.List.{concat};
ghost use Rattle.isax_word.specs.Word.{part_at};
ghost use Rattle.search_machine.specs.declared.outcome.Fate.{Fate};
ghost use Rattle.subtree_build.specs.Index.{leaf_at};
ghost use Rattle.certificate.specs.Printed.{CertifiesWhereLegal, entries_taken, leaf_said, leaves_said, outcome_said, said_of, search_text};
ghost use Rattle.certificate.specs.Spelling.{entries_text, leaf_line, leaf_lines, limit_text, part_text, queue_line, queue_lines, said_text, start_line, word_text};

use crate::block::Said;
use crate::tail::Tail;
use isax_word::Word;
use outside::NoMemory;
use search_machine::{Fate, Outcome, QueueLine, Start};
use series_core::{Entry, NONE};
use std::alloc::Global;
use subtree_build::Index;

/// The lines of a certificate behind the answers of a query: the start, a line a queue, and a line a leaf with its word.
/// The outcome has a fate for each leaf of the index.
pub fn print(alloc: Global, index: &Index, outcome: &Outcome) -> Result<Vec<u8>, NoMemory>
    requires { length outcome.now.fates ≡ length index.now.leaves }
    ensures text { IfOk result (λ text. text.items ≡ search_text (outcome_said index.now outcome.now)) }
    // Where the index is the tree of a collection, and the outcome is legal and straight for a question to it, the lines
    // certify the answers to that question.
    ensures certificate { IfOk result (λ text. CertifiesWhereLegal index.now outcome.now text.items) }
{
    // for the fact that the index is one
    let _leaves = index.leaf_count();
    let mut text = Vec::new(alloc);
    push_start(&mut text, outcome.start)?;
    push_queues(&mut text, &outcome.lines.items)?;
    push_leaves(&mut text, index, &outcome.fates.items)?;
    Ok(text)
}

// Appends the line of the start.
fn push_start(text: &mut Vec<u8>, start: Option<Start>) -> Result<(), NoMemory>
    ensures { OnOk result (text.new.items ≡ text.old.items ++ start_line start) }
{
    let mut tail = Tail::new();
    put_start(&mut tail, start);
    text.extend_from_slice(tail.bytes())?;
    Ok(())
}

// Makes the line of the start.
fn put_start(tail: &mut Tail, start: Option<Start>)
    ensures { tail.new ≡ start_line start }
{
    tail.clear();
    tail.put(b"\n");
    match start {
        None => tail.put(b"none"),
        Some(start) => {
            put_limit(tail, start.limit);
            tail.put(b" ");
            tail.put_number(u64::from(start.leaf));
        }
    }
    tail.put(b"start ");
}

// Puts a limit in front: its distance, or that there is none.
fn put_limit(tail: &mut Tail, limit: u64)
    requires room { length tail.old ≤ 1 }
    ensures text { tail.new ≡ limit_text limit ++ tail.old }
    ensures room { length tail.new ≤ length tail.old + 20 }
{
    match limit {
        NONE => tail.put(b"none"),
        distance => tail.put_number(distance),
    }
}

// Appends the lines of all queues.
fn push_queues(text: &mut Vec<u8>, lines: &[QueueLine]) -> Result<(), NoMemory>
    ensures { OnOk result (text.new.items ≡ text.old.items ++ concat (queue_lines 0 (entries_taken lines.now))) }
{
    for (m, line) in lines.iter().enumerate() {
        push_queue(text, m as u64, line)?;
    }
    Ok(())
}

// The most bytes of a queue's line without its entries, and of an entry.
const ENTRY_ROOM: usize = 32;

// Appends the line of queue `m`.
fn push_queue(text: &mut Vec<u8>, m: u64, line: &QueueLine) -> Result<(), NoMemory>
    ensures { OnOk result (text.new.items ≡ text.old.items ++ queue_line m line.now.taken) }
{
    let entries = line.taken.items.as_slice();
    text.reserve(entries.len().saturating_add(1).saturating_mul(ENTRY_ROOM))?;
    let mut head = Tail::new();
    put_queue(&mut head, m);
    text.extend_from_slice(head.bytes())?;
    push_entries(text, entries)?;
    text.push(b'\n')?;
    Ok(())
}

// Makes the front of the line of queue `m`: the word and the number.
fn put_queue(tail: &mut Tail, m: u64)
    ensures { tail.new ≡ codes "queue " ++ decimal m }
{
    tail.clear();
    tail.put_number(m);
    tail.put(b"queue ");
}

// Appends the entries of a queue.
fn push_entries(text: &mut Vec<u8>, entries: &[Entry]) -> Result<(), NoMemory>
    ensures { OnOk result (text.new.items ≡ text.old.items ++ entries_text entries.now) }
{
    let mut tail = Tail::new();
    for entry in entries {
        put_entry(&mut tail, *entry);
        text.extend_from_slice(tail.bytes())?;
    }
    Ok(())
}

// Makes an entry: a space, its bound, a colon and its leaf.
fn put_entry(tail: &mut Tail, entry: Entry)
    ensures { tail.new ≡ entries_text (entry ∷ []) }
{
    tail.clear();
    tail.put_number(u64::from(entry.leaf));
    tail.put(b":");
    tail.put_number(entry.bound);
    tail.put(b" ");
}

// About as many bytes as a leaf's line has.
const LEAF_ROOM: usize = 112;

// Appends the lines of all leaves.
fn push_leaves(text: &mut Vec<u8>, index: &Index, fates: &[Fate]) -> Result<(), NoMemory>
    requires { length fates.now ≡ length index.now.leaves }
    ensures { OnOk result (text.new.items
        ≡ text.old.items ++ concat (leaf_lines 0 (leaves_said index.now.leaves fates.now))) }
{
    text.reserve((index.leaf_count() as usize).saturating_mul(LEAF_ROOM))?;
    let mut tail = Tail::new();
    for l in 0..index.leaf_count() {
        put_leaf(&mut tail, index, fates, l);
        text.extend_from_slice(tail.bytes())?;
    }
    Ok(())
}

// Makes the line of leaf `l` of an index.
fn put_leaf(tail: &mut Tail, index: &Index, fates: &[Fate], l: u32)
    requires leaf { l < length index.now.leaves }
    requires fate { l < length fates.now }
    ensures { (fate : Fate) → slice_get fates.now l ≡ Some fate
        → tail.new ≡ leaf_line l (leaf_said (leaf_at index.now.leaves l) fate) }
{
    let said = said_of(fates[l as usize]);
    put_line(tail, l, index.leaf_word(l), said);
}

// What is said of a leaf of this fate: that it was scanned, or else its bound.
fn said_of(fate: Fate) -> Said
    ensures { result ≡ said_of fate }
{
    match fate {
        Fate::Bound(bound) => Said::Bound(bound),
        _ => Said::Scanned,
    }
}

// Makes the line of leaf `l`.
fn put_line(tail: &mut Tail, l: u32, word: &Word, said: Said)
    ensures { tail.new ≡ leaf_line l (record { word = word.now; said = said }) }
{
    tail.clear();
    tail.put(b"\n");
    put_said(tail, said);
    put_word(tail, word);
    tail.put(b" word ");
    tail.put_number(u64::from(l));
    tail.put(b"leaf ");
}

// Puts a word in front: its parts, parted by commas.
fn put_word(tail: &mut Tail, word: &Word)
    requires { length tail.old ≤ 28 }
    ensures text { tail.new ≡ word_text word.now ++ tail.old }
    ensures room { length tail.new ≤ length tail.old + 128 }
{
    let segments = word.segments();
    for put in 0..segments {
        put_part(tail, word, segments - 1 - put);
    }
    tail.drop_first();
}

// Puts a part of a word in front, behind a comma: its prefix, a colon and its number of bits.
fn put_part(tail: &mut Tail, word: &Word, j: u32)
    requires part { j < length word.now }
    requires room { length tail.old ≤ 156 }
    ensures text { tail.new ≡ 44 ∷ (part_text (part_at word.now j) ++ tail.old) }
    ensures room { length tail.new ≤ length tail.old + 8 }
{
    let (prefix, bits) = (word.prefix(j), word.bits(j));
    if prefix < 10 {
        tail.put(&[b',', b'0' + prefix, b':', b'0' + bits]);
        return;
    }
    tail.put(&[b':', b'0' + bits]);
    tail.put_number(u64::from(prefix));
    tail.put(b",");
}

// Puts in front what is said of a leaf.
fn put_said(tail: &mut Tail, said: Said)
    requires { length tail.old ≤ 1 }
    ensures text { tail.new ≡ said_text said ++ tail.old }
    ensures room { length tail.new ≤ length tail.old + 27 }
{
    match said {
        Said::Scanned => tail.put(b" scanned"),
        Said::Bound(bound) => {
            tail.put_number(bound);
            tail.put(b" bound ");
        }
    }
}
