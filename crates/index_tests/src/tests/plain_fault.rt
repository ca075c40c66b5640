//! A plain slow test of the text of an index against a collection, for tests to compare with.
use crate::tests::plain_reader::plain_read;
use saved_index::IndexFault;
use std::alloc::Global;
use std::test::Fail;

/// The prefix and the number of bits of a word in each of 16 segments.
type PlainWord = [(u8, u8); 16];

/// What the bytes have against series of this length, whose values stand in a row.
pub fn plain_fault(
    alloc: Global,
    bytes: &[u8],
    values: &[i16],
    length: usize,
) -> Result<Option<IndexFault>, Fail> {
    let Some(told) = plain_read(alloc, bytes)? else {
        return Ok(Some(IndexFault::NotIndex));
    };
    let told = told.as_slice();
    let (have, count) = (at(told, 2), at(told, 3));
    let want = number(length);
    if have != want {
        return Ok(Some(IndexFault::Length(have, want)));
    }
    let many = number(values.len() / length.max(1));
    if count != many {
        return Ok(Some(IndexFault::Count(count, many)));
    }
    let found = leaves_of(alloc, told)?;
    for series in 0..many {
        if !is_plain_fit(told, found.as_slice(), series, values, length) {
            return Ok(Some(IndexFault::Unfit(series)));
        }
    }
    Ok(None)
}

// Whether the series stands once, in a leaf whose word has the first bits of its symbols.
fn is_plain_fit(
    told: &[u32],
    found: &[(u32, PlainWord)],
    series: u32,
    values: &[i16],
    length: usize,
) -> bool {
    let segments = at(told, 0) as usize;
    let mut times = 0u64;
    let mut fits = true;
    for (number, word) in found {
        if *number != series {
            continue;
        }
        times = times.saturating_add(1);
        for (j, (prefix, bits)) in word.iter().enumerate().take(segments) {
            let start = (series as usize).wrapping_mul(length);
            let from = start.wrapping_add(j.wrapping_mul(length) / segments.max(1));
            let to = start.wrapping_add(j.wrapping_add(1).wrapping_mul(length) / segments.max(1));
            let symbol = plain_symbol(at(told, 1), values, from, to);
            fits = fits
                && symbol.wrapping_shr(8u32.saturating_sub(u32::from(*bits))) == u32::from(*prefix);
        }
    }
    times == 1 && fits
}

// How many breakpoints, times the length, are at or below the sum of the values from a place up to another.
fn plain_symbol(table: u32, values: &[i16], from: usize, to: usize) -> u32 {
    let mut sum = 0i64;
    let mut length = 0i64;
    for value in values.iter().skip(from).take(to.wrapping_sub(from)) {
        sum = sum.wrapping_add(i64::from(*value));
        length = length.wrapping_add(1);
    }
    let mut symbol = 0u32;
    for i in 1..256i64 {
        let step = i.wrapping_sub(128);
        let point = if table == 0 {
            step.wrapping_mul(256)
        } else {
            step.wrapping_mul(step.wrapping_abs().wrapping_add(64))
        };
        if length.wrapping_mul(point) <= sum {
            symbol = symbol.wrapping_add(1);
        }
    }
    symbol
}

// The number of each member of each leaf, with the leaf's word, of what a text tells.
fn leaves_of(alloc: Global, told: &[u32]) -> Result<Vec<(u32, PlainWord)>, Fail> {
    let segments = at(told, 0);
    let mut found = Vec::new(alloc);
    let mut waiting: Vec<PlainWord> = Vec::new(alloc);
    let mut place = 5usize;
    for _i in 0..told.len() {
        let Some(word) = waiting.pop() else {
            if place < told.len() {
                waiting.push(word_of_root(at(told, place), segments))?;
                place = place.saturating_add(1);
            }
            continue;
        };
        let (kind, next) = (at(told, place), at(told, place.saturating_add(1)));
        place = place.saturating_add(2);
        if kind == 0 {
            for _k in 0..next {
                found.push((at(told, place), word))?;
                place = place.saturating_add(1);
            }
            continue;
        }
        if kind != 1 {
            waiting.push(plain_child(word, next, 1))?;
        }
        if kind != 2 {
            waiting.push(plain_child(word, next, 0))?;
        }
    }
    Ok(found)
}

// The word of one bit a segment, the first segment's the most significant bit of the root number.
fn word_of_root(root: u32, segments: u32) -> PlainWord {
    let mut word = [(0u8, 1u8); 16];
    for (j, part) in word.iter_mut().enumerate() {
        let place = segments.saturating_sub(1).saturating_sub(number(j));
        part.0 = u8::from(root.wrapping_shr(place) & 1 == 1);
    }
    word
}

// The word with this bit more in one segment.
fn plain_child(word: PlainWord, segment: u32, bit: u8) -> PlainWord {
    let mut child = word;
    if let Some(part) = child.get_mut(segment as usize) {
        *part = (
            part.0.wrapping_mul(2).wrapping_add(bit),
            part.1.wrapping_add(1),
        );
    }
    child
}

// A size as a number.
fn number(size: usize) -> u32 {
    u32::try_from(size).unwrap_or(u32::MAX)
}

// The number at a place, 0 behind the end.
fn at(told: &[u32], place: usize) -> u32 {
    told.get(place).copied().unwrap_or(0)
}
