//! A plain slow reader of the text of an index, byte by byte, for tests to compare with.
ghost use Rattle.std.specs.Prelude.{◌<◌};

use std::alloc::Global;
use std::test::Fail;

/// What a text tells, as numbers in the order in which they stand: the fields of the header, and then for each root child its
/// root number, and for each node 0, the count and the numbers of a leaf, or the byte and the segment of a split.
/// None where the bytes are the text of no index.
pub fn plain_read(alloc: Global, bytes: &[u8]) -> Result<Option<Vec<u32>>, Fail> {
    let mut told = Vec::new(alloc);
    if !plain_header(bytes, &mut told)? {
        return Ok(None);
    }
    let segments = byte(bytes, 6);
    let mut at = 24;
    let mut least = 0;
    for _i in 0..four(bytes, 20) {
        let root = four(bytes, at);
        let low = segments < 32 && root < 1 << segments;
        if past(at, 4) > bytes.len() || root < least || !low {
            return Ok(None);
        }
        told.push(root)?;
        least = root.saturating_add(1);
        match plain_node(alloc, bytes, past(at, 4), &mut told)? {
            Some(behind) => at = behind,
            None => return Ok(None),
        }
    }
    if at == bytes.len() {
        Ok(Some(told))
    } else {
        Ok(None)
    }
}

// Tells the header; false where there is none.
fn plain_header(bytes: &[u8], told: &mut Vec<u32>) -> Result<bool, Fail> {
    let first = [0x49, 0x53, 0x45, 0x58, 1, 0];
    if bytes.len() < 24 || !bytes.starts_with(&first) {
        return Ok(false);
    }
    let (segments, table, n) = (byte(bytes, 6), byte(bytes, 7), four(bytes, 8));
    let (count, size) = (four(bytes, 12), four(bytes, 16));
    for field in [segments, table, n, count, size] {
        told.push(field)?;
    }
    let shape = segments >= 1 && segments <= 16 && segments <= n && n <= 65536;
    Ok(shape && table <= 1 && count <= 16777216 && size >= 1 && size <= 65535)
}

// Tells the node at a place and all below it, and gives the place behind it; None where there is none.
fn plain_node(
    alloc: Global,
    bytes: &[u8],
    at: usize,
    told: &mut Vec<u32>,
) -> Result<Option<usize>, Fail> {
    let mut at = at;
    let mut waiting = Vec::new(alloc);
    waiting.push([1u8; 16])?;
    for _i in 0..bytes.len() {
        let Some(mut bits) = waiting.pop() else {
            return Ok(Some(at));
        };
        let kind = byte(bytes, at);
        if at >= bytes.len() || kind > 3 {
            return Ok(None);
        }
        told.push(kind)?;
        if kind == 0 {
            match plain_leaf(bytes, past(at, 1), told)? {
                Some(behind) => at = behind,
                None => return Ok(None),
            }
            continue;
        }
        let segment = byte(bytes, past(at, 1));
        if past(at, 2) > bytes.len() || segment >= byte(bytes, 6) {
            return Ok(None);
        }
        match bits.get_mut(segment as usize) {
            Some(known) if *known < 8 => *known += 1,
            _ => return Ok(None),
        }
        told.push(segment)?;
        waiting.push(bits)?;
        if kind == 3 {
            waiting.push(bits)?;
        }
        at = past(at, 2);
    }
    if waiting.is_empty() {
        Ok(Some(at))
    } else {
        Ok(None)
    }
}

// Tells the count and the numbers of a leaf, and gives the place behind it; None where there is none.
fn plain_leaf(bytes: &[u8], at: usize, told: &mut Vec<u32>) -> Result<Option<usize>, Fail> {
    let many = four(bytes, at);
    if past(at, 4) > bytes.len() || many == 0 {
        return Ok(None);
    }
    told.push(many)?;
    let mut at = past(at, 4);
    let mut least = 0;
    for _i in 0..many {
        let number = four(bytes, at);
        if past(at, 4) > bytes.len() || number < least || number >= four(bytes, 12) {
            return Ok(None);
        }
        told.push(number)?;
        least = number.saturating_add(1);
        at = past(at, 4);
    }
    Ok(Some(at))
}

// The place `more` bytes behind `at`.
fn past(at: usize, more: usize) -> usize {
    at.saturating_add(more)
}

// The number in the four bytes from a place on, the lowest first.
fn four(bytes: &[u8], at: usize) -> u32 {
    let low = byte(bytes, at) + 256 * byte(bytes, past(at, 1));
    low + 65536 * byte(bytes, past(at, 2)) + 16777216 * byte(bytes, past(at, 3))
}

// The byte at a place, 0 behind the end.
fn byte(bytes: &[u8], at: usize) -> u32
    ensures { result < 256 }
{
    u32::from(bytes.get(at).copied().unwrap_or(0))
}
