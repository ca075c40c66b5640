//! Small collections of every kind of data, of lengths around those of blocks of codes: the answer alone is that of a plain sort.
use crate::claims::assert_same;
use breakpoints::Table;
use nearest_answer::{Task, one_worker_answer};
use outside::{NoGate, NoMemory};
use plain_search::{are_same, plain_nearest};
use rand_xoshiro::SplitMix64;
use rand_xoshiro::rand_core::{Rng, SeedableRng};
use series_core::{Flat, Rows};
use std::alloc::Global;
use std::process::Abort;
use std::test::*;
use std::thread::Threads;
use subtree_build::{Settings, build};

/// What the values of a series are like.
#[derive(Clone, Copy, Debug)]
enum Kind {
    Walk,
    Noise,
    Resonance,
    Shrill,
    Tremor,
    Constant,
    Flutter,
}

/// What rings on after these two values, with a push.
fn rung(pitch: i32, push: i32, last: i32, before: i32) -> i32 {
    let swing = last
        .wrapping_mul(pitch)
        .wrapping_sub(before.wrapping_mul(1000));
    (swing / 1024).wrapping_add(push)
}

/// The value at a place of a series, after these two. The number `own` is the series' own: a tremor swells at its onset and dies away, and a
/// flutter swings every other value by its pattern, so that eight values in a row have a mean near 0.
fn next_value(kind: Kind, drawn: i32, place: u32, own: u32, last: i32, before: i32) -> i32 {
    let onset = own % 256;
    let value = match kind {
        Kind::Walk => last.wrapping_add(drawn / 128),
        Kind::Noise => drawn,
        Kind::Resonance => rung(1900, drawn / 16, last, before),
        Kind::Shrill => rung(-1200, drawn / 16, last, before),
        Kind::Tremor if place < onset => rung(900, drawn / 256, last, before),
        Kind::Tremor if place < onset.saturating_add(30) => rung(900, drawn / 8, last, before),
        Kind::Tremor => rung(900, drawn / 64, last, before),
        Kind::Constant => last,
        Kind::Flutter if (place / 2 & (own | 1)).count_ones() % 2 == 1 => {
            (drawn / 8).wrapping_sub(9000)
        }
        Kind::Flutter => (drawn / 8).wrapping_add(9000),
    };
    value.clamp(-32768, 32767)
}

/// The values of `count` series of `length` values.
fn values_of(
    alloc: Global,
    rng: &mut SplitMix64,
    kind: Kind,
    count: u32,
    length: u32,
) -> Result<Vec<i16>, NoMemory> {
    let mut values = Vec::new(alloc);
    for _series in 0..count {
        let mut before = 0;
        let mut last = (rng.next_u32() % 7) as i32 * 1000;
        let own = rng.next_u32();
        for place in 0..length {
            let drawn = (rng.next_u32() >> 16) as i32 - 32768;
            let value = next_value(kind, drawn, place, own, last, before);
            before = last;
            last = value;
            values.push(value.clamp(-32768, 32767) as i16)?;
        }
    }
    Ok(values)
}

/// Whether the answers to each of the last two series, by an index of the others, are those of a plain sort.
fn agree<T: Threads + Sync>(
    rt: &T,
    alloc: Global,
    values: Vec<i16>,
    length: u32,
    k: u32,
) -> Result<bool, NoMemory> {
    if length < 1 || length > 65536 || k < 1 || k > 1024 {
        return Err(NoMemory);
    }
    let n = length as usize;
    if values.len() % n != 0 || values.len() > 16777216 {
        return Err(NoMemory);
    }
    let rows = Flat::from_values(length, values);
    let settings = Settings::new(length, length.min(16), Table::Bent, 8);
    let index = build(rt, alloc, &rows, &settings, 1, &NoGate)?;
    for number in 0..rows.count().min(3) {
        let mut query = rows.row(number).to_vec(alloc)?;
        for value in &mut query {
            *value = value.wrapping_add(3);
        }
        if query.len() != n {
            return Err(NoMemory);
        }
        let task = Task::new(&rows, &query, k, &settings.layout);
        let found = one_worker_answer(alloc, &task, &index)?;
        if !are_same(&found.items, &plain_nearest(alloc, &rows, &query, k)?) {
            return Ok(false);
        }
    }
    Ok(true)
}

const KINDS: [Kind; 7] = [
    Kind::Walk,
    Kind::Noise,
    Kind::Resonance,
    Kind::Shrill,
    Kind::Tremor,
    Kind::Constant,
    Kind::Flutter,
];

// Lengths beside those at which a row has one block of codes more, each with how many of 60 series are asked for.
const LENGTHS: [(u32, u32); 14] = [
    (1, 2),
    (5, 1),
    (16, 100),
    (100, 40),
    (223, 10),
    (224, 100),
    (255, 10),
    (256, 1),
    (256, 100),
    (257, 10),
    (479, 1),
    (480, 10),
    (512, 100),
    (513, 10),
];

/// Claims that the answers agree over `count` series of each of these kinds and lengths.
fn all_agree<T: Threads + Sync + Abort>(
    rt: &T,
    alloc: Global,
    seed: u64,
    kinds: &[Kind],
    count: u32,
    lengths: &[(u32, u32)],
) -> Result<(), Fail> {
    let mut rng = SplitMix64::seed_from_u64(seed);
    for kind in kinds {
        for (length, k) in lengths {
            let values = values_of(alloc, &mut rng, *kind, count, *length)?;
            let same = agree(rt, alloc, values, *length, *k)?;
            assert_same!(rt; same, true, "{k} of {count} series of {length} values, {kind:?}");
        }
    }
    Ok(())
}

#[test]
fn every_kind_of_data(rt: HostRuntime) -> Result<(), Fail> {
    all_agree(&rt, rt.alloc(), 5, &KINDS, 60, &LENGTHS)
}

#[test]
fn many_of_every_kind(rt: HostRuntime) -> Result<(), Fail> {
    let lengths = [(16, 65), (64, 300), (130, 1000), (256, 1), (257, 10)];
    all_agree(&rt, rt.alloc(), 7, &KINDS, 2000, &lengths)
}

#[test]
fn data_that_codes_alone_tell(rt: HostRuntime) -> Result<(), Fail> {
    let lengths = [(256, 1), (256, 3), (230, 2), (300, 3), (480, 100)];
    all_agree(&rt, rt.alloc(), 6, &[Kind::Flutter], 3000, &lengths)
}
