//! Batches of many sizes over series of which means tell some apart and codes alone the others: the text is that of a plain sort, however
//! many workers there are. And how far ahead of the first text the workers draw.

use crate::claims::assert_same;
use crate::tests::drawn_files::{plain_text, raw};
use crate::tests::fixture::{Outside, words_of};
use outside::{Gate, NoGate, NoMemory};
use plain_search::Source;
use search_run::{Status, run};
use series_core::Flat;
use std::alloc::Global;
use std::process::Abort;
use std::sync::Wait;
use std::sync::atomic::{AtomicU64, Ordering};
use std::test::*;
use std::thread::Threads;

/// How many values a series has: those of one block of codes.
const LENGTH: u32 = 256;

/// Series of noise and walks in turn.
fn mixed(alloc: Global, seed: u64, series: u32) -> Result<Flat, NoMemory> {
    let series = series.min(4096);
    let mut source = Source::new(seed, 20000);
    let mut values = source.values(alloc, series * LENGTH)?;
    for walk in values.as_mut_slice().chunks_mut(2 * LENGTH as usize) {
        let mut last = 0i16;
        for value in walk.iter_mut().take(LENGTH as usize) {
            last = last.saturating_add(*value / 64);
            *value = last;
        }
    }
    Ok(Flat::from_values(LENGTH, values))
}

/// Runs `nearest` over files of these rows and queries, and compares what was written with a text.
fn compare<H: Threads + Wait + Abort + Sync>(
    rt: &H,
    alloc: Global,
    (rows, queries): (&[u8], &[u8]),
    workers: u32,
    text: &[u8],
) -> Result<(), Fail> {
    let outside = Outside {
        room: 1000000,
        ..Outside::sound(65536)
    };
    let mut files = outside.files(alloc)?;
    files.hold("mixed", rows)?;
    files.hold("asked", queries)?;
    let (mut out, mut err) = outside.sinks(alloc)?;
    let line = format!(in alloc; "nearest mixed asked --raw 256 --k 3 --workers {workers}")?;
    let words = words_of(alloc, &line)?;
    let status = run(rt, alloc, &words, &mut files, &mut out, &mut err, &NoGate);
    assert_same!(rt; status, Status::Done, "{line}");
    assert_same!(rt; out.written(), text, "{line}");
    Ok(())
}

/// Compares a batch of each of these sizes over so many rows, by each of these numbers of workers.
fn compare_sizes<H: Threads + Wait + Abort + Sync>(
    rt: &H,
    alloc: Global,
    count: u32,
    sizes: &[u32],
    teams: &[u32],
) -> Result<(), Fail> {
    let rows = mixed(alloc, 1, count)?;
    let held = raw(alloc, &rows)?;
    for size in sizes {
        let queries = mixed(alloc, 2, *size)?;
        let text = plain_text(alloc, &rows, &queries, 3)?;
        let asked = raw(alloc, &queries)?;
        for workers in teams {
            compare(rt, alloc, (&held, &asked), *workers, &text)?;
        }
    }
    Ok(())
}

#[test]
fn batches_of_each_size(rt: HostRuntime) -> Result<(), Fail> {
    let sizes = [0, 1, 2, 3, 4, 5, 8, 9, 100];
    compare_sizes(&rt, rt.alloc(), 300, &sizes, &[1, 2, 3, 8])
}

#[test]
fn three_thousand_queries(rt: HostRuntime) -> Result<(), Fail> {
    compare_sizes(&rt, rt.alloc(), 60, &[3000], &[1, 3])
}

/// A gate that counts how often a worker came.
#[derive(Drop)]
struct Counting {
    passes: AtomicU64,
}

impl Gate for Counting {
    fn pass(&self, _worker: u32, _turn: u64) {
        self.passes.fetch_add(1, Ordering::SeqCst);
    }
}

/// How often two workers come to the gate in a run of so many queries, of which a write fails (0: none); and how it ends.
fn passes<T: Threads + Wait + Sync>(
    rt: &T,
    alloc: Global,
    (rows, queries): (&[u8], &[u8]),
    write: u64,
) -> Result<(Status, u64), Fail> {
    let outside = Outside {
        room: 1000000,
        write,
        ..Outside::sound(65536)
    };
    let mut files = outside.files(alloc)?;
    files.hold("mixed", rows)?;
    files.hold("asked", queries)?;
    let (mut out, mut err) = outside.sinks(alloc)?;
    let words = words_of(alloc, "nearest mixed asked --raw 256 --workers 2")?;
    let gate = Counting {
        passes: AtomicU64::new(0),
    };
    let status = run(rt, alloc, &words, &mut files, &mut out, &mut err, &gate);
    Ok((status, gate.passes.load(Ordering::SeqCst)))
}

// Which writes fail, and how often two workers have drawn queries by then, of 3000: before the first text they draw 32, four at a time,
// and each once in vain; and once as many as are written are drawn where all of these are written, eight at a time from the 65th on and
// 16 from the 129th, until no more are left.
const AHEAD: [(&[u64], u64); 5] = [
    (&[1, 32], 10),
    (&[33], 20),
    (&[65], 30),
    (&[129], 40),
    (&[2049], 220),
];

#[test]
fn few_queries_are_ahead_of_the_text(rt: HostRuntime) -> Result<(), Fail> {
    let alloc = rt.alloc();
    let held = raw(alloc, &mixed(alloc, 3, 8)?)?;
    let asked = raw(alloc, &mixed(alloc, 4, 3000)?)?;
    let (_, to_build) = passes(&rt, alloc, (&held, &[]), 0)?;
    for (writes, drawn) in AHEAD {
        for write in writes {
            let (status, came) = passes(&rt, alloc, (&held, &asked), *write)?;
            assert_same!(rt; status, Status::WriteFault, "write {write}");
            let to_draw = came.wrapping_sub(to_build);
            assert_same!(rt; to_draw, drawn, "before write {write}");
        }
    }
    Ok(())
}
