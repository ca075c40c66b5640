//! What all tables share: the files that the scripts name, and runs of a script over them.

use live_run::{LiveStatus, live_run};
use outside::{Gate, MemFiles, NoMemory};
use run_fixture::{Ended, Outside, VALUES, spelled, words_of};
use std::alloc::Global;
use std::sync::Wait;
use std::test::Fail;
use std::thread::Threads;

/// Holds the batch `A`, the empty batch `E`, the query `Q`, series `T` of three values, and `cut`, which lacks a byte.
fn hold_files(alloc: Global, files: &mut MemFiles) -> Result<(), NoMemory> {
    let mut batch = spelled(alloc, 4, 4, &VALUES)?;
    files.hold("A", &batch)?;
    batch.truncate(47);
    files.hold("cut", &batch)?;
    files.hold("E", &spelled(alloc, 4, 0, &[])?)?;
    files.hold("Q", &spelled(alloc, 4, 1, &[1, 1, 1, 1])?)?;
    files.hold("T", &spelled(alloc, 3, 1, &[1, 1, 1])?)
}

/// Runs the words of a line over the files of the tables and a script `S`, with this outside and gate.
pub fn run_line<H: Threads + Wait + Sync, G: Gate + Sync>(
    rt: &H,
    alloc: Global,
    line: &str,
    script: &[u8],
    outside: Outside,
    gate: &G,
) -> Result<Ended<LiveStatus>, Fail> {
    let mut files = outside.files(alloc)?;
    hold_files(alloc, &mut files)?;
    files.hold("S", script)?;
    let words = words_of(alloc, line)?;
    let (mut out, mut err) = outside.sinks(alloc)?;
    let status = live_run(rt, alloc, &words, &mut files, &mut out, &mut err, gate);
    Ok(Ended { status, out, err })
}
