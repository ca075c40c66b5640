//! Trials as tables: words, and the four lines that they end with; and the walks of the great one, searched over sealed runs. The totals
//! come from a plain program in C.

use crate::claims::assert_same;
use crate::tests::fixture::{Outside, hold_drawn, run_line, tells, words_of};
use outside::{MemFiles, MemSink, NoGate};
use search_run::{Status, run};
use std::alloc::Global;
use std::process::Abort;
use std::sync::Wait;
use std::test::Fail;
use std::thread::Threads;

// The text of the great trial, whatever its workers and queues.
const GREAT: &str =
    "series 100000 length 256 queries 20 k 10\nanswers 200\ntotal 1592776822\nnumbers 10230297\n";

#[test]
fn trials_that_are_refused(rt: HostRuntime) -> Result<(), Fail> {
    // Words, a write that fails (0: none), the status, and how many bytes were written in pieces of 7.
    let table = [
        ("trial 7 1 4 1 --segments 5", 0, Status::Settings(5, 4), 0),
        ("trial 7 1 4 1 --segments 4", 0, Status::Done, 64),
        ("trial 7 1 4 1", 1, Status::WriteFault, 0),
        ("trial 7 1 4 1", 3, Status::WriteFault, 14),
    ];
    for (line, write, status, count) in table {
        let outside = Outside {
            write,
            ..Outside::sound(7)
        };
        let ended = run_line(&rt, rt.alloc(), line, b"", outside, &NoGate)?;
        assert_same!(rt; ended.status, status, "{line}, write {write}");
        assert_same!(rt; ended.out.written().len(), count, "{line}, write {write}");
    }
    Ok(())
}

// The great trial with these workers and queues ends with its text.
fn great<H: Threads + Wait + Abort + Sync>(
    rt: &H,
    alloc: Global,
    settings: &str,
) -> Result<(), Fail> {
    let line = format!(in alloc; "trial 7 100000 256 20 --k 10 {settings}")?;
    tells(rt, alloc, &line, b"", 7, (Status::Done, GREAT, ""))
}

#[test]
fn a_great_trial_by_eight_workers(rt: HostRuntime) -> Result<(), Fail> {
    great(&rt, rt.alloc(), "--workers 8 --queues 4")
}

#[test]
fn a_great_trial_by_one_worker(rt: HostRuntime) -> Result<(), Fail> {
    great(&rt, rt.alloc(), "--workers 1 --queues 1")
}

// The number and the distance of an answer line, behind which a label stands. No other line of a certificate begins with a number.
fn answer_in(line: &[u8]) -> Option<(u64, u64)> {
    let text = str::from_utf8(line).ok()?;
    let (rank, rest) = text.split_once(' ')?;
    let (number, rest) = rest.split_once(' ')?;
    let (distance, _label) = rest.split_once(' ')?;
    let _rank = rank.parse::<u64>().ok()?;
    Some((number.parse::<u64>().ok()?, distance.parse::<u64>().ok()?))
}

// How many answer lines there are, the total of their distances, and that of their numbers.
fn totals(text: &[u8]) -> [u64; 3] {
    let mut totals = [0u64; 3];
    for line in text.split(|byte| *byte == b'\n') {
        if let Some((number, distance)) = answer_in(line) {
            totals[0] = totals[0].wrapping_add(1);
            totals[1] = totals[1].wrapping_add(distance);
            totals[2] = totals[2].wrapping_add(number);
        }
    }
    totals
}

// A trial prints no certificate, so no run is sealed in it: its walks are searched by `nearest` here.
#[test]
fn the_great_walks_over_sealed_runs(rt: HostRuntime) -> Result<(), Fail> {
    let alloc = rt.alloc();
    let mut files = MemFiles::new(alloc, 1048576, Vec::new(alloc), Vec::new(alloc));
    hold_drawn(alloc, &mut files, 100000, 20, 256)?;
    let line = "nearest drawn asked --k 10 --workers 8 --queues 4 --sealed --certificate";
    let words = words_of(alloc, line)?;
    let mut out = MemSink::new(alloc, 100_000_000, 1_000_000, Vec::new(alloc))?;
    let mut err = MemSink::new(alloc, 1000, 1000, Vec::new(alloc))?;
    let status = run(&rt, alloc, &words, &mut files, &mut out, &mut err, &NoGate);
    assert_same!(rt; status, Status::Done, "{line}");
    assert_same!(rt; totals(out.written()), [200, 1592776822, 10230297], "{line}");
    Ok(())
}
