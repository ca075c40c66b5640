//! Certificates of drawn walks, as a table of settings: each is written and holds as it was written, and no more once one thing
//! of it is changed.

ghost use Rattle.std.specs.Prelude.{◌≤◌, IfSome, length};

use crate::claims::assert_same;
use crate::tests::fixture::words_of;
use certificate::Reject;
use outside::{MemFiles, MemSink, NoGate};
use random_walks::{generator, walks};
use search_run::{CertFault, Status, run};
use series_core::Rows;
use series_file::{write_numbered, write_series};
use std::alloc::{AllocError, Global};
use std::process::Abort;
use std::sync::Wait;
use std::test::Fail;
use std::thread::Threads;

// How many walks there are, whether they have labels, the options that the check needs too, the size of a leaf, the queues and
// the workers.
const CASES: [(u32, bool, &str, u32, u32, u32); 12] = [
    (0, false, "--k 1", 1, 1, 4),
    (1, true, "--k 70", 5, 2, 4),
    (5, false, "--k 2 --breaks bent", 1, 3, 4),
    (12, true, "--k 1 --breaks bent", 2, 5, 4),
    (20, false, "--k 3 --segments 2", 1, 1, 4),
    (33, true, "--k 7 --segments 1 --breaks bent", 3, 4, 4),
    (40, false, "--k 40 --breaks bent", 1, 2, 4),
    (47, true, "--k 48", 4, 5, 4),
    (50, false, "--k 1 --segments 8 --breaks bent", 1, 5, 4),
    (55, true, "--k 2 --breaks bent", 1, 2, 4),
    (60, false, "--k 5 --segments 3 --breaks bent", 5, 3, 4),
    (70, true, "--k 70", 2, 1, 1),
];

// Files with `count` walks of length 8, `data`, and `queries` further walks, `asked`.
fn drawn(alloc: Global, count: u32, labelled: bool, queries: u32) -> Result<MemFiles, Fail> {
    let mut rng = generator(u64::from(count));
    let rows = walks(alloc, &mut rng, count.min(100), 8)?;
    let asked = walks(alloc, &mut rng, queries.min(100), 8)?;
    let mut files = MemFiles::new(alloc, 1000, Vec::new(alloc), Vec::new(alloc));
    let data = if labelled {
        write_numbered(alloc, &rows)?
    } else {
        write_series(alloc, &rows, None)?
    };
    files.hold("data", &data)?;
    files.hold("asked", &write_series(alloc, &asked, None)?)?;
    Ok(files)
}

// How the words of a line end over these files, and what they write.
fn ended<T: Threads + Wait + Sync>(
    rt: &T,
    alloc: Global,
    files: &mut MemFiles,
    line: &str,
) -> Result<(Status, MemSink), Fail> {
    let words = words_of(alloc, line)?;
    let mut out = MemSink::new(alloc, 1_000_000, 1_000_000, Vec::new(alloc))?;
    let mut err = MemSink::new(alloc, 1000, 1000, Vec::new(alloc))?;
    let status = run(rt, alloc, &words, files, &mut out, &mut err, &NoGate);
    Ok((status, out))
}

// What the words of a line write over these files, where they do their work.
fn written<T: Threads + Wait + Abort + Sync>(
    rt: &T,
    alloc: Global,
    files: &mut MemFiles,
    line: &str,
) -> Result<MemSink, Fail> {
    let (status, out) = ended(rt, alloc, files, line)?;
    assert_same!(rt; status, Status::Done, "{line}");
    Ok(out)
}

// A change of a text.
#[derive(Clone, Copy, Debug)]
enum Change {
    // The first bound is ten times as great.
    Bound,
    // The last answer of the first query is left out.
    Answer,
    // The first two leaf lines are exchanged.
    Leaves,
}

// Where a piece stands in a text first.
fn place_of(text: &[u8], piece: &[u8]) -> Option<usize>
    ensures { IfSome result (λ i. i ≤ length text.now) }
{
    for i in 0..text.len() {
        if text[i..].starts_with(piece) {
            return Some(i);
        }
    }
    None
}

// The text with a 0 behind the digits of its first bound.
fn with_bound_raised(alloc: Global, text: &[u8]) -> Result<Option<Vec<u8>>, AllocError> {
    let Some(place) = place_of(text, b" bound ") else {
        return Ok(None);
    };
    let (front, lines) = text.split_at(place);
    let mut raised = Vec::from_slice(alloc, front)?;
    for (i, line) in lines.split_inclusive(|byte| *byte == b'\n').enumerate() {
        match line.strip_suffix(b"\n") {
            Some(bound) if i == 0 => {
                raised.extend_from_slice(bound)?;
                raised.extend_from_slice(b"0\n")?;
            }
            _ => raised.extend_from_slice(line)?,
        }
    }
    Ok(Some(raised))
}

// The text with the first two leaf lines exchanged, where there are two.
fn with_leaves_exchanged(alloc: Global, text: &[u8]) -> Result<Option<Vec<u8>>, AllocError> {
    let Some(place) = place_of(text, b"leaf 0 ") else {
        return Ok(None);
    };
    let (front, lines) = text.split_at(place);
    let mut exchanged = Vec::from_slice(alloc, front)?;
    let mut held: &[u8] = b"";
    let mut there = false;
    for (i, line) in lines.split_inclusive(|byte| *byte == b'\n').enumerate() {
        if i == 0 {
            held = line;
            continue;
        }
        exchanged.extend_from_slice(line)?;
        exchanged.extend_from_slice(held)?;
        held = b"";
        there |= line.starts_with(b"leaf 1 ");
    }
    Ok(if there { Some(exchanged) } else { None })
}

// The text without the line before its first start; None where that is the line of the query.
fn without_last_answer(alloc: Global, text: &[u8]) -> Result<Option<Vec<u8>>, AllocError> {
    let Some(start) = place_of(text, b"start ") else {
        return Ok(None);
    };
    let mut kept = Vec::new(alloc);
    let mut last: &[u8] = b"";
    for line in text[..start].split_inclusive(|byte| *byte == b'\n') {
        kept.extend_from_slice(last)?;
        last = line;
    }
    kept.extend_from_slice(&text[start..])?;
    if last.starts_with(b"query") {
        return Ok(None);
    }
    Ok(Some(kept))
}

// The text with this change, where it has what is changed.
fn changed(alloc: Global, change: Change, text: &[u8]) -> Result<Option<Vec<u8>>, AllocError> {
    match change {
        Change::Bound => with_bound_raised(alloc, text),
        Change::Answer => without_last_answer(alloc, text),
        Change::Leaves => with_leaves_exchanged(alloc, text),
    }
}

// Whether the status tells the change: the bound is above the real one, an answer is missing, a line is not in its place.
fn is_told(change: Change, status: Status) -> bool {
    match (change, status) {
        (Change::Bound, Status::Invalid(CertFault::Rejected(Reject::Bound(_, _, said, real)))) => {
            said > real
        }
        (Change::Answer, Status::Invalid(CertFault::Rejected(Reject::Answers(_, _)))) => true,
        (Change::Leaves, Status::Invalid(CertFault::Line(_))) => true,
        _ => false,
    }
}

#[test]
fn drawn_certificates(rt: HostRuntime) -> Result<(), Fail> {
    let alloc = rt.alloc();
    let mut changes = 0u32;
    for (count, labelled, checked, leaf, queues, workers) in CASES {
        let mut files = drawn(alloc, count, labelled, 3)?;
        let line = format!(in alloc;
            "nearest data asked --certificate {checked} --leaf {leaf} --queues {queues} --workers {workers}"
        )?;
        let out = written(&rt, alloc, &mut files, &line)?;
        files.hold("C", out.written())?;
        let check = format!(in alloc; "verify data asked C {checked}")?;
        let said = written(&rt, alloc, &mut files, &check)?;
        assert_same!(rt; said.written(), b"valid\n".as_slice(), "{line}");
        for change in [Change::Bound, Change::Answer, Change::Leaves] {
            if let Some(text) = changed(alloc, change, out.written())? {
                files.hold("C", &text)?;
                let (status, _said) = ended(&rt, alloc, &mut files, &check)?;
                assert_same!(rt; is_told(change, status), true, "{line}: {change:?}: {status:?}");
                // Which leaves have a bound depends on how the workers ran.
                if !matches!(&change, Change::Bound) {
                    changes = changes.wrapping_add(1);
                }
            }
        }
    }
    assert_same!(rt; changes, 21, "answers and leaf lines were changed");
    Ok(())
}

#[test]
fn answers_are_the_same_for_all_workers_and_queues(rt: HostRuntime) -> Result<(), Fail> {
    let alloc = rt.alloc();
    for (count, queries) in [(50, 0), (0, 1), (70, 7), (60, 70)] {
        let mut files = drawn(alloc, count, true, queries)?;
        let words = "nearest data asked --k 5 --leaf 2 --breaks bent";
        let alone = format!(in alloc; "{words} --workers 1 --queues 1")?;
        let wanted = written(&rt, alloc, &mut files, &alone)?;
        for workers in [1, 2, 3, 8, 64] {
            for (queues, form) in [(1, ""), (2, " --sealed"), (5, ""), (64, " --sealed")] {
                let line = format!(in alloc;
                    "{words} --workers {workers} --queues {queues}{form}"
                )?;
                let out = written(&rt, alloc, &mut files, &line)?;
                assert_same!(rt;
                    out.written(),
                    wanted.written(),
                    "{line}: {queries} queries"
                );
            }
        }
    }
    Ok(())
}
