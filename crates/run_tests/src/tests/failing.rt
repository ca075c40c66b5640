//! Runs whose outside fails at one place: each open, each read and each write in turn, until none is left. What was written
//! before is a beginning of the right text.

use crate::claims::assert_same;
use crate::tests::fixture::{Outside, ends_with, run_line};
use outside::NoGate;
use run_fixture::Ended;
use saved_index::IndexFault;
use search_run::{Status, Which};
use std::alloc::Global;
use std::process::Abort;
use std::sync::Wait;
use std::test::Fail;
use std::thread::Threads;

// Words of each command that reads files, how many reads its files take in pieces of 16 bytes with their ends (the series, the
// queries, the certificate, the index), and its text.
const COMMANDS: [(&str, [u64; 4], &str); 8] = [
    ("nearest A Q", [4, 3, 0, 0], "query 0\n1 0 4\n"),
    ("nearest A Q --sealed", [4, 3, 0, 0], "query 0\n1 0 4\n"),
    (
        "nearest A Q --segments 2 --certificate --workers 1",
        [4, 3, 0, 0],
        CERTIFICATE,
    ),
    (
        "nearest A Q --segments 2 --certificate --workers 1 --sealed",
        [4, 3, 0, 0],
        CERTIFICATE,
    ),
    (
        "nearest A2 Q --k 2 --segments 2 --leaf 1",
        [6, 3, 0, 0],
        "query 0\n1 0 4 100\n2 3 164 18446744073709551615\n",
    ),
    ("range A Q 164", [4, 3, 0, 0], "query 0\n1 0 4\n2 3 164\n"),
    ("verify A Q C --segments 2", [4, 3, 8, 0], "valid\n"),
    ("nearest A Q --index I", [4, 3, 0, 5], "query 0\n1 0 4\n"),
];

// A certificate of the nearest of the four series: 97 bytes.
const CERTIFICATE: &str = "query 0\n1 0 4\nstart 1 4\nqueue 0\nqueue 1\n\
    leaf 0 word 0:1,0:1 bound 10\nleaf 1 word 1:1,1:1 scanned\n";

// The status where read number `read` fails, of files that take these numbers of reads.
fn status_of(read: u64, reads: [u64; 4]) -> Status {
    let [series, queries, certificate, index] = reads;
    let mut left = read;
    for (count, which) in [
        (series, Which::Series),
        (queries, Which::Queries),
        (certificate, Which::Certificate),
        (index, Which::Index),
    ] {
        if left <= count {
            return Status::ReadFault(which);
        }
        left = left.saturating_sub(count);
    }
    Status::Done
}

// What is written of a text where the run ends so: all of it, or nothing.
fn text_at(status: Status, text: &str) -> &[u8] {
    if status == Status::Done {
        text.as_bytes()
    } else {
        b""
    }
}

// Runs words over a file `C` of the certificate, and compares the status and what was written.
fn ends_over<H: Threads + Wait + Abort + Sync>(
    rt: &H,
    alloc: Global,
    line: &str,
    outside: Outside,
    wanted: (Status, &[u8]),
) -> Result<Ended<Status>, Fail> {
    ends_with(rt, alloc, line, CERTIFICATE.as_bytes(), outside, wanted)
}

// The same where all of a text or nothing is written, as the status tells.
fn ends_as<H: Threads + Wait + Abort + Sync>(
    rt: &H,
    alloc: Global,
    line: &str,
    outside: Outside,
    status: Status,
    text: &str,
) -> Result<Ended<Status>, Fail> {
    ends_over(rt, alloc, line, outside, (status, text_at(status, text)))
}

// Files in pieces of `piece` bytes whose read of this number fails.
fn read_fails(read: u64, piece: usize) -> Outside {
    Outside {
        read,
        ..Outside::sound(piece)
    }
}

#[test]
fn each_read_may_fail(rt: HostRuntime) -> Result<(), Fail> {
    for (line, reads, text) in COMMANDS {
        for read in 1..=20u64 {
            let outside = read_fails(read, 16);
            ends_as(&rt, rt.alloc(), line, outside, status_of(read, reads), text)?;
        }
    }
    Ok(())
}

// Which of the files a failed read is of, in the order in which they are read; 4 where no read failed.
fn place_of(status: Status) -> Option<u32> {
    match status {
        Status::ReadFault(Which::Series) => Some(0),
        Status::ReadFault(Which::Queries) => Some(1),
        Status::ReadFault(Which::Certificate) => Some(2),
        Status::ReadFault(Which::Index) => Some(3),
        Status::Done => Some(4),
        _ => None,
    }
}

// Runs of one line of words over pieces of so many bytes, each of which fails at a later place, until nothing fails.
#[derive(Drop)]
struct Turns<'a, H> {
    rt: &'a H,
    alloc: Global,
    line: &'a str,
    // What is written where nothing fails.
    text: &'a str,
    piece: usize,
}

impl<H: Threads + Wait + Abort + Sync> Turns<'_, H> {
    // Each read fails in turn.
    fn reads_fail(&self) -> Result<(), Fail> {
        let line = self.line;
        let mut last = Some(0);
        for read in 1..=200u64 {
            let outside = read_fails(read, self.piece);
            let certificate = CERTIFICATE.as_bytes();
            let ended = run_line(self.rt, self.alloc, line, certificate, outside, &NoGate)?;
            let place = place_of(ended.status);
            assert!(self.rt; last <= place, "{line}, {outside:?}");
            last = place;
            let written = text_at(ended.status, self.text);
            assert_same!(self.rt; ended.out.written(), written, "{line}, {outside:?}");
            if place == Some(4) {
                break;
            }
        }
        assert_same!(self.rt; last, Some(4), "{line}: no read of {} is left", self.piece);
        Ok(())
    }

    // Each write fails in turn, up to one more than the text takes.
    fn writes_fail(&self) -> Result<(), Fail> {
        let text = self.text.as_bytes();
        for write in 1..=text.len().div_ceil(self.piece.max(1)).saturating_add(1) {
            let outside = Outside {
                write: write as u64,
                ..Outside::sound(self.piece)
            };
            let before = write.saturating_sub(1).saturating_mul(self.piece);
            let status = if before < text.len() {
                Status::WriteFault
            } else {
                Status::Done
            };
            let written = &text[..before.min(text.len())];
            ends_over(self.rt, self.alloc, self.line, outside, (status, written))?;
        }
        Ok(())
    }
}

#[test]
fn each_open_may_fail(rt: HostRuntime) -> Result<(), Fail> {
    for (line, reads, text) in COMMANDS {
        for open in 1..=4u64 {
            let outside = Outside {
                open,
                ..Outside::sound(16)
            };
            let [_, _, certificate, index] = reads;
            let status = match open {
                1 => Status::ReadFault(Which::Series),
                2 => Status::ReadFault(Which::Queries),
                3 if certificate > 0 => Status::ReadFault(Which::Certificate),
                3 if index > 0 => Status::ReadFault(Which::Index),
                _ => Status::Done,
            };
            ends_as(&rt, rt.alloc(), line, outside, status, text)?;
        }
    }
    Ok(())
}

#[test]
fn each_read_and_each_write_of_a_piece_may_fail(rt: HostRuntime) -> Result<(), Fail> {
    for (line, _, text) in COMMANDS {
        for piece in [1, 2, 4, 7, 16] {
            let turns = Turns {
                rt: &rt,
                alloc: rt.alloc(),
                line,
                text,
                piece,
            };
            turns.reads_fail()?;
            turns.writes_fail()?;
        }
    }
    Ok(())
}

#[test]
fn a_line_that_is_not_told_changes_no_status(rt: HostRuntime) -> Result<(), Fail> {
    let table = [
        ("nearest A three", Status::Mismatch(4, 3)),
        ("nearest A nothree", Status::Mismatch(4, 3)),
        ("nearest A Q --segments 5", Status::Settings(5, 4)),
        ("nearest A nobody", Status::Missing(Which::Queries)),
        ("nearest A Q --index nobody", Status::Missing(Which::Index)),
        (
            "nearest zeros Q --index I",
            Status::Index(IndexFault::Count(4, 3)),
        ),
        ("", Status::Usage),
    ];
    for (line, status) in table {
        let outside = Outside {
            tell: 1,
            ..Outside::sound(1000)
        };
        let wanted = (status, [].as_slice());
        let ended = ends_over(&rt, rt.alloc(), line, outside, wanted)?;
        assert_same!(rt; ended.err.written().is_empty(), true, "{line}");
    }
    Ok(())
}
