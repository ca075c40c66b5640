//! What no clause says: worked scripts with their texts and lines, the words, scripts that are too long or fill the collection,
//! each open, read and write failing in turn, and both sides of a group inside at once.

mod fixture;

use crate::claims::assert_same;
use fixture::run_line;
use live_run::LiveStatus;
use outside::NoGate;
use run_fixture::{Meeting, Outside, SOUND};
use series_file::FileError;
use std::test::*;

// A script, its status, its text, and the number that its line tells, or 0 where there is no line.
type Row = (&'static str, LiveStatus, &'static str, u8);

const ROWS: [Row; 13] = [
    ("", LiveStatus::Done, "", 0),
    ("append A\n", LiveStatus::Done, "", 0),
    (
        "append A\nappend E\nask Q 1\n",
        LiveStatus::Done,
        "query 0 count 4\n1 0 4\n",
        0,
    ),
    (
        "append A\nappend A\nappend E\nask Q 2\n",
        LiveStatus::Done,
        "query 0 count 8\n1 0 4\n2 4 4\n",
        0,
    ),
    (
        "append A\nappend E\nask Q 1\nappend E\nask Q 1\nask Q 2\n",
        LiveStatus::Done,
        "query 0 count 4\n1 0 4\nquery 1 count 4\n1 0 4\nquery 2 count 4\n1 0 4\n2 3 164\n",
        0,
    ),
    (
        "append E\nask Q 3\n",
        LiveStatus::Done,
        "query 0 count 0\n",
        0,
    ),
    ("ask Q 1\n", LiveStatus::Script(1), "", 12),
    ("append none\nask Q 1", LiveStatus::Script(2), "", 12),
    ("append A\nask Q 0\n", LiveStatus::Script(2), "", 12),
    (
        "append A\nappend E\nask Q 1\nappend E\nask none 1\n",
        LiveStatus::Missing(5),
        "query 0 count 4\n1 0 4\n",
        3,
    ),
    (
        "append A\nappend E\nask Q 1\nask T 1\n",
        LiveStatus::Mismatch(4, 3, 4),
        "",
        6,
    ),
    ("append T\nappend A\n", LiveStatus::Mismatch(2, 4, 3), "", 6),
    (
        "append A\nappend cut\nask none 1\n",
        LiveStatus::Format(2, FileError::Truncated { at: 47, want: 48 }),
        "",
        5,
    ),
];

#[test]
fn scripts_end_as_they_should(rt: HostRuntime) -> Result<(), Fail> {
    for (script, status, text, code) in ROWS {
        let ended = run_line(&rt, rt.alloc(), "S", script.as_bytes(), SOUND, &NoGate)?;
        assert_same!(rt; ended.status, status, "{script}");
        assert_same!(rt; ended.out.written(), text.as_bytes(), "{script}");
        let told = match code {
            0 => String::new(rt.alloc()),
            _ => format!(in rt.alloc(); "isearch_live: status {code}\n")?,
        };
        assert_same!(rt; ended.err.written(), told.as_bytes(), "{script}");
    }
    Ok(())
}

#[test]
fn the_word_names_the_script(rt: HostRuntime) -> Result<(), Fail> {
    for (line, status, code) in [
        ("", LiveStatus::Usage, 2),
        (" ", LiveStatus::Usage, 2),
        ("S S", LiveStatus::Usage, 2),
        ("-S", LiveStatus::Usage, 2),
        ("none", LiveStatus::Missing(0), 3),
        ("S", LiveStatus::Done, 0),
    ] {
        let ended = run_line(&rt, rt.alloc(), line, b"append A\n", SOUND, &NoGate)?;
        assert_same!(rt; ended.status, status, "{line}");
        assert_same!(rt; ended.status.code(), code, "{line}");
        assert_same!(rt; ended.out.written().is_empty(), true, "{line}");
    }
    Ok(())
}

#[test]
fn a_script_may_be_too_long_or_fill_the_collection(rt: HostRuntime) -> Result<(), Fail> {
    let outside = Outside {
        piece: 65536,
        ..SOUND
    };
    let long = vec![in rt.alloc(); b'\n'; 1048577]?;
    let ended = run_line(&rt, rt.alloc(), "S", &long, outside, &NoGate)?;
    assert_same!(rt; ended.status, LiveStatus::Script(0), "1048577 bytes");
    let within = run_line(&rt, rt.alloc(), "S", &long[1..], outside, &NoGate)?;
    assert_same!(rt; within.status, LiveStatus::Script(1), "1048576 bytes");
    let mut script = Vec::new(rt.alloc());
    for _ in 0..1025 {
        script.extend_from_slice(b"append E\n")?;
    }
    let over = run_line(&rt, rt.alloc(), "S", &script, outside, &NoGate)?;
    assert_same!(rt; over.status, LiveStatus::Full(1024, 0), "1025 batches");
    assert_same!(rt;
        over.err.written(),
        "isearch_live: status 13\n".as_bytes(),
        "1025 batches"
    );
    Ok(())
}

// 26 bytes, whose files have 48, 16 and 24: with the ends 3, 4, 2 and 3 reads of 16 bytes. Its text has 22 bytes.
const SCRIPT: &[u8] = b"append A\nappend E\nask Q 1\n";

const TEXT: &str = "query 0 count 4\n1 0 4\n";

// The status where the opening or a read of the file of this line fails, and 4 lines are one too many.
fn fault_of(line: u32) -> LiveStatus {
    if line > 3 {
        LiveStatus::Done
    } else {
        LiveStatus::ReadFault(line)
    }
}

#[test]
fn each_open_read_and_write_may_fail(rt: HostRuntime) -> Result<(), Fail> {
    for (open, line) in [(1, 0), (2, 1), (3, 2), (4, 3), (5, 4)] {
        let outside = Outside { open, ..SOUND };
        let ended = run_line(&rt, rt.alloc(), "S", SCRIPT, outside, &NoGate)?;
        assert_same!(rt; ended.status, fault_of(line), "open {open}");
    }
    for (line, reads) in [
        (0, 1..4u64),
        (1, 4..8),
        (2, 8..10),
        (3, 10..13),
        (4, 13..15),
    ] {
        for read in reads {
            let outside = Outside { read, ..SOUND };
            let ended = run_line(&rt, rt.alloc(), "S", SCRIPT, outside, &NoGate)?;
            assert_same!(rt; ended.status, fault_of(line), "read {read}");
            let written = if line > 3 { TEXT } else { "" };
            assert_same!(rt; ended.out.written(), written.as_bytes(), "read {read}");
        }
    }
    for (write, count) in [(1, 0), (2, 4), (3, 8), (6, 20), (7, 22)] {
        let outside = Outside {
            piece: 4,
            write,
            ..SOUND
        };
        let ended = run_line(&rt, rt.alloc(), "S", SCRIPT, outside, &NoGate)?;
        let status = if write < 7 {
            LiveStatus::WriteFault
        } else {
            LiveStatus::Done
        };
        assert_same!(rt; ended.status, status, "write {write}");
        assert_same!(rt;
            ended.out.written(),
            &TEXT.as_bytes()[..count],
            "write {write}"
        );
    }
    let outside = Outside {
        tell: 2,
        open: 2,
        ..SOUND
    };
    let ended = run_line(&rt, rt.alloc(), "S", SCRIPT, outside, &NoGate)?;
    assert_same!(rt; ended.status, LiveStatus::ReadFault(1), "a failed line");
    assert_same!(rt;
        ended.err.written(),
        "isearch_live: st".as_bytes(),
        "a failed line"
    );
    Ok(())
}

#[test]
fn both_sides_of_a_group_are_inside_at_once(rt: HostRuntime) -> Result<(), Fail> {
    let gate = Meeting::new();
    let ended = run_line(&rt, rt.alloc(), "S", b"append A\nask Q 1\n", SOUND, &gate)?;
    assert_same!(rt; ended.status, LiveStatus::Done, "a group with its query");
    assert_same!(rt;
        gate.counts(),
        (1, 1, 0),
        "each side came once, and neither waited in vain"
    );
    let before = ended.out.written() == "query 0 count 0\n".as_bytes();
    let behind = ended.out.written() == TEXT.as_bytes();
    assert_same!(rt; before || behind, true, "the query came before the append or behind it");
    Ok(())
}
