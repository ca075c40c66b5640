//! The forms in memory as tables: caps, calls that fail, and what is left behind.
ghost use Rattle.std.specs.Prelude.{◌≤◌};

use crate::claims::assert_same;
use outside::{
    AllError, Failed, Files, Gate, MemFiles, MemSink, NoGate, NoMemory, OpenFault, Sink, read_all,
    write_whole,
};
use std::alloc::Global;
use std::test::Fail;

const TEXT: &[u8] = b"query 0\n1 0 4\n";

/// Files with one held, named `a`, of fourteen bytes.
fn one_file(
    alloc: Global,
    cap: usize,
    fail_opens: &[u64],
    fail_reads: &[u64],
) -> Result<MemFiles, NoMemory>
    requires { 1 ≤ cap }
{
    let opens = fail_opens.to_vec(alloc)?;
    let reads = fail_reads.to_vec(alloc)?;
    let mut files = MemFiles::new(alloc, cap, opens, reads);
    files.hold("a", b"other")?;
    files.hold("a", TEXT)?;
    Ok(files)
}

#[test]
fn opens_what_is_held(rt: HostRuntime) -> Result<(), Fail> {
    let mut files = one_file(rt.alloc(), 4, &[2], &[])?;
    let table = [
        ("a", Ok(())),
        ("a", Err(OpenFault::Failed)),
        ("b", Err(OpenFault::Absent)),
        ("a", Ok(())),
    ];
    for (name, want) in table {
        assert_same!(rt; files.open_file(name), want, "open {name}");
    }
    Ok(())
}

/// Whether nothing is read before the file is opened, and then the first `want` bytes into room for `room`.
fn are_pieces(files: &mut MemFiles, room: usize, want: usize) -> bool
    requires { room ≤ 20 }
{
    let mut buf = [0u8; 20];
    let closed = files.read(&mut buf) == Ok(0);
    let opened = files.open_file("a") == Ok(());
    let read = files.read(&mut buf[..room]) == Ok(want);
    closed && opened && read && buf.get(..want) == TEXT.get(..want)
}

#[test]
fn reads_in_pieces(rt: HostRuntime) -> Result<(), Fail> {
    let alloc = rt.alloc();
    for (cap, room, want) in [(1, 9, 1), (4, 9, 4), (9, 4, 4), (20, 20, 14), (4, 0, 0)] {
        assert!(rt; cap >= 1 && room <= 20);
        let mut files = one_file(alloc, cap, &[], &[])?;
        let pieces = are_pieces(&mut files, room, want);
        assert_same!(rt; pieces, true, "cap {cap}, room {room}");
    }
    Ok(())
}

/// Whether all of the text is read, or else this fault is given; None where neither is so.
fn whole_or(alloc: Global, files: &mut MemFiles, limit: u64, fault: AllError) -> Option<bool> {
    match read_all(alloc, files, limit) {
        Ok(bytes) if bytes.as_slice() == TEXT => Some(true),
        Err(found) if found == fault => Some(false),
        _ => None,
    }
}

#[test]
fn reads_whole_up_to_a_limit(rt: HostRuntime) -> Result<(), Fail> {
    let alloc = rt.alloc();
    for (cap, limit, want) in [(1, 14, true), (5, 15, true), (20, 13, false), (3, 0, false)] {
        assert!(rt; cap >= 1);
        let mut files = one_file(alloc, cap, &[], &[])?;
        files.open_file("a")?;
        let read = whole_or(alloc, &mut files, limit, AllError::Longer);
        assert_same!(rt; read, Some(want), "limit {limit}");
        let mut rest = [0u8; 1];
        let ended = files.read(&mut rest) == Ok(0);
        assert_same!(rt; ended, want || limit == 13, "limit {limit}");
    }
    Ok(())
}

#[test]
fn a_listed_read_fails(rt: HostRuntime) -> Result<(), Fail> {
    let alloc = rt.alloc();
    // Fourteen bytes in pieces of four are four reads, and their end is a fifth.
    for (listed, fails) in [(1, true), (2, true), (4, true), (5, true), (7, false)] {
        let mut files = one_file(alloc, 4, &[], &[listed])?;
        files.open_file("a")?;
        let read = whole_or(alloc, &mut files, 99, AllError::ReadFault);
        assert_same!(rt; read, Some(!fails), "read {listed}");
        let mut rest = [0u8; 1];
        assert_same!(rt;
            files.read(&mut rest),
            Ok(0),
            "after read {listed} nothing is left"
        );
    }
    Ok(())
}

/// Whether the first `want` bytes of the text are written, and all of them only where nothing was refused.
fn is_written(sink: &mut MemSink, want: usize) -> bool {
    let whole = write_whole(sink, TEXT) == Ok(());
    whole == (want == 14) && TEXT.get(..want) == Some(sink.written())
}

#[test]
fn writes_in_pieces(rt: HostRuntime) -> Result<(), Fail> {
    let alloc = rt.alloc();
    // Fourteen bytes in pieces of four are four writes; a fifth is never made.
    let table = [
        (99, 1, 0),
        (99, 2, 4),
        (99, 3, 8),
        (99, 4, 12),
        (99, 5, 14),
        (14, 9, 14),
        (13, 9, 13),
        (0, 9, 0),
    ];
    for (room, listed, want) in table {
        let mut sink = MemSink::new(alloc, room, 4, [listed].to_vec(alloc)?)?;
        let written = is_written(&mut sink, want);
        assert_same!(rt; written, true, "room {room}, write {listed}");
    }
    Ok(())
}

#[test]
fn an_empty_write_finds_room(rt: HostRuntime) -> Result<(), Fail> {
    let mut sink = MemSink::new(rt.alloc(), 0, 4, Vec::new(rt.alloc()))?;
    assert_same!(rt; sink.write(&[]), Ok(0));
    assert_same!(rt; sink.write(&[1]), Err(Failed));
    Ok(())
}

/// A gate that threads share.
fn pass_shared<G: Gate + Sync>(gate: &G) {
    gate.pass(0, 0);
}

#[test]
fn the_gate_of_the_program_opens(rt: HostRuntime) {
    pass_shared(&NoGate);
    assert!(rt; true);
}
