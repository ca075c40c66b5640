//! What all tables share: the files that they name, and runs over them.

ghost use Rattle.std.specs.Prelude.{◌*◌, ◌<◌, ◌≤◌};
ghost use Rattle.series_core.specs.declared.rows.TheConstants.{MAX_COUNT, MAX_LENGTH, MAX_VALUES};

use crate::claims::assert_same;
use outside::{Gate, MemFiles, NoGate, NoMemory};
use random_walks::{generator, walks};
use run_fixture::{Ended, VALUES, spelled};
pub use run_fixture::{Meeting, Outside, words_of};
use search_run::{Status, run};
use series_file::write_numbered;
use std::alloc::{AllocError, Global};
use std::process::Abort;
use std::sync::Wait;
use std::test::Fail;
use std::thread::Threads;

/// The line of a run whose words are no command.
pub const NO_COMMAND: &str = "isearch: the words are not a command\n";

/// The file `A2`: `A` in version 2, with the labels 100, 7, 7 and the greatest of 64 bits.
pub const LABELLED: &[u8] = b"ISER\x02\0\0\0\x04\0\0\0\x04\0\0\0\
    \x64\0\0\0\0\0\0\0\x07\0\0\0\0\0\0\0\x07\0\0\0\0\0\0\0\xff\xff\xff\xff\xff\xff\xff\xff\
    \0\0\0\0\0\0\0\0\x0a\0\x0a\0\x0a\0\x0a\0\xf6\xff\xf6\xff\xf6\xff\xf6\xff\0\0\0\0\x0a\0\x0a\0";

/// The file `I`: the tree of `A` with two segments, as it is saved. Root child 0 has series 2, root child 3 the others.
pub const INDEX: &[u8; 58] = b"ISEX\x01\0\x02\0\x04\0\0\0\x04\0\0\0\xe8\x03\0\0\x02\0\0\0\
    \0\0\0\0\0\x01\0\0\0\x02\0\0\0\
    \x03\0\0\0\0\x03\0\0\0\0\0\0\0\x01\0\0\0\x03\0\0\0";

/// Holds the files of the tables: `A`, its query `Q` and its index `I`, `A2` with labels, other collections, and broken files.
fn hold_files(alloc: Global, files: &mut MemFiles) -> Result<(), NoMemory> {
    files.hold("A", &spelled(alloc, 4, 4, &VALUES)?)?;
    files.hold("Q", &spelled(alloc, 4, 1, &[1, 1, 1, 1])?)?;
    files.hold("I", INDEX)?;
    files.hold("A2", LABELLED)?;
    hold_collections(alloc, files)?;
    hold_raw(alloc, files)?;
    hold_headers(alloc, files)?;
    hold_changed(alloc, files)
}

/// Holds small collections: points, series of zeros, of three and of five values, three far apart, and none at all; and `A` with one value of
/// series 1 changed, so that it stays within its word, or leaves it across a breakpoint.
fn hold_collections(alloc: Global, files: &mut MemFiles) -> Result<(), NoMemory> {
    let mut values = VALUES;
    values[4] = 12;
    files.hold("inside", &spelled(alloc, 4, 4, &values)?)?;
    values[4] = -40;
    files.hold("across", &spelled(alloc, 4, 4, &values)?)?;
    files.hold("none", &spelled(alloc, 4, 0, &[])?)?;
    files.hold("nothree", &spelled(alloc, 3, 0, &[])?)?;
    files.hold("points", &spelled(alloc, 1, 2, &[-1, 1])?)?;
    files.hold("zero", &spelled(alloc, 1, 1, &[0])?)?;
    files.hold("three", &spelled(alloc, 3, 1, &[1, 1, 1])?)?;
    files.hold("zeros", &spelled(alloc, 4, 3, &[0; 12])?)?;
    files.hold("nought", &spelled(alloc, 4, 1, &[0; 4])?)?;
    let fives = [0, 0, 0, 0, 0, -1, 0, 0, 0, -1];
    files.hold("five", &spelled(alloc, 5, 2, &fives)?)?;
    files.hold("ends", &spelled(alloc, 5, 1, &[-1, 0, 0, 0, -1])?)?;
    files.hold("apart", &spelled(alloc, 2, 3, &[0, 0, 0, 20000, 300, 0])?)?;
    files.hold("corner", &spelled(alloc, 2, 1, &[0, 0])?)
}

/// Holds four files of one long series each, at the least and at the greatest value: `low` and `high` with 4096 values,
/// and without a header `lowest` and `highest` with 65536.
fn hold_long(alloc: Global, files: &mut MemFiles) -> Result<(), NoMemory> {
    for (name, longest, value) in [("low", "lowest", i16::MIN), ("high", "highest", i16::MAX)] {
        let mut bytes = b"ISER\x01\0\0\x10\x01\0\0\0\0\0\0\0".to_vec(alloc)?;
        for _ in 0..4096 {
            bytes.extend_from_slice(&value.to_le_bytes())?;
        }
        files.hold(name, &bytes)?;
        bytes.clear();
        for _ in 0..65536 {
            bytes.extend_from_slice(&value.to_le_bytes())?;
        }
        files.hold(longest, &bytes)?;
    }
    Ok(())
}

/// Holds random walks, `drawn`, and further ones as queries for them, `asked`, all with their numbers as labels.
pub fn hold_drawn(
    alloc: Global,
    files: &mut MemFiles,
    count: u32,
    queries: u32,
    length: u32,
) -> Result<(), NoMemory>
    requires length { (0 < length) × (length ≤ MAX_LENGTH) }
    requires count { (count ≤ MAX_COUNT) × (count * length ≤ MAX_VALUES) }
    requires queries { (queries ≤ MAX_COUNT) × (queries * length ≤ MAX_VALUES) }
{
    let mut rng = generator(7);
    let series = walks(alloc, &mut rng, count, length)?;
    let queries = walks(alloc, &mut rng, queries, length)?;
    files.hold("drawn", &write_numbered(alloc, &series)?)?;
    files.hold("asked", &write_numbered(alloc, &queries)?)
}

/// Holds files without a header: a few values, a longer series, and an odd number of bytes; and queries for windows of the
/// longer series; three points.
fn hold_raw(alloc: Global, files: &mut MemFiles) -> Result<(), NoMemory> {
    files.hold("long", b"\0\0\0\0\x0a\0\x0a\0\0\0")?;
    files.hold("ones", &spelled(alloc, 2, 1, &[1; 2])?)?;
    files.hold("wide", &spelled(alloc, 6, 1, &[1; 6])?)?;
    files.hold("steps", b"\0\0\x05\0\x0a\0")?;
    files.hold("raw", b"\x01\0\x01\0\x01\0\x01\0")?;
    files.hold("seven", b"\x01\0\x01\0\x01\0\x01")?;
    files.hold("empty", b"")
}

/// Holds headers that are refused before any value.
fn hold_headers(alloc: Global, files: &mut MemFiles) -> Result<(), NoMemory> {
    files.hold("huge", &spelled(alloc, 4096, 1048576, &[])?)?;
    files.hold("nolength", &spelled(alloc, 0, 1048577, &[])?)?;
    files.hold("many", b"ISER\x01\0\x04\0\x01\0\0\x01\x01\0\0\0")?;
    files.hold("reserved", b"ISER\x01\0\x04\0\x04\0\0\0\x01\0\0\0")?;
    files.hold("version3", b"ISER\x03\0\x04\0\x01\0\0\x01\x01\0\0\0")?;
    files.hold("A2long", b"ISER\x02\0\0\0\x01\0\x01\0\x01\0\0\0")?;
    files.hold("notseries", b"ISEX\x01\0\x04\0\x01\0\0\0\0\0\0\0")
}

/// Holds files with their last byte cut off, with one byte more, with a header that is cut or changed.
fn hold_changed(alloc: Global, files: &mut MemFiles) -> Result<(), NoMemory> {
    let mut bytes = spelled(alloc, 4, 4, &VALUES)?;
    bytes.push(0)?;
    files.hold("longer", &bytes)?;
    bytes.truncate(47);
    files.hold("shorter", &bytes)?;
    bytes.truncate(15);
    files.hold("first15", &bytes)?;
    let mut labelled = LABELLED.to_vec(alloc)?;
    labelled.push(0)?;
    files.hold("A2longer", &labelled)?;
    labelled.truncate(79);
    files.hold("A2shorter", &labelled)?;
    if let Some(reserved) = labelled.get_mut(6) {
        *reserved = 1;
    }
    files.hold("A2reserved", &labelled)
}

/// The files of the tables and a certificate `C`, as this outside gives them. The long series and the drawn ones
/// are held where the line names one.
pub fn files_of(
    alloc: Global,
    line: &str,
    certificate: &[u8],
    outside: Outside,
) -> Result<MemFiles, NoMemory> {
    let mut files = outside.files(alloc)?;
    hold_files(alloc, &mut files)?;
    files.hold("C", certificate)?;
    if line.contains("low") {
        hold_long(alloc, &mut files)?;
    }
    if line.contains("drawn") {
        hold_drawn(alloc, &mut files, 60, 3, 8)?;
    }
    Ok(files)
}

/// Runs the words of a line over the files of the tables and a certificate `C`, with this outside and gate.
pub fn run_line<T: Threads + Wait + Sync, G: Gate + Sync>(
    rt: &T,
    alloc: Global,
    line: &str,
    certificate: &[u8],
    outside: Outside,
    gate: &G,
) -> Result<Ended<Status>, Fail> {
    let mut files = files_of(alloc, line, certificate, outside)?;
    let words = words_of(alloc, line)?;
    let (mut out, mut err) = outside.sinks(alloc)?;
    let status = run(rt, alloc, &words, &mut files, &mut out, &mut err, gate);
    Ok(Ended { status, out, err })
}

/// Runs words over a file `C` of these bytes, and compares the status and what was written.
pub fn ends_with<H: Threads + Wait + Abort + Sync>(
    rt: &H,
    alloc: Global,
    line: &str,
    file: &[u8],
    outside: Outside,
    wanted: (Status, &[u8]),
) -> Result<Ended<Status>, Fail> {
    let (status, text) = wanted;
    let ended = run_line(rt, alloc, line, file, outside, &NoGate)?;
    assert_same!(rt; ended.status, status, "{line}, {outside:?}");
    assert_same!(rt; ended.out.written(), text, "{line}, {outside:?}");
    Ok(ended)
}

/// The same with pieces of `piece` bytes where nothing fails. It compares the line that is told too.
pub fn tells<H: Threads + Wait + Abort + Sync>(
    rt: &H,
    alloc: Global,
    line: &str,
    file: &[u8],
    piece: usize,
    wanted: (Status, &str, &str),
) -> Result<(), Fail> {
    let (status, text, told) = wanted;
    let wanted = (status, text.as_bytes());
    let ended = ends_with(rt, alloc, line, file, Outside::sound(piece), wanted)?;
    assert_same!(rt;
        ended.err.written(),
        told.as_bytes(),
        "{line}, pieces of {piece}"
    );
    Ok(())
}

/// The lines of a field of a table, in which a `/` stands for a line feed.
pub fn lines_of(alloc: Global, field: &str) -> Result<String, AllocError> {
    let mut lines = String::new(alloc);
    for (i, line) in field.split('/').enumerate() {
        if i > 0 {
            lines.push('\n')?;
        }
        lines.push_str(line)?;
    }
    Ok(lines)
}

/// The three fields of a row of a table, which `|` parts.
pub fn fields_of(row: &str) -> Option<(&str, &str, &str)> {
    let (first, rest) = row.split_once('|')?;
    let (second, third) = rest.split_once('|')?;
    Some((first, second, third))
}
