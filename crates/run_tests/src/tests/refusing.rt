//! Runs of the commands that are refused, as tables by the status and the line that they end with. They write nothing.

use crate::tests::fixture::tells;
use search_run::{Status, Which};
use series_file::FileError;
use std::test::Fail;

// A file whose last byte is cut off.
const SHORTER: FileError = FileError::Truncated { at: 47, want: 48 };

// The status where that is the file of the series.
const SHORTER_DATA: Status = Status::Format(Which::Series, SHORTER);

// The status where a raw file of seven bytes is the file of the series.
const UNEVEN_DATA: Status = Status::Format(Which::Series, FileError::Uneven(7));

// The status where it is the file of the queries.
const UNEVEN_QUERIES: Status = Status::Format(Which::Queries, FileError::Uneven(7));

// Statuses of runs that are refused, what the error stream tells of each behind the name of the program, and words of runs that end so.
const REFUSED: [(Status, &str, &[&str]); 9] = [
    (
        Status::Mismatch(4, 3),
        "lengths differ: 4 and 3",
        &[
            "nearest A nothree",
            "nearest A three",
            "nearest A three --segments 5",
            "range A three 5",
            "verify A three nobody",
        ],
    ),
    (
        Status::Missing(Which::Queries),
        "queries: no such file",
        &[
            "nearest A nobody",
            "range A nobody 5",
            "verify A nobody nobody",
            "windows long absent 1",
        ],
    ),
    (
        UNEVEN_DATA,
        "data: 7 bytes are no whole number of series",
        &[
            "nearest seven seven --raw 2",
            "convert seven --raw 2",
            "windows seven ones 1",
        ],
    ),
    (
        UNEVEN_QUERIES,
        "queries: 7 bytes are no whole number of series",
        &["nearest A seven --raw 4"],
    ),
    (
        Status::Missing(Which::Series),
        "data: no such file",
        &[
            "nearest  Q",
            "nearest nobody Q",
            "convert nobody",
            "save nobody",
            "discord nobody",
        ],
    ),
    (
        Status::Settings(5, 4),
        "5 segments are more than length 4",
        &[
            "nearest A Q --segments 5",
            "range A Q 5 --segments 5",
            "verify A Q nobody --segments 5",
            "save A --segments 5",
            "discord A --segments 5",
        ],
    ),
    (
        Status::Missing(Which::Certificate),
        "certificate: no such file",
        &["verify A Q nobody"],
    ),
    (
        SHORTER_DATA,
        "data: ends at byte 47 of 48",
        &["save shorter --segments 5"],
    ),
    (
        Status::Settings(3, 2),
        "3 segments are more than length 2",
        &["windows long ones 1 --segments 3"],
    ),
];

#[test]
fn refusals_end_as_they_should(rt: HostRuntime) -> Result<(), Fail> {
    let alloc = rt.alloc();
    for (status, cause, lines) in REFUSED {
        let told = format!(in alloc; "isearch: {cause}\n")?;
        for line in lines {
            for piece in [1, 2, 7, 16, 4096] {
                tells(&rt, alloc, line, b"", piece, (status, "", told.as_str()))?;
            }
        }
    }
    Ok(())
}

// Files that are refused, why, and how the line says it.
const FAULTY: [(&str, FileError, &str); 14] = [
    (
        "first15",
        FileError::ShortHeader(15),
        "header ends at byte 15",
    ),
    (
        "A2shorter",
        FileError::Truncated { at: 79, want: 80 },
        "ends at byte 79 of 80",
    ),
    ("A2longer", FileError::Trailing(80), "bytes after 80"),
    ("A2reserved", FileError::Reserved(1), "reserved 1"),
    ("shorter", SHORTER, "ends at byte 47 of 48"),
    ("longer", FileError::Trailing(48), "bytes after 48"),
    ("empty", FileError::ShortHeader(0), "header ends at byte 0"),
    (
        "huge",
        FileError::TooLarge(4294967296),
        "too large 4294967296",
    ),
    ("nolength", FileError::Length(0), "length 0"),
    ("A2long", FileError::Length(65537), "length 65537"),
    ("many", FileError::Count(16777217), "count 16777217"),
    ("reserved", FileError::Reserved(1), "reserved 1"),
    ("version3", FileError::Version(3), "version 3"),
    ("notseries", FileError::Magic, "not a series file"),
];

#[test]
fn faulty_files_are_refused_in_each_place(rt: HostRuntime) -> Result<(), Fail> {
    let alloc = rt.alloc();
    for piece in [1, 7, 4096] {
        for (file, fault, cause) in FAULTY {
            for (front, back, which, place) in [
                ("nearest ", " Q", Which::Series, "data"),
                ("nearest A ", "", Which::Queries, "queries"),
                ("convert ", "", Which::Series, "data"),
            ] {
                let line = format!(in alloc; "{front}{file}{back}")?;
                let told = format!(in alloc; "isearch: {place}: {cause}\n")?;
                let wanted = (Status::Format(which, fault), "", told.as_str());
                tells(&rt, alloc, &line, b"", piece, wanted)?;
            }
        }
    }
    Ok(())
}
