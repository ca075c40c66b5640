//! The tree of a collection, saved as bytes, and searches over a saved index: what they write, and each fault that is reported.

use crate::claims::assert_same;
use crate::tests::fixture::{INDEX, Outside, ends_with, run_line, tells};
use outside::{NoGate, NoMemory};
use saved_index::IndexFault;
use search_run::{Status, Which};
use series_file::FileError;
use std::alloc::Global;
use std::test::Fail;

// Words, and the bytes that they write.
const SAVED: [(&str, &[u8]); 4] = [
    ("save A --segments 2", INDEX),
    ("save A2 --segments 2 --workers 1", INDEX),
    (
        "save none --segments 3 --leaf 65535",
        b"ISEX\x01\0\x03\0\x04\0\0\0\0\0\0\0\xff\xff\0\0\0\0\0\0",
    ),
    (
        "save --raw 4 raw --leaf 1 --breaks bent",
        b"ISEX\x01\0\x04\x01\x04\0\0\0\x01\0\0\0\x01\0\0\0\x01\0\0\0\
            \x0f\0\0\0\0\x01\0\0\0\0\0\0\0",
    ),
];

#[test]
fn trees_are_saved(rt: HostRuntime) -> Result<(), Fail> {
    for piece in [1, 7, 4096] {
        for (line, text) in SAVED {
            let outside = Outside::sound(piece);
            ends_with(&rt, rt.alloc(), line, b"", outside, (Status::Done, text))?;
        }
    }
    Ok(())
}

// The index of `A` with these bytes changed, up to a place.
fn changed(alloc: Global, changes: &[(usize, u8)], end: usize) -> Result<Vec<u8>, NoMemory> {
    let mut bytes = INDEX.to_vec(alloc)?;
    for (place, byte) in changes {
        if let Some(old) = bytes.get_mut(*place) {
            *old = *byte;
        }
    }
    bytes.truncate(end);
    Ok(bytes)
}

// Changes of the index of `A`, the place where it ends, words that search over it, and their text. The member of root child 0
// stands at byte 33, those of root child 3 at 46, 50 and 54.
const SEARCHES: [(&[(usize, u8)], usize, (&str, &str)); 4] = [
    (
        &[],
        58,
        (
            "nearest A Q --k 3 --index C",
            "query 0\n1 0 4\n2 3 164\n3 1 324\n",
        ),
    ),
    (
        &[],
        58,
        (
            "nearest A2 Q --k 2 --index C --sealed --workers 2 --queues 3",
            "query 0\n1 0 4 100\n2 3 164 18446744073709551615\n",
        ),
    ),
    (&[], 58, ("nearest A none --index C", "")),
    (
        &[],
        58,
        (
            "nearest inside Q --k 3 --index C",
            "query 0\n1 0 4\n2 3 164\n3 1 364\n",
        ),
    ),
];

// The same where the index, or a file, is refused, with the status and the line.
const UNFIT: [(&[(usize, u8)], usize, (&str, Status, &str)); 10] = [
    (
        &[],
        58,
        (
            "nearest across Q --index C",
            Status::Index(IndexFault::Unfit(1)),
            "isearch: index: series 1 does not fit\n",
        ),
    ),
    (
        &[(33, 3)],
        58,
        (
            "nearest A Q --index C",
            Status::Index(IndexFault::Unfit(2)),
            "isearch: index: series 2 does not fit\n",
        ),
    ),
    (
        &[(33, 1), (50, 2)],
        58,
        (
            "nearest A Q --index C",
            Status::Index(IndexFault::Unfit(1)),
            "isearch: index: series 1 does not fit\n",
        ),
    ),
    (
        &[],
        57,
        (
            "nearest A Q --index C",
            Status::Index(IndexFault::NotIndex),
            "isearch: index: not an index\n",
        ),
    ),
    (
        &[],
        0,
        (
            "nearest A Q --index C",
            Status::Index(IndexFault::NotIndex),
            "isearch: index: not an index\n",
        ),
    ),
    (
        &[],
        58,
        (
            "nearest zeros Q --index C",
            Status::Index(IndexFault::Count(4, 3)),
            "isearch: index: count 4 is not 3\n",
        ),
    ),
    (
        &[],
        58,
        (
            "nearest five ends --index C",
            Status::Index(IndexFault::Length(4, 5)),
            "isearch: index: length 4 is not 5\n",
        ),
    ),
    (
        &[],
        58,
        (
            "nearest A Q --index nobody",
            Status::Missing(Which::Index),
            "isearch: index: no such file\n",
        ),
    ),
    (
        &[],
        57,
        (
            "nearest A three --index C",
            Status::Mismatch(4, 3),
            "isearch: lengths differ: 4 and 3\n",
        ),
    ),
    (
        &[],
        57,
        (
            "nearest A nobody --index C",
            Status::Missing(Which::Queries),
            "isearch: queries: no such file\n",
        ),
    ),
];

#[test]
fn searches_over_a_saved_index(rt: HostRuntime) -> Result<(), Fail> {
    for piece in [1, 7, 4096] {
        for (changes, end, (line, text)) in SEARCHES {
            let file = changed(rt.alloc(), changes, end)?;
            tells(
                &rt,
                rt.alloc(),
                line,
                &file,
                piece,
                (Status::Done, text, ""),
            )?;
        }
        for (changes, end, (line, status, told)) in UNFIT {
            let file = changed(rt.alloc(), changes, end)?;
            tells(&rt, rt.alloc(), line, &file, piece, (status, "", told))?;
        }
    }
    let fault = Status::Index(IndexFault::NotIndex);
    assert_same!(rt; fault.code(), 11, "the number of a fault of an index");
    Ok(())
}

#[test]
fn a_tree_that_is_saved_and_loaded_answers_as_one_that_is_built(
    rt: HostRuntime,
) -> Result<(), Fail> {
    let sound = Outside::sound(16);
    for settings in [
        "--segments 4 --leaf 3",
        "--segments 8 --leaf 1 --breaks bent",
        "--leaf 60",
    ] {
        let line = format!(in rt.alloc(); "save drawn {settings}")?;
        let saved = run_line(&rt, rt.alloc(), &line, b"", sound, &NoGate)?;
        assert_same!(rt; saved.status, Status::Done, "{line}");
        for search in ["", " --sealed", " --workers 1"] {
            let line = format!(in rt.alloc(); "nearest drawn asked --k 5{search} {settings}")?;
            let built = run_line(&rt, rt.alloc(), &line, b"", sound, &NoGate)?;
            let line = format!(in rt.alloc(); "nearest drawn asked --k 5{search} --index C")?;
            let loaded = run_line(&rt, rt.alloc(), &line, saved.out.written(), sound, &NoGate)?;
            assert_same!(rt; built.status, Status::Done, "{line}, {settings}");
            assert_same!(rt; loaded.status, Status::Done, "{line}, {settings}");
            assert_same!(rt; built.out.written().is_empty(), false, "{line}, {settings}");
            assert_same!(rt;
                loaded.out.written(),
                built.out.written(),
                "{line}, {settings}"
            );
        }
    }
    Ok(())
}
