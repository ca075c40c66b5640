//! Tests: worked certificates with one change each, and one text changed at every line and at every byte.
//! What each change gives was found by hand, and for the bytes by a plain slow program outside.

mod printed;

ghost use Rattle.std.specs.Prelude.{◌≡◌, IsTrue, IfSome, length};
ghost use Rattle.std.specs.Option.{option_copied};

use crate::claims::assert_same;
use breakpoints::Table;
use certificate::{CertError, Reject, check, read};
use isax_word::Layout;
use segment_sums::Cuts;
use series_core::{Flat, Rows};
use std::alloc::{AllocError, Global};
use std::process::Abort;
use std::test::Fail;

// What a certificate is found to be.
#[derive(Clone, Copy, PartialEq, Eq, Debug)]
enum Finding {
    Valid,
    Line(u64),
    Rejected(Reject),
    NoMemory,
}

// Four series of length 4, and the query (1, 1, 1, 1).
const SERIES: [i16; 16] = [0, 0, 0, 0, 10, 10, 10, 10, -10, -10, -10, -10, 0, 0, 10, 10];

const QUERY: [i16; 4] = [1, 1, 1, 1];

// The number of segments of each word.
const SEGMENTS: u32 = 2;

// Labels of the four series.
const LABELS: [u64; 4] = [100, 7, 7, 18446744073709551615];

// The nearest of the four series, in two segments.
const NEAREST: &str = "query 0\n1 0 4\nstart 1 4\nqueue 0\nqueue 1\n\
    leaf 0 word 0:1,0:1 bound 10\nleaf 1 word 1:1,1:1 scanned\n";

// Whether there is one label a series, where there are labels.
fn labels_fit(labels: Option<&[u64]>, count: usize) -> bool
    ensures { IsTrue result → IfSome (option_copied labels.entry) (λ ls. length ls ≡ count) }
{
    match labels {
        None => true,
        Some(labels) => labels.len() == count,
    }
}

// What a text is found to be, against series with labels or without, for k answers.
fn found(
    rt: &impl Abort,
    alloc: Global,
    rows: &Flat,
    queries: &Flat,
    labels: Option<&[u64]>,
    k: u32,
    text: &[u8],
) -> Finding {
    let length = rows.length();
    assert!(rt; 1 <= k && k <= 1024, "{k} answers");
    assert!(rt; queries.length() == length, "queries of another length");
    assert!(rt; SEGMENTS <= length, "short series");
    assert!(rt;
        labels_fit(labels, rows.count() as usize),
        "one label a series"
    );
    let layout = Layout {
        cuts: Cuts::new(length, SEGMENTS),
        table: Table::Flat,
    };
    match read(alloc, text, SEGMENTS, labels.is_some()) {
        Err(CertError::Line(at)) => Finding::Line(at),
        Err(CertError::NoMemory) => Finding::NoMemory,
        Ok(blocks) => match check(rows, labels, queries, k, &layout, &blocks) {
            Ok(()) => Finding::Valid,
            Err(reject) => Finding::Rejected(reject),
        },
    }
}

// Texts over the four series: for each number of answers, what each is found to be.
const TEXTS: [(u32, &str, Finding); 15] = [
    (1, NEAREST, Finding::Valid),
    (
        1,
        "query 0\n1 0 4\nstart 1 4\nqueue 0\nqueue 1\nleaf 0 word 0:1,0:1 bound 11\nleaf 1 word 1:1,1:1 scanned\n",
        Finding::Rejected(Reject::Bound(0, 0, 11, 10)),
    ),
    (
        1,
        "query 0\n1 3 4\nstart 1 4\nqueue 0\nqueue 1\nleaf 0 word 0:1,0:1 bound 10\nleaf 1 word 1:1,1:1 scanned\n",
        Finding::Rejected(Reject::Answers(0, 1)),
    ),
    (
        1,
        "query 0\n1 3 164\nstart 1 4\nqueue 0\nqueue 1\nleaf 0 word 0:1,0:1 bound 10\nleaf 1 word 1:1,1:1 scanned\n",
        Finding::Rejected(Reject::Low(0, 0, 10, 164)),
    ),
    (
        1,
        "query 0\n1 3 164\nstart 1 4\nqueue 0\nqueue 1\nleaf 0 word 0:1,0:1 scanned\nleaf 1 word 1:1,1:1 scanned\n",
        Finding::Rejected(Reject::Missed(0, 0)),
    ),
    (1, "", Finding::Rejected(Reject::Blocks(0, 1))),
    (1, "query 0\n", Finding::Line(2)),
    (
        3,
        "query 0\n1 0 4\n2 3 164\n3 1 324\nstart 1 324\nqueue 0 10:0\nqueue 1\n\
        leaf 0 word 0:1,0:1 scanned\nleaf 1 word 1:1,1:1 scanned\n",
        Finding::Valid,
    ),
    (
        9,
        "query 0\n1 0 4\n2 3 164\n3 1 324\n4 2 484\nstart 1 none\nqueue 0 10:0\nqueue 1\n\
        leaf 0 word 0:1,0:1 scanned\nleaf 1 word 1:1,1:1 scanned\n",
        Finding::Valid,
    ),
    (
        1,
        "query 1\n1 0 4\nstart 1 4\nqueue 0\nqueue 1\nleaf 0 word 0:1,0:1 bound 10\nleaf 1 word 1:1,1:1 scanned\n",
        Finding::Line(1),
    ),
    (
        1,
        "query 0\n1 0 4\nstart 1 4\nqueue 0\nqueue 1\nleaf 0 word 0:1,0:1 bound 10\nleaf 1 word 1:1,1:1 scanned",
        Finding::Line(7),
    ),
    (
        1,
        "query 0\n1 0 4\nstart 1 4\nqueue 0\nqueue 1\nleaf 0 word 2:1,0:1 bound 10\nleaf 1 word 1:1,1:1 scanned\n",
        Finding::Line(6),
    ),
    (
        1,
        "query 0\nstart 1 4\nqueue 0\nqueue 1\nleaf 0 word 0:1,0:1 bound 10\nleaf 1 word 1:1,1:1 scanned\n",
        Finding::Rejected(Reject::Answers(0, 1)),
    ),
    (
        1,
        "query 0\n1 0 4\nstart 1 4\nqueue 0\nqueue 1\n",
        Finding::Valid,
    ),
    (
        1,
        "query 0\n1 0 4\nstart 1 4\nleaf 0 word 0:1,0:1 bound 10\nleaf 1 word 1:1,1:1 scanned\n",
        Finding::Line(4),
    ),
];

#[test]
fn texts_over_four_series(rt: HostRuntime) -> Result<(), Fail> {
    let (rows, queries) = four_series(&rt, rt.alloc())?;
    for (k, text, wanted) in TEXTS {
        let now = found(&rt, rt.alloc(), &rows, &queries, None, k, text.as_bytes());
        assert_same!(rt; now, wanted, "k = {k}, {text}");
    }
    Ok(())
}

// The four series and their query.
fn four_series(rt: &impl Abort, alloc: Global) -> Result<(Flat, Flat), Fail> {
    let values = SERIES.to_vec(alloc)?;
    let query = QUERY.to_vec(alloc)?;
    assert!(rt; values.len() == 16, "sixteen values");
    assert!(rt; query.len() == 4, "four values");
    Ok((Flat::from_values(4, values), Flat::from_values(4, query)))
}

// Texts over the four series with labels, for two answers.
const LABELLED: [(&str, Finding); 3] = [
    (
        "query 0\n1 0 4 100\n2 3 164 18446744073709551615\nstart 1 164\nqueue 0 10:0\nqueue 1\n\
        leaf 0 word 0:1,0:1 scanned\nleaf 1 word 1:1,1:1 scanned\n",
        Finding::Valid,
    ),
    (
        "query 0\n1 0 4 101\n2 3 164 18446744073709551615\nstart 1 164\nqueue 0 10:0\nqueue 1\n\
        leaf 0 word 0:1,0:1 scanned\nleaf 1 word 1:1,1:1 scanned\n",
        Finding::Rejected(Reject::Answers(0, 1)),
    ),
    (
        "query 0\n1 0 4\n2 3 164 18446744073709551615\nstart 1 164\nqueue 0 10:0\nqueue 1\n\
        leaf 0 word 0:1,0:1 scanned\nleaf 1 word 1:1,1:1 scanned\n",
        Finding::Line(2),
    ),
];

#[test]
fn texts_with_labels(rt: HostRuntime) -> Result<(), Fail> {
    let (rows, queries) = four_series(&rt, rt.alloc())?;
    for (text, wanted) in LABELLED {
        let now = found(
            &rt,
            rt.alloc(),
            &rows,
            &queries,
            Some(LABELS.as_slice()),
            2,
            text.as_bytes(),
        );
        assert_same!(rt; now, wanted, "{text}");
    }
    Ok(())
}

#[test]
fn texts_of_other_series(rt: HostRuntime) -> Result<(), Fail> {
    let alloc = rt.alloc();
    let zeros = Flat::from_values(4, [0i16; 12].to_vec(alloc)?);
    let zero = Flat::from_values(4, [0i16; 4].to_vec(alloc)?);
    let uneven = Flat::from_values(5, [0i16, 0, 0, 0, 0, -1, 0, 0, 0, -1].to_vec(alloc)?);
    let ends = Flat::from_values(5, [-1i16, 0, 0, 0, -1].to_vec(alloc)?);
    let far = Flat::from_values(2, [0i16, 0, 0, 20000, 300, 0].to_vec(alloc)?);
    let corner = Flat::from_values(2, [0i16; 2].to_vec(alloc)?);
    for (rows, queries, k, text) in [
        (
            &zeros,
            &zero,
            2,
            "query 0\n1 0 0\n2 1 0\nstart 0 0\nqueue 0\nqueue 1\nleaf 0 word 128:8,128:8 scanned\n",
        ),
        (
            &uneven,
            &ends,
            1,
            "query 0\n1 1 0\nstart 0 0\nqueue 0\nqueue 1\n\
            leaf 0 word 0:1,0:1 scanned\nleaf 1 word 1:1,1:1 bound 2\n",
        ),
        (
            &far,
            &corner,
            1,
            "query 0\n1 0 0\nstart 0 0\nqueue 0\nqueue 1\nleaf 0 word 128:8,32:6 scanned\n\
            leaf 1 word 129:8,32:6 bound 65536\nleaf 2 word 1:1,3:2 bound 268435456\n",
        ),
    ] {
        let now = found(&rt, alloc, rows, queries, None, k, text.as_bytes());
        assert_same!(rt; now, Finding::Valid, "{text}");
    }
    Ok(())
}

// What is found with each line dropped, doubled, and put behind the next: `v` for valid, `A` for a wrong answer, else
// the line.
const LINES: [(&str, &str); 3] = [
    ("dropped", "1A34v6v"),
    ("doubled", "2345678"),
    ("swapped", "133466"),
];

// The text with line `i` dropped, doubled, or put behind the next.
fn changed(alloc: Global, change: &str, i: usize) -> Result<Vec<u8>, AllocError> {
    let mut text = Vec::new(alloc);
    let mut held: &[u8] = b"";
    for (j, line) in NEAREST
        .as_bytes()
        .split_inclusive(|byte| *byte == b'\n')
        .enumerate()
    {
        if j != i {
            text.extend_from_slice(line)?;
        } else if change == "doubled" {
            text.extend_from_slice(line)?;
            text.extend_from_slice(line)?;
        } else if change == "swapped" {
            held = line;
        }
        if j == i.wrapping_add(1) {
            text.extend_from_slice(held)?;
            held = b"";
        }
    }
    Ok(text)
}

#[test]
fn each_line_changed(rt: HostRuntime) -> Result<(), Fail> {
    let (rows, queries) = four_series(&rt, rt.alloc())?;
    for (change, wanted) in LINES {
        for (i, letter) in wanted.as_bytes().iter().enumerate() {
            let text = changed(rt.alloc(), change, i)?;
            let now = found(&rt, rt.alloc(), &rows, &queries, None, 1, &text);
            assert_same!(rt; letter_of(now), *letter, "line {i} {change}: {now:?}");
        }
    }
    Ok(())
}

// The letter of what is found: `v` valid, `A` answers, `B` bound, `C` blocks, `L` low, `M` missed, else the line.
fn letter_of(now: Finding) -> u8 {
    match now {
        Finding::Valid => b'v',
        Finding::Line(at) if at < 10 => b'0' + at as u8,
        Finding::Line(_) => b'?',
        Finding::Rejected(Reject::Answers(_, _)) => b'A',
        Finding::Rejected(Reject::Bound(_, _, _, _)) => b'B',
        Finding::Rejected(Reject::Blocks(_, _)) => b'C',
        Finding::Rejected(Reject::Low(_, _, _, _)) => b'L',
        Finding::Rejected(Reject::Missed(_, _)) => b'M',
        Finding::Rejected(Reject::NoMemory) | Finding::NoMemory => b'?',
    }
}

// What is found with each byte of the text in turn changed to this one.
const BYTES: [(u8, &str); 4] = [
    (
        b'7',
        "1111111122A2A2333333v3v3444444445555555566666666666666B666B6666666BB677777777777777v777v777777777",
    ),
    (
        b' ',
        "11111v112v2v2233333v3v3344444v4455555v556666v6v6666v6666666v66666v6667777v7v7777v7777777v77777777",
    ),
    (
        b':',
        "11111111222222333333333344444444555555556666666666666v666v666666666667777777777777v777v7777777777",
    ),
    (
        b'\n',
        "1111111v22222v333333333v4444444v5555555v6666666666666666666666666667v777777777777777777777777777v",
    ),
];

#[test]
fn each_byte_changed(rt: HostRuntime) -> Result<(), Fail> {
    let (rows, queries) = four_series(&rt, rt.alloc())?;
    for (byte, wanted) in BYTES {
        assert_same!(rt; wanted.len(), NEAREST.len());
        for (i, letter) in wanted.as_bytes().iter().enumerate() {
            let mut text = Vec::from_slice(rt.alloc(), NEAREST.as_bytes())?;
            if let Some(place) = text.get_mut(i) {
                *place = byte;
            }
            let now = found(&rt, rt.alloc(), &rows, &queries, None, 1, &text);
            assert_same!(rt;
                letter_of(now),
                *letter,
                "byte {i} changed to {byte}: {now:?}"
            );
        }
    }
    Ok(())
}

#[test]
fn refusals_are_told(rt: HostRuntime) -> Result<(), Fail> {
    let told: [(Reject, &str); 7] = [
        (Reject::Blocks(0, 1), "0 blocks for 1 queries"),
        (Reject::Answers(0, 1), "query 0 answer 1"),
        (Reject::Bound(0, 0, 11, 10), "query 0 leaf 0 bound 11 is 10"),
        (
            Reject::Low(0, 0, 10, 164),
            "query 0 leaf 0 bound 10 is not above 164",
        ),
        (
            Reject::Low(0, 2, 10, u64::MAX),
            "query 0 leaf 2 bound 10 is not above none",
        ),
        (Reject::Missed(0, 3), "query 0 misses 3"),
        (Reject::NoMemory, "out of memory"),
    ];
    for (reject, text) in told {
        let line = format!(in rt.alloc(); "{reject}")?;
        assert_same!(rt; line.as_str(), text);
    }
    let line = format!(in rt.alloc(); "{}", CertError::Line(7))?;
    assert_same!(rt; line.as_str(), "line 7");
    Ok(())
}
