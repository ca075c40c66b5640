//! Calls as C makes them: worked rows against the nearest that a hand finds, shares, texts, each refusal in its order, and what is freed.
mod claims;

use crate::building::{isearch_build, isearch_free, isearch_share};
use crate::searching::{isearch_nearest, isearch_within};
use crate::settings::IsearchSettings;
use crate::slot::IsearchIndex;
use crate::texts::{isearch_load, isearch_save};
use crate::windows::isearch_windows;
use claims::assert_same;
use std::alloc::Global;
use std::test::*;

const ROWS: [i16; 16] = [0, 0, 0, 0, 10, 10, 10, 10, -10, -10, -10, -10, 0, 0, 10, 10];

const SETTINGS: IsearchSettings = IsearchSettings {
    length: 4,
    segments: 4,
    leaf: 2,
    bent: true,
};

const NO_DISTANCE: u64 = u64::MAX;

const NO_NUMBER: u32 = u32::MAX;

/// A handle with the index of the rows.
fn built(alloc: Global) -> Result<IsearchIndex, Fail> {
    let mut index = IsearchIndex::empty(alloc);
    if isearch_build(&mut index, &ROWS, &SETTINGS, alloc) != 0 {
        return Err(Fail::new("build"));
    }
    Ok(index)
}

/// What a search answers: its status, and what stands in the places for distances and for numbers.
#[derive(Drop)]
struct Answer {
    status: i32,
    distances: Vec<u64>,
    numbers: Vec<u32>,
}

impl Answer {
    /// The three of them, to be compared.
    fn parts(&self) -> (i32, &[u64], &[u32]) {
        (
            self.status,
            self.distances.as_slice(),
            self.numbers.as_slice(),
        )
    }
}

/// The k nearest to these queries, where there are so many places.
fn nearest(
    alloc: Global,
    index: &mut IsearchIndex,
    queries: &[i16],
    k: u32,
    places: usize,
) -> Result<Answer, Fail> {
    let mut distances = vec![in alloc; 7u64; places]?;
    let mut numbers = vec![in alloc; 7u32; places]?;
    let status = isearch_nearest(
        index,
        alloc,
        queries,
        k,
        distances.as_mut_slice(),
        numbers.as_mut_slice(),
    );
    Ok(Answer {
        status,
        distances,
        numbers,
    })
}

#[test]
fn the_nearest_of_two_queries(rt: HostRuntime) -> Result<(), Fail> {
    let alloc = rt.alloc();
    let mut index = built(alloc)?;
    let queries = [1, 1, 1, 1, 9, 9, 9, 9];
    let distances = [
        4,
        164,
        324,
        484,
        NO_DISTANCE,
        4,
        164,
        324,
        1444,
        NO_DISTANCE,
    ];
    let numbers = [0, 3, 1, 2, NO_NUMBER, 1, 3, 0, 2, NO_NUMBER];
    let found = nearest(alloc, &mut index, &queries, 5, 10)?;
    assert_same!(rt; found.parts(), (0, distances.as_slice(), numbers.as_slice()), "nearest");
    isearch_free(&mut index, alloc);
    Ok(())
}

#[test]
fn a_share_outlives_the_first_handle(rt: HostRuntime) -> Result<(), Fail> {
    let alloc = rt.alloc();
    let mut index = IsearchIndex::empty(alloc);
    let mut other = IsearchIndex::empty(alloc);
    assert_same!(rt;
        isearch_share(&mut index, &mut other, alloc),
        1,
        "none to share"
    );
    assert_same!(rt;
        isearch_build(&mut index, &ROWS, &SETTINGS, alloc),
        0,
        "build"
    );
    assert_same!(rt;
        isearch_build(&mut index, &ROWS, &SETTINGS, alloc),
        2,
        "build twice"
    );
    assert_same!(rt; isearch_share(&mut index, &mut other, alloc), 0, "share");
    assert_same!(rt;
        isearch_share(&mut index, &mut other, alloc),
        2,
        "share twice"
    );
    isearch_free(&mut index, alloc);
    assert_same!(rt; nearest(alloc, &mut index, &[1; 4], 1, 1)?.status, 1, "freed");
    let found = nearest(alloc, &mut other, &[1; 4], 1, 1)?;
    assert_same!(rt; found.parts(), (0, &[4u64][..], &[0u32][..]), "by the share");
    isearch_free(&mut other, alloc);
    Ok(())
}

#[test]
fn each_refusal_of_a_search(rt: HostRuntime) -> Result<(), Fail> {
    let alloc = rt.alloc();
    let mut index = built(alloc)?;
    let cases: [(&str, &[i16], u32, usize, i32); 7] = [
        ("a part of a query", &[1; 5], 1, 1, 5),
        ("k of 0", &[1; 4], 0, 0, 6),
        ("k of 1025", &[1; 4], 1025, 1025, 6),
        ("few places", &[1; 8], 3, 5, 7),
        ("many places", &[1; 8], 3, 7, 7),
        ("no queries", &[], 3, 0, 0),
        ("a part of a query before k", &[1; 3], 0, 9, 5),
    ];
    for (name, queries, k, places, want) in cases {
        let found = nearest(alloc, &mut index, queries, k, places)?;
        assert_same!(rt; found.status, want, "{name}");
        assert_same!(rt; found.distances.iter().all(|d| *d == 7), true, "{name}: distances are as they were");
        assert_same!(rt; found.numbers.iter().all(|n| *n == 7), true, "{name}: numbers are as they were");
    }
    isearch_free(&mut index, alloc);
    Ok(())
}

#[test]
fn each_refusal_of_rows(rt: HostRuntime) -> Result<(), Fail> {
    let alloc = rt.alloc();
    let cases: [(&str, &[i16], u32, u32, u32, i32); 9] = [
        ("no rows", &[], 4, 4, 2, 3),
        ("rows of nothing", &ROWS, 0, 1, 2, 3),
        ("a part of a row", &ROWS, 5, 4, 2, 3),
        ("rows too long", &ROWS, 65537, 4, 2, 3),
        ("no segments", &ROWS, 4, 0, 2, 4),
        ("more segments than values", &ROWS, 4, 5, 2, 4),
        ("seventeen segments", &ROWS, 16, 17, 2, 4),
        ("leaves of nothing", &ROWS, 4, 4, 0, 4),
        ("leaves too great", &ROWS, 4, 4, 65536, 4),
    ];
    for (name, rows, length, segments, leaf, want) in cases {
        let mut index = IsearchIndex::empty(alloc);
        let settings = IsearchSettings {
            length,
            segments,
            leaf,
            bent: false,
        };
        let status = isearch_build(&mut index, rows, &settings, alloc);
        assert_same!(rt; status, want, "{name}");
        assert_same!(rt; index.is_full(), false, "{name}: the handle has none");
    }
    Ok(())
}

#[test]
fn rows_within_a_radius(rt: HostRuntime) -> Result<(), Fail> {
    let alloc = rt.alloc();
    let mut index = built(alloc)?;
    let mut distances = [7; 3];
    let mut numbers = [7; 3];
    // the radius, how many places there are, and what is told: status, how many are found, distances and numbers
    let cases: [(u64, usize, i32, usize, [u64; 3], [u32; 3]); 4] = [
        (163, 3, 0, 1, [4, 7, 7], [0, 7, 7]),
        (164, 3, 0, 2, [4, 164, 7], [0, 3, 7]),
        (324, 2, 7, 3, [7; 3], [7; 3]),
        (324, 3, 0, 3, [4, 164, 324], [0, 3, 1]),
    ];
    for (radius, places, want, count, near, rows) in cases {
        let mut found = 99;
        distances = [7; 3];
        numbers = [7; 3];
        let status = isearch_within(
            &mut index,
            alloc,
            &[1; 4],
            radius,
            &mut distances[..places],
            &mut numbers[..places],
            &mut found,
        );
        assert_same!(rt; (status, found), (want, count), "within {radius}");
        assert_same!(rt; (distances, numbers), (near, rows), "within {radius}");
    }
    isearch_free(&mut index, alloc);
    Ok(())
}

#[test]
fn windows_that_lie_apart(rt: HostRuntime) -> Result<(), Fail> {
    let alloc = rt.alloc();
    let mut distances = [7; 3];
    let mut numbers = [7; 3];
    let status = isearch_windows(
        alloc,
        &ROWS[..9],
        &[1; 4],
        &SETTINGS,
        3,
        3,
        &mut distances,
        &mut numbers,
    );
    assert_same!(rt; status, 0, "windows");
    assert_same!(rt; distances, [4, 244, NO_DISTANCE], "distances");
    assert_same!(rt; numbers, [0, 3, NO_NUMBER], "numbers");
    Ok(())
}

/// The text of an index, where there are so many places.
fn text(alloc: Global, index: &mut IsearchIndex, places: usize) -> Result<(i32, Vec<u8>), Fail> {
    let mut bytes = vec![in alloc; 7u8; places]?;
    let mut found = 99;
    let status = isearch_save(index, alloc, bytes.as_mut_slice(), &mut found);
    bytes.truncate(found);
    Ok((status, bytes))
}

/// A handle with the index of the rows, and its text.
fn saved(alloc: Global) -> Result<(IsearchIndex, Vec<u8>), Fail> {
    let mut index = built(alloc)?;
    let (status, bytes) = text(alloc, &mut index, 200)?;
    if status != 0 {
        return Err(Fail::new("save"));
    }
    Ok((index, bytes))
}

#[test]
fn a_text_is_loaded_and_saved_again(rt: HostRuntime) -> Result<(), Fail> {
    let alloc = rt.alloc();
    let (mut built, first) = saved(alloc)?;
    let head = [73u8, 83, 69, 88, 1, 0, 4, 1];
    assert_same!(rt; first.starts_with(&head), true, "head");
    assert_same!(rt; text(alloc, &mut built, 23)?.0, 7, "few places");
    isearch_free(&mut built, alloc);
    assert_same!(rt; text(alloc, &mut built, 9)?.0, 1, "no index");
    let mut index = IsearchIndex::empty(alloc);
    let status = isearch_load(&mut index, &ROWS, 4, &first, alloc);
    assert_same!(rt; status, 0, "load");
    let status = isearch_load(&mut index, &ROWS, 4, &first, alloc);
    assert_same!(rt; status, 2, "load twice");
    let found = nearest(alloc, &mut index, &[9; 4], 2, 2)?;
    assert_same!(rt; found.parts(), (0, &[4u64, 164][..], &[1u32, 3][..]), "nearest");
    let (status, again) = text(alloc, &mut index, 200)?;
    assert_same!(rt;
        (status, again.as_slice()),
        (0, first.as_slice()),
        "saved again"
    );
    isearch_free(&mut index, alloc);
    Ok(())
}

#[test]
fn each_refusal_of_a_text(rt: HostRuntime) -> Result<(), Fail> {
    let alloc = rt.alloc();
    let (mut index, bytes) = saved(alloc)?;
    isearch_free(&mut index, alloc);
    let whole = bytes.as_slice();
    let Some((_, part)) = whole.split_last() else {
        return Err(Fail::new("no text"));
    };
    let cases: [(&str, &[i16], u32, &[u8], i32); 7] = [
        ("no rows", &[], 4, whole, 3),
        ("a part of a row", &ROWS[..15], 4, whole, 3),
        ("no text", &ROWS, 4, &[], 8),
        ("a part", &ROWS, 4, part, 8),
        ("another length", &ROWS, 8, whole, 8),
        ("a row less", &ROWS[..12], 4, whole, 8),
        ("other rows", &[9; 16], 4, whole, 8),
    ];
    for (name, rows, points, text, want) in cases {
        let status = isearch_load(&mut index, rows, points, text, alloc);
        assert_same!(rt; status, want, "{name}");
        assert_same!(rt; index.is_full(), false, "{name}: the handle has none");
    }
    Ok(())
}
