//! Tests: what is printed of small searches, which were worked out by hand.

use crate::claims::assert_same;
use breakpoints::Table;
use certificate::print;
use isax_word::Layout;
use outside::NoGate;
use query_core::{Task, one_worker};
use segment_sums::Cuts;
use series_core::{Flat, Rows};
use std::alloc::Global;
use std::process::Abort;
use std::test::*;
use std::thread::Threads;
use subtree_build::{Settings, build};

// How a search is asked for: the segments, the leaf size, and how many answers are wanted.
#[derive(Clone, Copy, Debug)]
struct Asked {
    segments: u32,
    leaf_size: u32,
    k: u32,
}

// Two segments and leaves of any size.
const fn two_segments(k: u32) -> Asked {
    Asked {
        segments: 2,
        leaf_size: 1000,
        k,
    }
}

// Compares what is printed of a search over two queues with a text.
fn expect<T: Threads + Sync + Abort>(
    rt: &T,
    alloc: Global,
    rows: &Flat,
    query: &[i16],
    asked: Asked,
    text: &str,
) -> Result<(), Fail> {
    let length = rows.length();
    assert!(rt; 1 <= asked.segments && asked.segments <= 16, "{asked:?}");
    assert!(rt; asked.segments <= length, "short series");
    assert!(rt; query.len() == length as usize, "a query of another length");
    assert!(rt; 1 <= asked.k && asked.k <= 1024, "{asked:?}");
    let layout = Layout {
        cuts: Cuts::new(length, asked.segments),
        table: Table::Flat,
    };
    let settings = Settings {
        layout,
        leaf_size: asked.leaf_size,
    };
    let index = build(rt, alloc, rows, &settings, 1, &NoGate)?;
    let task = Task::new(rows, query, asked.k, &layout);
    let outcome = one_worker(alloc, &task, &index, 2)?;
    let printed = print(alloc, &index, &outcome)?;
    assert_same!(rt; printed.as_slice(), text.as_bytes(), "{asked:?} {text}");
    Ok(())
}

// Of four series of length 4 and the query (1, 1, 1, 1): for each number of answers, what is printed.
const FOUR: [(u32, &str); 3] = [
    (
        1,
        "start 1 4\nqueue 0\nqueue 1\nleaf 0 word 0:1,0:1 bound 10\nleaf 1 word 1:1,1:1 scanned\n",
    ),
    (
        3,
        "start 1 324\nqueue 0 10:0\nqueue 1\nleaf 0 word 0:1,0:1 scanned\nleaf 1 word 1:1,1:1 scanned\n",
    ),
    (
        9,
        "start 1 none\nqueue 0 10:0\nqueue 1\nleaf 0 word 0:1,0:1 scanned\nleaf 1 word 1:1,1:1 scanned\n",
    ),
];

#[test]
fn printed_of_four_series(rt: HostRuntime) -> Result<(), Fail> {
    let alloc = rt.alloc();
    let (rows, _queries) = super::four_series(&rt, alloc)?;
    for (k, text) in FOUR {
        expect(&rt, alloc, &rows, &super::QUERY, two_segments(k), text)?;
    }
    Ok(())
}

#[test]
fn printed_of_few_series(rt: HostRuntime) -> Result<(), Fail> {
    let alloc = rt.alloc();
    // no series, and so no leaf
    let none = Flat::from_values(4, Vec::new(alloc));
    let text = "start none\nqueue 0\nqueue 1\n";
    expect(&rt, alloc, &none, &super::QUERY, two_segments(1), text)?;
    // a bound equal to the last distance, and so a leaf that is scanned
    let points = Flat::from_values(1, [-1i16, 1].to_vec(alloc)?);
    let asked = Asked {
        segments: 1,
        leaf_size: 1000,
        k: 1,
    };
    let text =
        "start 1 1\nqueue 0 1:0\nqueue 1\nleaf 0 word 0:1 scanned\nleaf 1 word 1:1 scanned\n";
    expect(&rt, alloc, &points, &[0], asked, text)?;
    // segments of two lengths
    let uneven = Flat::from_values(5, [0i16, 0, 0, 0, 0, -1, 0, 0, 0, -1].to_vec(alloc)?);
    let text =
        "start 0 0\nqueue 0\nqueue 1\nleaf 0 word 0:1,0:1 scanned\nleaf 1 word 1:1,1:1 bound 2\n";
    let ends = [-1, 0, 0, 0, -1];
    expect(&rt, alloc, &uneven, &ends, two_segments(1), text)
}

#[test]
fn printed_of_words_with_many_bits(rt: HostRuntime) -> Result<(), Fail> {
    let alloc = rt.alloc();
    let mut asked = Asked {
        segments: 2,
        leaf_size: 1,
        k: 2,
    };
    // a leaf whose word lacks no bit, at the end of a chain of single children
    let zeros = Flat::from_values(4, [0i16; 12].to_vec(alloc)?);
    let text = "start 0 0\nqueue 0\nqueue 1\nleaf 0 word 128:8,128:8 scanned\n";
    expect(&rt, alloc, &zeros, &[0; 4], asked, text)?;
    // prefixes of one to three digits
    asked.k = 1;
    let far = Flat::from_values(2, [0i16, 0, 0, 20000, 300, 0].to_vec(alloc)?);
    let text = "start 0 0\nqueue 0\nqueue 1\nleaf 0 word 128:8,32:6 scanned\n\
        leaf 1 word 129:8,32:6 bound 65536\nleaf 2 word 1:1,3:2 bound 268435456\n";
    expect(&rt, alloc, &far, &[0, 0], asked, text)
}
