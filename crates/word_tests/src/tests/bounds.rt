//! Worked rows of bounds, and costs against a plain computation of each interval.

ghost use Rattle.std.specs.Prelude.{◌≡◌, ◌≤◌};
ghost use Rattle.segment_sums.specs.Division.{division_of};

use crate::claims::assert_same;
use breakpoints::Table;
use isax_word::{Full, Layout, Word};
use lower_bound::QueryView;
use segment_sums::Cuts;
use std::process::Abort;
use std::test::Fail;

/// The layout of series of this length in these segments, by this table.
fn layout_of(length: u32, segments: u32, table: Table) -> Layout
    requires segments { (1 ≤ segments) × (segments ≤ 16) }
    requires length { (segments ≤ length) × (length ≤ 65536) }
    ensures { result.cuts ≡ division_of length segments }
{
    Layout {
        cuts: Cuts::new(length, segments),
        table,
    }
}

/// The bound of the word of these parts for a query under the flat table.
fn flat_bound(rt: &impl Abort, query: &[i16], prefixes: &[u8], bits: &[u8]) -> u64 {
    let Some(word) = Word::of_parts(prefixes, bits) else {
        panic!(rt; "{prefixes:?} at {bits:?} bits make no word");
    };
    let segments = word.segments();
    assert!(rt;
        segments as usize <= query.len() && query.len() <= 65536,
        "{segments} segments of {query:?}"
    );
    let layout = layout_of(query.len() as u32, segments, Table::Flat);
    QueryView::new(&layout, query).bound_word(&word)
}

#[test]
fn bounds_of_rows(rt: HostRuntime) -> Result<(), Fail> {
    let rows: [(&[i16], &[u8], &[u8], u64); 8] = [
        (&[1, 1, 1, 1], &[0, 0], &[1, 1], 10),
        (&[1, 1, 1, 1], &[1, 1], &[1, 1], 0),
        (&[0], &[0], &[1], 1),
        (&[-1, 0, 0, 0, -1], &[1, 1], &[1, 1], 2),
        (&[-1, 0, 0, 0, -1], &[0, 0], &[1, 1], 0),
        (&[0, 0], &[128, 32], &[8, 6], 0),
        (&[0, 0], &[129, 32], &[8, 6], 65536),
        (&[0, 0], &[1, 3], &[1, 2], 268435456),
    ];
    for (query, prefixes, bits, bound) in rows {
        assert_same!(rt;
            flat_bound(&rt, query, prefixes, bits),
            bound,
            "{prefixes:?} at {bits:?} bits for {query:?}"
        );
    }
    Ok(())
}

/// The square of a gap by a length, rounded up.
fn plain_cost(gap: i64, length: u32) -> u64 {
    let squared = gap.unsigned_abs().wrapping_mul(gap.unsigned_abs());
    if length == 0 {
        return 0;
    }
    let whole = squared / u64::from(length);
    if squared % u64::from(length) == 0 {
        whole
    } else {
        whole.wrapping_add(1)
    }
}

/// How far a sum lies outside the sums of a prefix, by the two ends of their interval.
fn plain_gap(table: Table, length: u32, sum: i64, first: u32, end: u32) -> i64 {
    if 1 <= first && first <= 255 {
        let least = i64::from(length).wrapping_mul(i64::from(table.at(first)));
        if sum < least {
            return least.wrapping_sub(sum);
        }
    }
    if 1 <= end && end <= 255 {
        let most = i64::from(length)
            .wrapping_mul(i64::from(table.at(end)))
            .wrapping_sub(1);
        if most < sum {
            return sum.wrapping_sub(most);
        }
    }
    0
}

/// Compares the bound of one prefix of a query of one segment, of this length and sum, with the plain computation.
fn compare(rt: &impl Abort, table: Table, view: &QueryView, segment: (u32, i64), part: (u8, u8)) {
    let (length, sum) = segment;
    let (prefix, bits) = part;
    let is_part = bits <= 8 && u32::from(prefix) < 1 << bits;
    let word = Word::of_parts(&[prefix], &[bits]);
    assert_same!(rt;
        word.is_some(),
        is_part,
        "a word of {prefix} at {bits} bits"
    );
    let Some(word) = word else {
        return;
    };
    assert!(rt; view.segments() == word.segments(), "segments");
    if bits <= 8 {
        let place = 1u32 << (8 - bits);
        let first = u32::from(prefix) * place;
        let cost = plain_cost(plain_gap(table, length, sum, first, first + place), length);
        assert_same!(rt;
            view.bound_word(&word),
            cost,
            "{prefix} at {bits} bits for {sum} over {length} in {table:?}"
        );
    }
}

/// Compares the bounds of all prefixes of a query of one segment with the plain computation.
fn compare_all(rt: &impl Abort, table: Table, query: &[i16]) {
    assert!(rt;
        1 <= query.len() && query.len() <= 3,
        "{query:?} is no query of one segment"
    );
    let length = query.len() as u32;
    let layout = layout_of(length, 1, table);
    let view = QueryView::new(&layout, query);
    let mut sum = 0i64;
    for value in query {
        sum = sum.wrapping_add(i64::from(*value));
    }
    for bits in 1..9u8 {
        for prefix in 0..=255u8 {
            compare(rt, table, &view, (length, sum), (prefix, bits));
        }
    }
}

#[test]
fn costs_are_those_of_the_interval(rt: HostRuntime) -> Result<(), Fail> {
    let queries: [&[i16]; 8] = [
        &[-32768],
        &[-1],
        &[0],
        &[24256],
        &[32767],
        &[32767, 32766],
        &[-24257, -24258, -24257],
        &[100, -7, 3],
    ];
    for query in queries {
        compare_all(&rt, Table::Flat, query);
        compare_all(&rt, Table::Bent, query);
    }
    Ok(())
}

#[test]
fn a_full_word_costs_its_symbols(rt: HostRuntime) -> Result<(), Fail> {
    let layout = layout_of(2, 2, Table::Flat);
    let view = QueryView::new(&layout, &[0, 0]);
    let rows = [
        ([0, 0], 0),
        ([255, 255], 0),
        ([0, 20000], 398_721_024),
        ([300, 0], 65536),
        ([-1, -1], 2),
    ];
    for (row, bound) in rows {
        assert_same!(rt;
            view.bound_full(&Full::of(&layout, &row)),
            bound,
            "the full word of {row:?}"
        );
    }
    Ok(())
}

#[test]
fn bounds_of_root_rows(rt: HostRuntime) -> Result<(), Fail> {
    let rows: [(&[i16], u32, u32, u64); 5] = [
        (&[1, 1, 1, 1], 2, 0, 10),
        (&[1, 1, 1, 1], 2, 3, 0),
        (&[0], 1, 0, 1),
        (&[-1, 0, 0, 0, -1], 2, 3, 2),
        (&[-1, 0, 0, 0, -1], 2, 0, 0),
    ];
    for (query, segments, root, bound) in rows {
        assert!(rt;
            1 <= segments
                && segments <= 16
                && segments as usize <= query.len()
                && query.len() <= 65536
                && root < 1 << segments,
            "{root} is no root number of {segments} segments of {query:?}"
        );
        let layout = layout_of(query.len() as u32, segments, Table::Flat);
        assert_same!(rt;
            QueryView::new(&layout, query).bound_root(root),
            bound,
            "root {root} of {segments} segments for {query:?}"
        );
    }
    Ok(())
}

/// Compares the bounds of 512 root numbers of `segments` segments with those of their words.
fn compare_roots(rt: &impl Abort, table: Table, segments: u32) {
    assert!(rt; 1 <= segments && segments <= 16, "{segments} segments");
    let query: [i16; 18] = [
        -32768, 32767, -1, 0, 1, 24256, -24257, 100, -7, 3, 9000, -9000, 1, 1, -1, -1, 12345, -54,
    ];
    let layout = layout_of(18, segments, table);
    let view = QueryView::new(&layout, &query);
    for step in 0..512u32 {
        let root = (step * 129) % (1 << segments);
        let word = Word::of_root(root, segments);
        assert!(rt;
            word.segments() == view.segments(),
            "root {root} has a word of {} segments",
            word.segments()
        );
        assert_same!(rt;
            view.bound_root(root),
            view.bound_word(&word),
            "root {root} of {segments} segments in {table:?}"
        );
    }
}

#[test]
fn a_root_number_costs_its_word(rt: HostRuntime) -> Result<(), Fail> {
    for segments in [1, 7, 8, 9, 16] {
        compare_roots(&rt, Table::Flat, segments);
        compare_roots(&rt, Table::Bent, segments);
    }
    Ok(())
}
