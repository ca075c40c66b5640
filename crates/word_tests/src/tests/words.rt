//! Worked rows of symbols, full words, roots and words. Expected values are worked by hand or counted plainly.
use crate::claims::assert_same;
use breakpoints::Table;
use isax_word::{Full, Layout, Word, child, contains, root_of, symbol_of_sum};
use segment_sums::Cuts;
use std::process::Abort;
use std::test::Fail;

#[test]
fn symbols_at_the_ends_of_the_bent_table(rt: HostRuntime) -> Result<(), Fail> {
    let rows = [(24256, 254), (24257, 255), (-24257, 1), (-24258, 0)];
    for (sum, symbol) in rows {
        assert!(rt; -32768 <= sum && sum <= 32767, "{sum} is no value");
        assert_same!(rt;
            symbol_of_sum(Table::Bent, 1, sum),
            symbol,
            "the symbol of {sum}"
        );
    }
    Ok(())
}

/// The number of breakpoints that, times the length, are at or below the sum, counted one by one.
fn plain_count(table: Table, length: u32, sum: i32) -> u8 {
    let mut count = 0u8;
    for i in 1..256u32 {
        let scaled = i64::from(length).wrapping_mul(i64::from(table.at(i)));
        if scaled <= i64::from(sum) {
            count = count.wrapping_add(1);
        }
    }
    count
}

/// Compares the symbol of one sum with the plain count, where the length can have this sum.
fn compare(rt: &impl Abort, table: Table, length: u32, sum: i32) {
    if 1 <= length && length <= 65536 {
        let least = -32768 * i64::from(length);
        let most = 32767 * i64::from(length);
        if least <= i64::from(sum) && i64::from(sum) <= most {
            let symbol = symbol_of_sum(table, length, sum);
            assert_same!(rt;
                symbol,
                plain_count(table, length, sum),
                "sum {sum} of {length} in {table:?}"
            );
        }
    }
}

/// Compares the symbols of the sums at one breakpoint and on both sides of it.
fn compare_near(rt: &impl Abort, table: Table, length: u32, place: u32) {
    if 1 <= place && place <= 255 {
        let scaled = i64::from(length).wrapping_mul(i64::from(table.at(place)));
        for step in 0..3i64 {
            let sum = scaled.wrapping_add(step).wrapping_sub(1);
            if -2_147_483_648 <= sum && sum <= 2_147_483_647 {
                compare(rt, table, length, sum as i32);
            }
        }
    }
}

/// A row of values over the whole range, smaller ones towards its end.
fn scattered() -> [i16; 260] {
    let mut row = [0; 260];
    for i in 0..260u32 {
        let value = i32::from((i.wrapping_mul(2654435761) >> 16) as u16) - 32768;
        row[i as usize] = (value / (1 + i as i32 / 20)) as i16;
    }
    row
}

#[test]
fn full_words_are_counts_in_each_segment(rt: HostRuntime) -> Result<(), Fail> {
    let values = scattered();
    for table in [Table::Flat, Table::Bent] {
        for (n, w) in [
            (1, 1),
            (8, 8),
            (64, 16),
            (100, 7),
            (256, 16),
            (259, 16),
            (260, 1),
        ] {
            assert!(rt;
                1 <= w && w <= 16 && w <= n && n <= 260,
                "{n} {w} is no division"
            );
            let layout = Layout {
                cuts: Cuts::new(n, w),
                table,
            };
            let full = Full::of(&layout, &values[..n as usize]);
            assert!(rt; full.segments() == w, "the segments of {n} by {w}");
            let mut sums = [0; 16];
            layout.cuts.sums(&values[..n as usize], &mut sums);
            for j in 0..w {
                let (from, to) = layout.cuts.cut(j);
                let counted = plain_count(table, to - from, sums[j as usize]);
                assert_same!(rt;
                    full.symbol(j),
                    counted,
                    "segment {j} of {n} by {w} in {table:?}"
                );
            }
        }
    }
    Ok(())
}

#[test]
fn symbols_are_counts_at_every_breakpoint(rt: HostRuntime) -> Result<(), Fail> {
    for table in [Table::Flat, Table::Bent] {
        for length in [1u32, 2, 3, 4096, 65536] {
            for place in 1..256u32 {
                compare_near(&rt, table, length, place);
            }
        }
    }
    Ok(())
}

#[test]
fn full_words_and_roots_of_rows(rt: HostRuntime) -> Result<(), Fail> {
    let rows = [
        ([0, 0, 0, 0], (128, 128), 3),
        ([10, 10, 10, 10], (128, 128), 3),
        ([-10, -10, -10, -10], (127, 127), 0),
        ([0, 0, 10, 10], (128, 128), 3),
        ([0, 0, 20000, 20000], (128, 206), 3),
        ([300, 300, 0, 0], (129, 128), 3),
        ([32767, 32767, -32768, -32768], (255, 0), 2),
    ];
    for (row, symbols, root) in rows {
        let layout = Layout {
            cuts: Cuts::new(4, 2),
            table: Table::Flat,
        };
        let full = Full::of(&layout, &row);
        assert!(rt; full.segments() == 2, "the segments of {row:?}");
        assert_same!(rt;
            (full.symbol(0), full.symbol(1)),
            symbols,
            "the symbols of {row:?}"
        );
        assert_same!(rt; root_of(&full), root, "the root number of {row:?}");
    }
    Ok(())
}

#[test]
fn words_of_parts(rt: HostRuntime) -> Result<(), Fail> {
    let rows: [(&[u8], &[u8], bool); 7] = [
        (&[1], &[1], true),
        (&[2], &[1], false),
        (&[255, 0], &[8, 1], true),
        (&[1, 1], &[1], false),
        (&[], &[], false),
        (&[0], &[0], false),
        (&[0], &[9], false),
    ];
    for (prefixes, bits, accepted) in rows {
        let word = Word::of_parts(prefixes, bits);
        assert_same!(rt; word.is_some(), accepted, "{prefixes:?} at {bits:?} bits");
    }
    Ok(())
}

#[test]
fn symbols_of_prefixes(rt: HostRuntime) -> Result<(), Fail> {
    let rows: [([u8; 2], [u8; 2], [u8; 3], [u8; 3]); 4] = [
        ([0, 1], [1, 1], [0, 128, 0], [127, 255, 0]),
        ([1, 5], [2, 3], [64, 160, 0], [127, 191, 0]),
        ([255, 0], [8, 8], [255, 0, 0], [255, 0, 0]),
        ([127, 3], [7, 2], [254, 192, 0], [255, 255, 0]),
    ];
    for (prefixes, bits, firsts, lasts) in rows {
        let word = Word::of_parts(&prefixes, &bits);
        assert!(rt; word.is_some(), "{prefixes:?} at {bits:?} bits make a word");
        if let Some(word) = word {
            assert_same!(rt;
                &word.first_symbols()[..3],
                &firsts[..],
                "the least of {prefixes:?} at {bits:?} bits"
            );
            assert_same!(rt;
                &word.last_symbols()[..3],
                &lasts[..],
                "the greatest of {prefixes:?} at {bits:?} bits"
            );
        }
    }
    Ok(())
}

#[test]
fn a_row_goes_down_by_its_bits(rt: HostRuntime) -> Result<(), Fail> {
    let layout = Layout {
        cuts: Cuts::new(2, 2),
        table: Table::Flat,
    };
    let full = Full::of(&layout, &[0, 20000]);
    let root = Word::of_root(3, 2);
    let other = Word::of_root(1, 2);
    assert!(rt; contains(&root, &full), "the row is below its root");
    assert!(rt; !contains(&other, &full), "the row is below no other root");
    let low = child(&root, 1, false);
    let high = child(&root, 1, true);
    assert!(rt; contains(&high, &full), "206 begins with 11 in binary");
    assert!(rt; !contains(&low, &full), "so it is not in the low child");
    Ok(())
}
