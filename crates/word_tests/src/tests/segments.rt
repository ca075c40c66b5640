//! Cut points and sums of worked rows, and sums of equal segments against those of values added one by one.
use crate::claims::assert_same;
use segment_sums::Cuts;
use std::test::Fail;

#[test]
fn cut_points(rt: HostRuntime) -> Result<(), Fail> {
    let rows: [(u32, u32, u32, (u32, u32)); 8] = [
        (4, 2, 0, (0, 2)),
        (4, 2, 1, (2, 4)),
        (5, 2, 0, (0, 2)),
        (5, 2, 1, (2, 5)),
        (1, 1, 0, (0, 1)),
        (16, 16, 15, (15, 16)),
        (65536, 3, 1, (21845, 43690)),
        (65536, 16, 15, (61440, 65536)),
    ];
    for (n, w, j, places) in rows {
        assert!(rt;
            1 <= w && w <= 16 && w <= n && n <= 65536 && j < w,
            "{n} {w} {j} is no row"
        );
        let cuts = Cuts::new(n, w);
        assert_same!(rt; cuts.cut(j), places, "segment {j} of {w} over {n}");
    }
    Ok(())
}

#[test]
fn sums_of_rows(rt: HostRuntime) -> Result<(), Fail> {
    let rows: [([i16; 5], u32, [i32; 3]); 4] = [
        ([0, 0, 0, 0, 0], 2, [0, 0, 0]),
        ([-1, 0, 0, 0, -1], 2, [-1, -1, 0]),
        ([1, 2, 3, 4, 5], 3, [1, 5, 9]),
        (
            [32767, 32767, -32768, -32768, -32768],
            2,
            [65534, -98304, 0],
        ),
    ];
    for (row, w, sums) in rows {
        assert!(rt; 1 <= w && w <= 3, "{w} is no number of segments");
        let mut into = [7; 16];
        Cuts::new(5, w).sums(&row, &mut into);
        assert_same!(rt; &into[..3], &sums[..], "{w} segments of {row:?}");
        assert_same!(rt; into[15], 0, "what lies past {w} segments");
    }
    Ok(())
}

// Value i of a row of the next test: all bits change.
fn value_at(i: u32) -> i16 {
    (i32::from((i.wrapping_mul(2654435761) >> 16) as u16) - 32768) as i16
}

// The values from one place up to another, added one by one.
fn plain_sum(from: u32, to: u32) -> i64 {
    let mut sum = 0i64;
    for i in from..to {
        sum = sum.wrapping_add(i64::from(value_at(i)));
    }
    sum
}

#[test]
fn sums_of_equal_segments(rt: HostRuntime) -> Result<(), Fail> {
    let mut row = [0; 1040];
    for i in 0..1040u32 {
        row[i as usize] = value_at(i);
    }
    let divisions: [(u32, u32); 10] = [
        (8, 8),
        (16, 16),
        (32, 16),
        (64, 16),
        (65, 16),
        (128, 16),
        (256, 16),
        (512, 16),
        (1024, 16),
        (1040, 16),
    ];
    for (n, w) in divisions {
        assert!(rt;
            1 <= w && w <= 16 && w <= n && n <= 1040,
            "{n} {w} is no division"
        );
        let cuts = Cuts::new(n, w);
        let mut into = [7; 16];
        cuts.sums(&row[..n as usize], &mut into);
        for j in 0..w {
            let (from, to) = cuts.cut(j);
            let sum = i64::from(into[j as usize]);
            assert_same!(rt; sum, plain_sum(from, to), "segment {j} of {w} over {n}");
        }
    }
    Ok(())
}
