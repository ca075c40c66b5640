//! Worked rows, whose expected bounds were found by hand or by a small program apart from the crate; and rows of many lengths against a
//! plain computation of their bounds, one value at a time and with a division for each.
ghost use Rattle.std.specs.Prelude.{◌≤◌, IfOk, length};
ghost use Rattle.row_codes.specs.Bound.{AreCodesFor};

use crate::claims::assert_same;
use crate::drawn::scattered;
use row_codes::{
    CodeBlock, CodeLimit, CodeView, block_count, code_row, codes_have_squares, four_within,
};
use std::alloc::{AllocError, Global};
use std::process::Abort;
use std::test::Fail;

/// The longest row.
const LONGEST: usize = 65536;

/// The codes of a row.
fn coded(rt: &impl Abort, alloc: Global, row: &[i16]) -> Result<Vec<CodeBlock>, AllocError>
    requires { length row.now ≤ 65536 }
    ensures { IfOk result (λ codes. AreCodesFor (length row.now) codes.items) }
{
    let count = block_count(row.len() as u32) as usize;
    let mut codes = vec![in alloc; CodeBlock::zeros(); count]?;
    assert!(rt; codes.len() == count, "{count} blocks");
    code_row(row, &mut codes);
    codes_have_squares(row);
    Ok(codes)
}

/// Compares the bound of a row by its codes for a query with an expected one: it is within that, and not within one less.
fn compare(
    rt: &impl Abort,
    alloc: Global,
    (row, query): (&[i16], &[i16]),
    bound: u64,
) -> Result<(), AllocError> {
    let length = row.len();
    assert!(rt;
        length == query.len() && length <= LONGEST,
        "{length} values are no row"
    );
    let codes = coded(rt, alloc, row)?;
    let view = CodeView::new(query);
    let within = view.is_within(&codes, &CodeLimit::new(bound));
    assert_same!(rt; within, true, "{length} values within {bound}");
    let within = view.is_within(&codes, &CodeLimit::new(u64::MAX));
    assert_same!(rt; within, true, "{length} values without a limit");
    if bound > 0 {
        let within = view.is_within(&codes, &CodeLimit::new(bound - 1));
        assert_same!(rt; within, false, "{length} values below {bound}");
    }
    Ok(())
}

#[test]
fn worked_rows(rt: HostRuntime) -> Result<(), Fail> {
    let rising: [i16; 16] = [0, 1, 2, 3, 4, 5, 6, 7, 8, 9, 10, 11, 12, 13, 14, 15];
    let about: [i16; 16] = [-8, -7, -6, -5, -4, -3, -2, -1, 0, 1, 2, 3, 4, 5, 6, 7];
    let turned: [i16; 16] = [8, 7, 6, 5, 4, 3, 2, 1, 0, -1, -2, -3, -4, -5, -6, -7];
    let mut outlier = [100; 16];
    outlier[15] = -3000;
    let rows: [([i16; 16], [i16; 16], u64); 9] = [
        ([0; 16], [0; 16], 0),
        ([0; 16], [100; 16], 160000),
        ([7; 16], [7; 16], 0),
        ([8; 16], [-8; 16], 4096),
        (rising, [0; 16], 1225),
        (about, turned, 1369),
        ([-32768; 16], [32767; 16], 68717379600),
        ([32767; 16], [-32768; 16], 68717379600),
        (outlier, [0; 16], 6398370),
    ];
    for (row, query, bound) in rows {
        compare(&rt, rt.alloc(), (&row, &query), bound)?;
    }
    compare(&rt, rt.alloc(), (&[3, 10, 5, 6], &[4; 4]), 36)?;
    let ends = ([-32768, 32767], [32767, -32768]);
    compare(&rt, rt.alloc(), (&ends.0, &ends.1), 7549611432)?;
    Ok(())
}

#[test]
fn worked_rows_of_several_blocks(rt: HostRuntime) -> Result<(), Fail> {
    let rows: [(usize, i16, i16, i16, u64); 6] = [
        (3, 1, 2, 5, 36),
        (256, 32767, 32767, -32768, 1099478073600),
        (256, -32768, -32768, 32767, 1099478073600),
        (256, 0, 32767, 0, 373416976),
        (257, 5, 5, -5, 25600),
        (300, 1000, 1000, 0, 299999720),
    ];
    for (length, value, last, asked, bound) in rows {
        let mut row = Vec::from_elem(rt.alloc(), value, length)?;
        let _ = row.pop();
        row.push(last)?;
        let query = Vec::from_elem(rt.alloc(), asked, length)?;
        compare(&rt, rt.alloc(), (&row, &query), bound)?;
    }
    Ok(())
}

/// The root of a number, rounded up.
fn plain_root_up(n: u64) -> u64 {
    let root = n.isqrt();
    if root.wrapping_mul(root) < n {
        root.wrapping_add(1)
    } else {
        root
    }
}

/// The least and the greatest of the values of a block.
fn plain_ends(values: &[i16]) -> (i64, i64) {
    let (mut least, mut greatest) = (32767i64, -32768i64);
    for value in values {
        let value = i64::from(*value);
        least = least.min(value);
        greatest = greatest.max(value);
    }
    (least, greatest)
}

/// The square of a number.
fn plain_square(n: i64) -> u64 {
    n.wrapping_mul(n).unsigned_abs()
}

/// The bound, from the definition of codes and of what they forget.
fn plain_bound(row: &[i16], query: &[i16]) -> u64 {
    let (mut far, mut lost, mut bound) = (0u64, 0u64, 0u64);
    for (values, asked) in row.chunks(256).zip(query.chunks(256)) {
        let (least, greatest) = plain_ends(values);
        let step = (greatest.wrapping_sub(least) / 16).wrapping_add(1);
        for (value, other) in values.iter().zip(asked) {
            let value = i64::from(*value);
            let above = value.wrapping_sub(least);
            let code = if step <= 0 { 0 } else { above.div_euclid(step) };
            let shown = least
                .wrapping_add(step.wrapping_mul(code))
                .wrapping_add(step / 2);
            far = far.wrapping_add(plain_square(shown.wrapping_sub(i64::from(*other))));
            lost = lost.wrapping_add(plain_square(shown.wrapping_sub(value)));
        }
        let above = far
            .wrapping_mul(4)
            .isqrt()
            .saturating_sub(plain_root_up(lost.wrapping_mul(4)));
        bound = bound.max(above.wrapping_mul(above) / 4);
    }
    bound
}

/// Compares scattered rows of a length with the plain computation: wide, narrow, and narrow against wide ones.
fn compare_scattered(rt: &impl Abort, alloc: Global, length: usize) -> Result<(), AllocError> {
    for (bits, asked) in [(16, 16), (5, 5), (1, 1), (12, 16), (16, 3)] {
        let row = scattered(alloc, 7, length, bits)?;
        let query = scattered(alloc, 8, length, asked)?;
        compare(rt, alloc, (&row, &query), plain_bound(&row, &query))?;
        compare(rt, alloc, (&row, &row), plain_bound(&row, &row))?;
    }
    Ok(())
}

#[test]
fn scattered_rows_of_every_length(rt: HostRuntime) -> Result<(), Fail> {
    for length in 1..71 {
        compare_scattered(&rt, rt.alloc(), length)?;
    }
    for length in [127, 128, 255, 256, 257, 258, 511, 512, 513, 1024, LONGEST] {
        compare_scattered(&rt, rt.alloc(), length)?;
    }
    Ok(())
}

#[test]
fn extreme_rows(rt: HostRuntime) -> Result<(), Fail> {
    for length in [16, 17, 64, 100, 255, 256, 257, 513, LONGEST] {
        for (value, first, asked) in [
            (-32768, -32768, 32767),
            (32767, 32767, -32768),
            (0, -32768, 0),
            (0, 32767, 5),
            (1000, 1000, 1000),
            (-1, 0, 0),
        ] {
            let mut row = vec![in rt.alloc(); first]?;
            for _place in 1..length {
                row.push(value)?;
            }
            let query = Vec::from_elem(rt.alloc(), asked, length)?;
            let bound = plain_bound(&row, &query);
            compare(&rt, rt.alloc(), (&row, &query), bound)?;
        }
    }
    Ok(())
}

/// Compares what four queries at once say with the plain bounds: two limits are these, and two are one less.
fn compare_four(
    rt: &impl Abort,
    alloc: Global,
    row: &[i16],
    (a, b): (&[i16], &[i16]),
    (c, d): (&[i16], &[i16]),
) -> Result<(), AllocError> {
    let length = row.len();
    assert!(rt; length <= LONGEST, "{length} values are no row");
    assert!(rt;
        length == a.len() && length == b.len(),
        "two of {length} values"
    );
    assert!(rt;
        length == c.len() && length == d.len(),
        "two more of {length} values"
    );
    let codes = coded(rt, alloc, row)?;
    let (second, last) = (plain_bound(row, b), plain_bound(row, d));
    let limits = [
        CodeLimit::new(plain_bound(row, a)),
        CodeLimit::new(second.saturating_sub(1)),
        CodeLimit::new(plain_bound(row, c)),
        CodeLimit::new(last.saturating_sub(1)),
    ];
    let (a, b, c, d) = (
        CodeView::new(a),
        CodeView::new(b),
        CodeView::new(c),
        CodeView::new(d),
    );
    let found = four_within(&a, &b, &c, &d, &codes, &limits);
    assert_same!(rt;
        found,
        [true, second == 0, true, last == 0],
        "{length} values"
    );
    Ok(())
}

#[test]
fn four_queries_at_once(rt: HostRuntime) -> Result<(), Fail> {
    for length in [15, 16, 255, 256, 300, 1024] {
        let row = scattered(rt.alloc(), 7, length, 12)?;
        let a = scattered(rt.alloc(), 8, length, 16)?;
        let b = scattered(rt.alloc(), 9, length, 12)?;
        let c = scattered(rt.alloc(), 10, length, 12)?;
        let d = scattered(rt.alloc(), 11, length, 3)?;
        compare_four(&rt, rt.alloc(), &row, (&a, &b), (&c, &d))?;
    }
    Ok(())
}
