//! Worked rows: ties between series and between neighbours, one point a series, no other series, equal series.
use super::plain::{Shape, found, shaped};
use crate::claims::assert_same;
use breakpoints::Table;
use outside::NoGate;
use series_core::Flat;
use std::test::*;

const FOUR: [i16; 16] = [0, 0, 0, 0, 10, 10, 10, 10, -10, -10, -10, -10, 0, 0, 10, 10];

#[test]
fn worked_rows(rt: HostRuntime) -> Result<(), Fail> {
    let four: &[(u32, u64, u32)] = &[(2, 400, 0), (0, 200, 3)];
    let rows: [(u32, &[i16], u32, u32, &[(u32, u64, u32)]); 6] = [
        (4, &FOUR, 2, 1, four),
        (1, &[0, 5, 10], 1, 1, &[(0, 25, 1)]),
        (1, &[0, 5, 10], 1, 3, &[(0, 25, 1)]),
        (2, &[7, 7], 3, 2, &[]),
        (2, &[], 3, 2, &[]),
        (2, &[1, 2, 1, 2], 5, 1, &[(0, 0, 1), (1, 0, 0)]),
    ];
    for (length, values, k, workers, want) in rows {
        let rows = Flat::from_values(length, values.to_vec(rt.alloc())?);
        let shape: Shape = shaped(Table::Flat, length.min(4), 1000, workers);
        let discords = found(&rt, rt.alloc(), &rows, shape, k, &NoGate)?;
        assert_same!(rt;
            discords.as_slice(),
            want,
            "{values:?}, k {k}, {workers} workers"
        );
    }
    Ok(())
}
