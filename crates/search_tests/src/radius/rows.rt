//! Worked rows: a radius at a distance, one below it, and none within.
use super::plain::listed;
use crate::claims::assert_same;
use breakpoints::Table;
use outside::{NoGate, NoMemory};
use range_query::{within, within_alone};
use series_core::Flat;
use std::alloc::Global;
use std::test::*;
use std::thread::Threads;
use subtree_build::{Settings, build};

const VALUES: [i16; 16] = [0, 0, 0, 0, 10, 10, 10, 10, -10, -10, -10, -10, 0, 0, 10, 10];

/// The pairs of the four series within a radius of 1 1 1 1, by two workers and by one that starts no thread.
fn found<T: Threads + Sync>(
    rt: &T,
    alloc: Global,
    radius: u64,
) -> Result<(Vec<(u64, u32)>, Vec<(u64, u32)>), NoMemory> {
    let rows = Flat::from_values(4, VALUES.to_vec(alloc)?);
    let settings = Settings::new(4, 4, Table::Flat, 1000);
    let index = build(rt, alloc, &rows, &settings, 2, &NoGate)?;
    let layout = &settings.layout;
    let pairs = within(
        rt, alloc, &rows, &index, layout, &[1; 4], radius, 2, &NoGate,
    )?;
    let own = within_alone(alloc, &rows, &index, layout, &[1; 4], radius)?;
    Ok((listed(alloc, &pairs)?, listed(alloc, &own)?))
}

#[test]
fn four_series_within_three_radii(rt: HostRuntime) -> Result<(), Fail> {
    let near: [(u64, &[(u64, u32)]); 4] = [
        (164, &[(4, 0), (164, 3)]),
        (163, &[(4, 0)]),
        (0, &[]),
        (u64::MAX, &[(4, 0), (164, 3), (324, 1), (484, 2)]),
    ];
    for (radius, want) in near {
        let (pairs, own) = found(&rt, rt.alloc(), radius)?;
        assert_same!(rt; pairs.as_slice(), want, "radius {radius}");
        assert_same!(rt; own.as_slice(), want, "radius {radius}, alone");
    }
    Ok(())
}
