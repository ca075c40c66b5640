//! Rows that count how often one of them is asked for: series that are near to another are given up before all pairs are measured.
use crate::claims::assert_same;
use breakpoints::Table;
use discord_query::discord;
use outside::NoGate;
use plain_search::Watched;
use series_core::Flat;
use std::test::*;
use subtree_build::{Settings, build};

// Series of one value: one alone, twenty in steps of ten, and two equal ones far from all others.
const VALUES: [i16; 23] = [
    -5000, 0, 10, 20, 30, 40, 50, 60, 70, 80, 90, 100, 110, 120, 130, 140, 150, 160, 170, 180, 190,
    30000, 30000,
];

#[test]
fn fewer_rows_are_asked_for_than_there_are_pairs(rt: HostRuntime) -> Result<(), Fail> {
    let alloc = rt.alloc();
    let flat = Flat::from_values(1, VALUES.to_vec(alloc)?);
    let settings = Settings::new(1, 1, Table::Flat, 1);
    let layout = &settings.layout;
    let index = build(&rt, alloc, &flat, &settings, 1, &NoGate)?;
    let rows = Watched::over(flat, None);
    let found = discord(&rt, alloc, &rows, &index, layout, 1, 1, &NoGate)?;
    let mut numbers = Vec::new(alloc);
    for discord in &found.items {
        numbers.push((discord.number, discord.distance, discord.neighbour))?;
    }
    assert_same!(rt; numbers.as_slice(), [(0, 25000000, 1)].as_slice());
    // Each series with each other, counted once, are 253 pairs.
    let asked = rows.all_times();
    assert_same!(rt; asked < 253, true, "{asked} rows were asked for");
    Ok(())
}
