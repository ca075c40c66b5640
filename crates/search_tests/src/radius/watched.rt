//! Rows that are watched: cut series are never asked for, and two workers really search side by side.
use super::plain::listed;
use crate::claims::assert_same;
use outside::NoGate;
use plain_search::{Watched, three_points, two_points};
use range_query::within;
use std::test::*;

#[test]
fn cut_series_are_not_asked_for(rt: HostRuntime) -> Result<(), Fail> {
    let alloc = rt.alloc();
    let (flat, settings, index) = three_points(&rt, alloc)?;
    let layout = &settings.layout;
    let rows = Watched::over(flat, None);
    let pairs = within(&rt, alloc, &rows, &index, layout, &[0, 0], 0, 2, &NoGate)?;
    assert_same!(rt; listed(alloc, &pairs)?.as_slice(), [(0, 0)].as_slice());
    // Series 1 is far, and series 2 is cut by its word.
    let times = [rows.times(0), rows.times(1), rows.times(2)];
    assert_same!(rt; times, [1, 0, 0], "series 0 alone is asked for");
    Ok(())
}

#[test]
fn two_workers_search_side_by_side(rt: HostRuntime) -> Result<(), Fail> {
    let alloc = rt.alloc();
    let (flat, settings, index) = two_points(&rt, alloc)?;
    let layout = &settings.layout;
    let rows = Watched::over(flat, Some((0, 1)));
    let pairs = within(&rt, alloc, &rows, &index, layout, &[0], 1, 2, &NoGate)?;
    assert_same!(rt;
        listed(alloc, &pairs)?.as_slice(),
        [(1, 0), (1, 1)].as_slice()
    );
    assert_same!(rt; rows.ran_out(), 0, "each row waited for the other");
    Ok(())
}
