//! A gate where two workers meet: both are at work at once, and the turns of each are counted without a gap.
use crate::claims::assert_same;
use crate::threads::gates::Meeting;
use breakpoints::Table;
use nearest_answer::{ApartBy, Task, answer_by_stretches};
use outside::NoGate;
use plain_search::Source;
use series_core::Flat;
use std::test::*;
use subtree_build::{Settings, build};

#[test]
fn two_workers_draw_side_by_side(rt: HostRuntime) -> Result<(), Fail> {
    let alloc = rt.alloc();
    let rows = Flat::from_values(16, Source::new(3, 500).values(alloc, 19200)?);
    let settings = Settings::new(16, 16, Table::Bent, 2);
    let index = build(&rt, alloc, &rows, &settings, 1, &NoGate)?;
    // the leaf of this query comes early, so those behind it give a limit, within which there are many stretches of leaves
    let task = Task::new(&rows, &[-1; 16], 100, &settings.layout);
    for by in [ApartBy::Means, ApartBy::Codes, ApartBy::Nothing] {
        let gate = Meeting::of_two();
        let found = answer_by_stretches(&rt, alloc, &task, &index, by, 2, &gate)?;
        assert_same!(rt; found.items.len(), 100, "{by:?}");
        assert_same!(rt; gate.faults(), [0, 0], "each waited for the other and counted its turns, {by:?}");
    }
    Ok(())
}
