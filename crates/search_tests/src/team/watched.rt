//! Rows that are watched: those of leaves that are too far are read by no worker, alone or of two.
use crate::claims::assert_same;
use breakpoints::Table;
use nearest_answer::{ApartBy, Task, answer_by_stretches};
use outside::NoGate;
use plain_search::{Source, Watched};
use series_core::Flat;
use std::test::*;
use subtree_build::{Settings, build};

#[test]
fn rows_of_far_leaves_are_not_read(rt: HostRuntime) -> Result<(), Fail> {
    let alloc = rt.alloc();
    let mut values = Source::new(3, 500).values(alloc, 32000)?;
    for (place, value) in values.iter_mut().enumerate() {
        // every other series of sixteen values lies far up
        if place / 16 % 2 == 0 {
            *value = value.saturating_add(20000);
        }
    }
    let rows = Watched::over(Flat::from_values(16, values), None);
    let settings = Settings::new(16, 16, Table::Bent, 20);
    let index = build(&rt, alloc, &rows, &settings, 1, &NoGate)?;
    let before = [rows.times(0), rows.times(2)];
    let task = Task::new(&rows, &[0; 16], 400, &settings.layout);
    for workers in [1, 2] {
        let by = ApartBy::Means;
        let found = answer_by_stretches(&rt, alloc, &task, &index, by, workers, &NoGate)?;
        assert_same!(rt; found.items.len(), 400, "{workers} workers");
        assert_same!(rt;
            [rows.times(0), rows.times(2)],
            before,
            "far rows, {workers} workers"
        );
    }
    Ok(())
}
