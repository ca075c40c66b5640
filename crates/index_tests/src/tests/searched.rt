//! Searches by an index that was put together from the parts of a text, with its tables and with nothing beside its tree: as a plain sort.
use crate::claims::assert_same;
use crate::tests::texts::{TEXT, worked};
use nearest_answer::{Task, answer_by_team, one_worker_answer};
use outside::{NoGate, NoMemory};
use plain_search::{are_same, by_distance, plain_nearest, tree_with};
use range_query::within;
use saved_index::{LoadedIndex, load_alone};
use series_core::{Flat, Rows};
use std::alloc::Global;
use std::test::*;
use std::thread::Threads;

/// Whether the two nearest to a row, by one worker and by three, and all rows are those of a plain sort.
fn agree<T: Threads + Sync>(
    rt: &T,
    alloc: Global,
    rows: &Flat,
    number: u32,
    tables: bool,
) -> Result<bool, NoMemory> {
    if number >= rows.count() {
        return Err(NoMemory);
    }
    let Ok(LoadedIndex { settings, index }) = load_alone(alloc, &TEXT, rows) else {
        return Err(NoMemory);
    };
    let index = tree_with(rows, &settings, index, tables);
    let layout = &settings.layout;
    let query = rows.row(number);
    if query.len() != rows.length() as usize {
        return Err(NoMemory);
    }
    let task = Task::new(rows, query, 2, layout);
    let alone = one_worker_answer(alloc, &task, &index)?;
    let team = answer_by_team(rt, alloc, &task, &index, 3, &NoGate)?;
    let all = within(rt, alloc, rows, &index, layout, query, u64::MAX, 2, &NoGate)?;
    let nearest = plain_nearest(alloc, rows, query, 2)?;
    let both = are_same(&alone.items, &nearest) && are_same(&team.items, &nearest);
    Ok(both && are_same(&all, &by_distance(alloc, rows, query)?))
}

#[test]
fn parts_of_a_text_are_searched(rt: HostRuntime) -> Result<(), Fail> {
    let alloc = rt.alloc();
    let rows = worked(alloc)?;
    for number in 0..rows.count() {
        for tables in [true, false] {
            let same = agree(&rt, alloc, &rows, number, tables)?;
            assert_same!(rt; same, true, "row {number}, tables: {tables}");
        }
    }
    Ok(())
}
