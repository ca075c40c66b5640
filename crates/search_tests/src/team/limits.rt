//! First limits: of members that are all looked at, the k-th is the answer's last.
use crate::claims::assert_same;
use nearest_answer::{Search, Task, first_limit};
use plain_search::three_points;
use series_core::{MAX_BEST, NONE};
use std::test::*;

#[test]
fn first_limits_of_three_points(rt: HostRuntime) -> Result<(), Fail> {
    let alloc = rt.alloc();
    let (rows, settings, index) = three_points(&rt, alloc)?;
    // the points lie at 0, 90000 and 400000000; of more than three there is no last one, and above 256 none is sought
    let limits = [(1, 0), (2, 90000), (3, 400000000), (4, NONE), (257, NONE)];
    for (k, limit) in limits {
        let task = Task::new(&rows, &[0, 0], k.clamp(1, MAX_BEST), &settings.layout);
        let search = Search::new(&task, &index);
        assert_same!(rt; first_limit(alloc, &search, 3)?, limit, "the {k} nearest");
    }
    Ok(())
}
