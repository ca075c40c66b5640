//! A limit of two queues' portions: the nearest of each queue's leaves are together the two that are wanted, so that a leaf farther than
//! both is cut, though neither worker's list nor the best-so-far would cut it.
ghost use Rattle.std.specs.Prelude.{◌≡◌, IfOk};

use super::forms::{Form, searched};
use super::held::{Holding, waits};
use crate::claims::assert_same;
use breakpoints::Table;
use outside::{NoGate, NoMemory};
use plain_search::Watched;
use query_core::Task;
use series_core::{Flat, Pair};
use std::alloc::Global;
use std::test::*;
use subtree_build::{Settings, build};

/// Five points in leaves of one: (300,100) in leaf 3, (-100,20000) in leaf 1, the query (200,20000) in leaf 4, which is the start leaf, and
/// (-20000,-20000) and (20000,-20000) in leaves 0 and 2, which are farther than all others.
fn five_points(alloc: Global) -> Result<Flat, NoMemory>
    ensures { IfOk result (λ flat. flat.points ≡ 2) }
{
    let values = [
        300, 100, -100, 20000, 200, 20000, -20000, -20000, 20000, -20000,
    ]
    .to_vec(alloc)?;
    Ok(Flat::from_values(2, values))
}

/// The two nearest to (200,20000).
const NEAREST: [Pair; 2] = [
    Pair {
        distance: 0,
        number: 2,
    },
    Pair {
        distance: 90000,
        number: 1,
    },
];

// Worker 0 puts the four leaves by its turns 0 to 16. Then it takes leaf 2, offers, takes leaf 0 and shuts queue 0, while worker 1
// waits; and it waits for worker 1, which takes leaf 1 and shuts queue 1 where leaf 3 still lies.
#[test]
fn a_leaf_is_cut_by_what_both_workers_found(rt: HostRuntime) -> Result<(), Fail> {
    let alloc = rt.alloc();
    let settings = Settings::new(2, 2, Table::Flat, 1);
    for locked in [false, true] {
        let flat = five_points(alloc)?;
        let index = build(&rt, alloc, &flat, &settings, 1, &NoGate)?;
        let rows = Watched::over(flat, None);
        let task = Task::new(&rows, &[200, 20000], 2, &settings.layout);
        let gate = Holding::at([waits(1, 0, 16), waits(1, 1, 22), waits(0, 24, 5)]);
        let form = Form {
            workers: 2,
            queues: 2,
            locked,
        };
        let outcome = searched(&rt, alloc, &task, &index, &gate, form)?;
        let turns = [gate.come(0), gate.come(1)];
        assert_same!(rt; (gate.in_vain(), turns), (0, [26, 7]), "{form:?}");
        assert_same!(rt;
            outcome.pairs.items.as_slice(),
            NEAREST.as_slice(),
            "{form:?}"
        );
        assert_same!(rt; rows.times(0), 0, "(300,100) is cut, {form:?}");
    }
    Ok(())
}
