//! The queries that are swept together: those of some in a row that the sample chooses. Where it does not choose the first, there are none.
ghost use Rattle.std.specs.Prelude.{◌-◌, ◌+◌, ◌<◌, ◌≤◌, All, IfOk, length};
ghost use Rattle.group_answer.specs.Asking.{IsAsked};
ghost use Rattle.group_answer.specs.Sweeping.{IsChosen};

use crate::asked::Asked;
use crate::choice::limit_to_sweep;
use crate::tuning::MORE_BY_TREE;
use outside::NoMemory;
use search_task::{Search, Task};
use series_core::Rows;
use std::alloc::Global;

/// A query that is swept: its number, its task, and a limit that is not below its last distance.
#[derive(Drop)]
pub(crate) struct Chosen<'a, R: Rows> {
    pub number: u32,
    pub task: Task<'a, R>,
    pub limit: u64,
}

/// Those of the queries from `first` up to but not including `end` that are swept.
pub(crate) fn choose<'a, R: Rows>(
    alloc: Global,
    asked: &Asked<'a, R>,
    first: u32,
    end: u32,
) -> Result<Vec<Chosen<'a, R>>, NoMemory>
    requires asked { IsAsked R.collection asked.now }
    requires end { end ≤ length asked.now.queries.now.series }
    requires order { first ≤ end }
    ensures few { IfOk result (λ chosen. length chosen.items ≤ end - first) }
    ensures chosen { IfOk result (λ chosen. All (IsChosen R.collection asked.now) chosen.items) }
{
    let mut chosen = Vec::new(alloc);
    for number in first..end {
        look_at(alloc, asked, number, &mut chosen)?;
        let looked = (number - first) as usize;
        if chosen.is_empty() || looked >= 2 * chosen.len() + MORE_BY_TREE {
            break;
        }
    }
    Ok(chosen)
}

// Puts a query behind those that are chosen, where it is swept.
fn look_at<'a, R: Rows>(
    alloc: Global,
    asked: &Asked<'a, R>,
    number: u32,
    chosen: &mut Vec<Chosen<'a, R>>,
) -> Result<(), NoMemory>
    requires asked { IsAsked R.collection asked.now }
    requires below { number < length asked.now.queries.now.series }
    requires chosen { All (IsChosen R.collection asked.now) chosen.old.items }
    ensures few { IfOk result (λ _. length chosen.new.items ≤ length chosen.old.items + 1) }
    ensures chosen { IfOk result (λ _. All (IsChosen R.collection asked.now) chosen.new.items) }
{
    let task = asked.task(number);
    let Some(limit) = limit_to_sweep(alloc, &Search::new(&task, asked.index))? else {
        return Ok(());
    };
    chosen.push(Chosen {
        number,
        task,
        limit,
    })?;
    Ok(())
}
