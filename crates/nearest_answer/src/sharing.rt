//! When a search is shared, and by how many workers. Its one rule: a thread is started only for work that takes longer than its start.
ghost use Rattle.std.specs.Prelude.{◌≤◌};

use crate::tuning::{LEAST_MEMBERS_TO_SHARE, MEMBERS_OF_START, SHARED_FIRST_EACH, VALUES_OF_START};
use search_task::{Search, Task};
use series_core::Rows;

/// Whether so many leaves have too few members to pay for the start of threads.
pub(crate) fn is_little<R: Rows>(search: &Search<'_, R>, leaves: usize) -> bool {
    members_in(search, leaves) < LEAST_MEMBERS_TO_SHARE
}

/// How many of these workers so many leaves pay for.
pub(crate) fn hired_for_leaves<R: Rows>(search: &Search<'_, R>, leaves: usize, workers: u32) -> u32
    requires { 1 ≤ workers }
    ensures { (1 ≤ result) × (result ≤ workers) }
{
    hired(members_in(search, leaves) / MEMBERS_OF_START, workers)
}

/// How many of these workers the codes of all members' rows, or all rows, pay for.
pub(crate) fn hired_for_rows<R: Rows>(task: &Task<'_, R>, workers: u32) -> u32
    requires { 1 ≤ workers }
    ensures { (1 ≤ result) × (result ≤ workers) }
{
    hired(value_count(task) / VALUES_OF_START, workers)
}

/// How many of the leaves that are left are shared first where k is great.
pub(crate) fn shared_first<R: Rows>(search: &Search<'_, R>) -> usize {
    let leaves = u64::from(search.leaf_count());
    let count = u64::from(search.task().count()).max(1);
    let members = SHARED_FIRST_EACH * u64::from(search.k());
    (members.saturating_mul(leaves) / count) as usize
}

/// How many values all rows have.
pub(crate) fn value_count<R: Rows>(task: &Task<'_, R>) -> u64 {
    u64::from(task.count()).saturating_mul(task.row_length() as u64)
}

// How many members so many leaves have, as far as all leaves have as many.
fn members_in<R: Rows>(search: &Search<'_, R>, leaves: usize) -> u64 {
    let count = u64::from(search.task().count());
    let all = u64::from(search.leaf_count()).max(1);
    (leaves as u64).saturating_mul(count) / all
}

// How many of these workers pay where one alone takes as long as so many threads take to start: the root of that number, since each start
// adds to the time as much as it then takes away.
fn hired(starts: u64, workers: u32) -> u32
    requires { 1 ≤ workers }
    ensures { (1 ≤ result) × (result ≤ workers) }
{
    starts.isqrt().max(1).min(u64::from(workers)) as u32
}
