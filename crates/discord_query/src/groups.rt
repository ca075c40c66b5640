//! Groups: what a worker draws at a time, some series in a row. Each series is in one group alone.
ghost use Rattle.std.specs.Prelude.{◌≤◌, length};
ghost use Rattle.discord_query.specs.Groups.{IsCut};
ghost use Rattle.discord_query.specs.Searches.{IsReady};

use crate::search::DiscordSearch;
use crate::tuning::{GROUPS_OF_WORKER, SERIES_OF_GROUP};
use search_limits::MOST_WORKERS;
use series_core::Rows;

/// How many series a group has, but for the last: fewer where so many workers would else have little to draw.
pub(crate) fn group_size(count: u32, workers: u32) -> u32
    requires { (1 ≤ workers) × (workers ≤ MOST_WORKERS) }
    ensures { 1 ≤ result }
{
    (count / (GROUPS_OF_WORKER * workers)).clamp(1, SERIES_OF_GROUP)
}

/// How many groups there are.
pub(crate) fn group_count<R: Rows>(search: &DiscordSearch<'_, R>) -> u32
    requires ready { IsReady R.collection search.now }
    ensures { IsCut search.now.size (length (R.collection search.now.rows.now).series) result }
{
    search.rows.count().div_ceil(search.size)
}
