//! The numbers by which the search for discords is tuned. Each changes how long a search takes, and never what it finds.

/// How many series a worker draws at a time, at most. Most are given up after a measure or two, and workers that draw so often wait for each
/// other's draws; the few that are searched for take far longer, so many more in a row would leave a worker at work while the others have
/// none.
pub(crate) const SERIES_OF_GROUP: u32 = 16;

/// How many groups there are for each worker, at least, where there are as many series: so that all have work, and the last that is drawn is
/// an eighth of a worker's share at most.
pub(crate) const GROUPS_OF_WORKER: u32 = 8;

/// How many leaves on each side of its own are looked through before a series is searched for its nearest other.
pub(crate) const LEAVES_AROUND: u32 = 8192;

/// How many of the series that were near others last are remembered, and tried first.
pub(crate) const RECENT_SERIES: usize = 12;
