//! The greatest numbers that words alone may have, and what stands for an option that is absent. Limits that hold elsewhere too are
//! those of `limits` and `series_core`.

/// The greatest radius: 2 to the power of 48.
pub const MOST_RADIUS: u64 = 281474976710656;

/// The most queries of a trial.
pub const MOST_QUERIES: u32 = 1000;

/// How many series a leaf holds where words do not say it.
pub const USUAL_LEAF: u32 = 1000;

/// How many workers search where words do not say it.
pub const USUAL_WORKERS: u32 = 4;

/// How many queues there are where words do not say it.
pub const USUAL_QUEUES: u32 = 2;
