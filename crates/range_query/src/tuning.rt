//! The numbers by which a search within a radius is tuned. Each changes how long a search takes, and never what it finds.

/// Into how many groups a worker's share of the root children falls, at least: so that the last that is drawn is an eighth of a share at
/// most.
pub(crate) const GROUPS_A_SHARE: u32 = 8;

/// How many root children a worker draws at a time, at most.
pub(crate) const MOST_ROOTS_A_GROUP: u32 = 64;
