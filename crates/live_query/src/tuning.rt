//! The numbers by which a search by threads is tuned. Each changes how long a search takes, and never what it finds.

/// How many groups of root children a worker's share has, at least. Fewer leave the workers with unlike shares at the end of the fill part.
pub(crate) const GROUPS_A_SHARE: u32 = 8;

/// How many root children a group has, at most. Such groups are drawn at one step of the shared counter, so that few draws meet there.
pub(crate) const MOST_ROOTS_A_GROUP: u32 = 64;
