//! The numbers by which the answers to several queries are tuned. Each changes how long they take, and never what is found.

/// How many queries are looked at together, at most: so many answers at most wait for those before them. The codes of a stretch go
/// through the cache once for all of them.
pub const GROUP: u32 = 64;

/// About how many more of these may go by the tree than are swept, before no more are looked at.
pub(crate) const MORE_BY_TREE: usize = 8;

/// How many blocks of codes a stretch has: with the rows that are measured they fit the nearer cache.
pub(crate) const STRETCH_BLOCKS: usize = 1024;

/// Up to which k queries are swept together. Above it the first limit is poor.
pub(crate) const MOST_RANKS: u32 = 64;

/// How many values rows have, at least, to be swept: shorter ones are read as fast as their codes.
pub(crate) const LEAST_VALUES: usize = 96;

/// How many members are scanned for the limit that decides whether a query goes by the tree.
pub(crate) const FIRST_MEMBERS: usize = 128;

/// How many members are scanned for the limit with which a query is swept.
pub(crate) const CLOSER_MEMBERS: usize = 512;

/// Which part of that limit is taken off for the guess how many members the codes leave, since the last distance lies below it: a quarter.
pub(crate) const CLOSER_PART: u64 = 4;

/// Of how many leaves the sample takes members.
pub(crate) const SAMPLE_LEAVES: u32 = 64;

/// How many members of each of these leaves it takes, at most.
pub(crate) const SAMPLE_MEMBERS: usize = 8;

/// Of how many members of the sample the two shares below are told.
pub(crate) const SHARE_OF: u64 = 32;

/// How many of these means may leave near for a query that goes by the tree. A row that is swept costs a fourth of a member that is
/// looked at alone.
pub(crate) const SHARE_BY_TREE: u64 = 6;

/// How many of these codes may leave near for a query that is swept: each of the others is measured.
pub(crate) const SHARE_TO_SWEEP: u64 = 8;

/// One of how many queries is looked at for a group, where nothing is ahead. A look takes a tenth of the search of a walk by the tree, and is
/// thrown away there.
pub(crate) const QUERIES_OF_LOOK: u32 = 4;
