//! The numbers by which a search for the answer alone is tuned. Each changes how long a search takes, and never what it finds.

/// How many members are scanned for a first limit, at least. Fewer give a limit that leaves many more leaves near.
pub(crate) const FIRST_MEMBERS: usize = 128;

/// Which pair of these members is the guess for a great k: the tenth, as a place from 0. It lies nearer than the k-th as a rule, so where
/// nothing tells members apart by it, nothing does by the k-th.
pub(crate) const GUESSED_PLACE: usize = 9;

/// Up to which k the first limit decides what tells members apart. Above it this limit is poor, and to decide by it took five times as
/// long for 1000 of 500,000 walks.
pub(crate) const MOST_RANKS_BY_SAMPLE: u32 = 64;

/// Up to which k the leaves next to the first leaf are scanned until they hold k members. For a greater k all leaves are listed anyway.
pub(crate) const MOST_RANKS_OF_NEXT_LEAVES: u32 = 256;

/// How many members are scanned for a closer limit where means tell little by the first one.
pub(crate) const CLOSER_MEMBERS: usize = 256;

/// How many of them there are to be for each of the k: of fewer, the k-th is too far to tell anything by.
pub(crate) const CLOSER_MEMBERS_EACH: usize = 8;

/// Which part of that limit is taken off for the guess what tells members apart, since the last distance lies below it: a quarter.
pub(crate) const CLOSER_PART: u64 = 4;

/// How many leaves of least bound are scanned for a closer limit, at least.
pub(crate) const CLOSEST_LEAVES: u64 = 64;

/// How many members these leaves are to have, as far as all leaves have as many.
pub(crate) const CLOSEST_MEMBERS: u64 = 512;

/// How many members they are to have for each of the k.
pub(crate) const CLOSEST_MEMBERS_EACH: u64 = 2;

/// Up to how many entries of leaves are sorted by number. More are listed anew by the closer limit: to sort tens of thousands takes as
/// long as to look at their members.
pub(crate) const MOST_SORTED_ENTRIES: usize = 4096;

/// Of how many leaves the sample takes members.
pub(crate) const SAMPLE_LEAVES: u32 = 64;

/// How many members of each of these leaves it takes, at most.
pub(crate) const SAMPLE_MEMBERS: usize = 8;

/// Of how many members of the sample the two shares below are told.
pub(crate) const SHARE_OF: u64 = 32;

/// How many of these codes may leave near for a search by leaves: more, and nearly each row of the near leaves would be read, at random
/// places, which costs more than to read all rows in order.
pub(crate) const SHARE_BY_LEAVES: u64 = 3;

/// How many they may leave near for a sweep, which takes a third of the time of all rows, and for each row that is left two or three
/// times that of a row in order.
pub(crate) const SHARE_TO_SWEEP: u64 = 8;

/// How many members the leaves within a limit have, at least, to be shared by all workers: four threads start in some 70 microseconds, and
/// one worker takes twice as long at least for so many members.
pub(crate) const LEAST_MEMBERS_TO_SHARE: u64 = 8192;

/// How many of these members one worker scans while a thread is started, some 20 microseconds.
pub(crate) const MEMBERS_OF_START: u64 = 1024;

/// Up to which k all leaves that are left are shared at once. Each worker has a list of its own, and before that holds k pairs no limit
/// falls; so for a greater k those of least bound are shared first, and the lists merged tell a limit for the others.
pub(crate) const MOST_RANKS_AT_ONCE: u32 = 32;

/// How many members the leaves that are shared first are to have for each of the k.
pub(crate) const SHARED_FIRST_EACH: u64 = 16;

/// How many values all rows have, at least, to be shared where codes are swept or all rows are read.
pub(crate) const LEAST_VALUES_TO_SHARE: u64 = 2_000_000;

/// How many of these values one worker goes through while a thread is started.
pub(crate) const VALUES_OF_START: u64 = 160_000;

/// How many of the leaves that are listed a worker draws at a time.
pub(crate) const ENTRIES_OF_STRETCH: usize = 16;

/// How many leaves a worker draws at a time where codes are swept. Of noise leaves have two members each, and sixteen of them are swept in a
/// microsecond: workers that draw so often wait for each other's draws. With 64 at a time a sixth of the time by four workers went to draws.
pub(crate) const LEAVES_OF_STRETCH: u32 = 256;

/// How many rows a worker draws at a time where all rows are read.
pub(crate) const ROWS_OF_STRETCH: u32 = 64;
