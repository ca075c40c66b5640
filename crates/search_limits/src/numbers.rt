//! The numbers themselves. Their one rule: clauses, code and messages of other crates take them from here.

/// The most segments of a series.
pub const MOST_SEGMENTS: u32 = 16;

/// The most series of a leaf whose word can still be divided, as settings may ask.
pub const MOST_LEAF: u32 = 65535;

/// The most workers of a search or of a building.
pub const MOST_WORKERS: u32 = 64;

/// The most queues for the leaves of a search.
pub const MOST_QUEUES: u32 = 64;

/// The most by which the numbers of two chosen windows may be asked to differ.
pub const MOST_APART: u32 = 512;

/// The most bytes of a certificate or of a saved index: 1 GiB.
pub const MOST_TEXT_BYTES: u64 = 1073741824;

/// What is added to a value of 16 bits so that none lies below 0.
pub const RAISE: u32 = 32768;
