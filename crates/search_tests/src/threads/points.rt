//! The search for the points nearest to (0,0) of (0,0), (0,20000) and (300,0), in leaves of one, as worked by hand.
use series_core::{Entry, Pair};

/// The points by their distance from (0,0).
pub(super) const BY_DISTANCE: [Pair; 3] = [
    Pair {
        distance: 0,
        number: 0,
    },
    Pair {
        distance: 90000,
        number: 2,
    },
    Pair {
        distance: 400000000,
        number: 1,
    },
];

/// The two leaves beside that of (0,0), as they wait in a queue: those of (300,0) and of (0,20000).
pub(super) const BY_BOUND: [Entry; 2] = [
    Entry {
        bound: 65536,
        leaf: 1,
    },
    Entry {
        bound: 268435456,
        leaf: 2,
    },
];
