//! The limits that several crates hold to, each stated once: of segments, leaves, workers, queues and texts, and by how much values are
//! raised so that none is negative. What a collection and a list of pairs may hold stands in `series_core`.
#![tactic(auto)]

mod numbers;

pub use numbers::{
    MOST_APART, MOST_LEAF, MOST_QUEUES, MOST_SEGMENTS, MOST_TEXT_BYTES, MOST_WORKERS, RAISE,
};
