//! The search for the k nearest rows by several workers, each in a thread of its own (MESSI, Peng, Fatourou, Palpanas, ICDE 2020).
//! A search has two parts: in the fill part the workers claim root children and put leaves, in the drain part they take the
//! leaves that were put. Between the parts all workers have returned, so that no leaf is put while others are taken.
#![tactic(auto)]

mod concluding;
mod drain_hand;
mod drain_part;
mod draining;
mod fill_hand;
mod fill_part;
mod filled_queues;
mod filling;
mod lines;
mod locked;
mod locked_part;
mod locked_queues;
mod locked_team;
mod locking;
mod locks;
mod marked;
mod opening;
mod plan;
mod portions;
mod queues;
mod root_claims;
mod sealed;
mod sealed_queues;
mod searcher;
mod tuning;

pub use locked::nearest;
pub use sealed::nearest_sealed;
