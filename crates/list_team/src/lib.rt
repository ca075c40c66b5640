//! Workers who draw from one counter, read and lower one limit, and each keep the k best pairs of what they drew. A team starts no thread:
//! whoever has one lets its workers draw.
#![tactic(auto)]

mod apart;
mod searcher;
mod team;

pub use apart::Apart;
pub use searcher::Searcher;
pub use team::{dismiss, hire, offer_last};
