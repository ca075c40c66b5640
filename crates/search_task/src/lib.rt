//! What every search for the nearest stands on: the question, the task that asks it, the task with the index that is searched for it,
//! the scan of a leaf, and the laws of all this.
//! It takes no turns and chooses no order of leaves: the crates above do.
#![tactic(auto)]

mod first_leaf;
mod index_laws;
mod leaf_scan;
mod scan;
mod search;
mod task;

pub use index_laws::{index_law, search_law};
pub use leaf_scan::codes_at_place;
pub use scan::{distance_of_worst, most_to_add};
pub use search::Search;
pub use task::Task;
