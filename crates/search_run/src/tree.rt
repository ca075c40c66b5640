//! A tree with what it goes by. Its one rule: how it came to be is told by the call that gives it.

use subtree_build::{Index, Settings};

/// The tree of a collection, and the settings that it goes by.
#[derive(Drop)]
pub struct Tree {
    /// The root children, the nodes and the leaves.
    pub index: Index,
    /// How series become words, and how many members a leaf may have.
    pub settings: Settings,
}
