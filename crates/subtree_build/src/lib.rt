//! The iSAX tree of a collection: its series divided by root number, and then bit by bit.
#![tactic(auto)]

mod assembly;
mod bare_tree;
mod boxes;
mod building;
mod fetched;
mod frame;
mod index;
mod laws;
mod leaf;
mod leaf_row;
mod means;
mod next_bits;
mod node;
mod part;
mod phases;
mod room;
mod settings;
mod splicing;
mod split;
mod start;
mod subtree;
mod summaries;
mod tables;

pub use assembly::Assembly;
pub use boxes::{GROUP, WIDE_GROUP};
pub use frame::Frame;
pub use index::Index;
pub use laws::{bare_tree_fits, leaf_bound_is_below_distances, leaf_bound_is_no_less};
pub use leaf::{MemberList, TreeLeaf};
pub use means::coded_length;
pub use node::Node;
pub use phases::{build, build_alone, build_bare};
pub use settings::Settings;
