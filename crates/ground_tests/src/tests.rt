//! The tests of the ground, a module a crate.

mod linked_lists;
mod locks;
mod memory_forms;
mod merged_lists;
mod pairs_and_rows;
mod queues;
mod sealed;
