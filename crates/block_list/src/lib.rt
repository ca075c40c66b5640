//! A list in linked blocks of sixteen items, which takes another list behind it without memory and without copying.
//! The nodes under it are the one place with raw pointers; everything above them is safe code.
#![tactic(auto)]

mod block;
mod iter;
mod list;
mod nodes;
mod row;
mod walk;

pub use iter::Iter;
pub use list::BlockList;
pub use row::Unplaced;
