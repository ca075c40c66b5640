//! The breakpoints of a symbol: two tables of 255 whole numbers, strictly ascending, that stand in for
//! the breakpoints of a normal distribution of the iSAX papers. Each is given by a formula and none is stored.
#![tactic(auto)]

mod table;

pub use table::{Table, breakpoints_ascend};
