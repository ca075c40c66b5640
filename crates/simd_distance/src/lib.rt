//! How far apart two series are: the sum of the squared differences of their values.
//! One function computes it value by value, and one in lanes that gives up as soon as a limit is passed.
#![tactic(auto)]

mod blocks;
mod far;
mod kernel;
mod lanes;
mod low;
mod near;
mod plain;

pub use kernel::distance_within;
pub use plain::distance;
