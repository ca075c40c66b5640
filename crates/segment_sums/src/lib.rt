//! How a series is cut into segments of nearly equal length, and the sum of its values over each segment.
//! Sums stand where the iSAX papers have means, so that all arithmetic is exact.
#![tactic(auto)]

mod cuts;

pub use cuts::{Cuts, segments_cover};
