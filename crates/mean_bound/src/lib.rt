//! Bounds by means: for each segment of a series the mean of its values, rounded down to 16 bits, and how near the series
//! can be to a query as far as its means tell. A bound is never above the distance.
#![tactic(auto)]

mod gaps;
mod laws;
mod mean_box;
mod means;
mod view;

pub use laws::{
    box_bound_is_no_greater, mean_bound_is_below_distance, wider_box_bound_is_no_greater,
};
pub use mean_box::MeanBox;
pub use means::Means;
pub use view::MeanView;
