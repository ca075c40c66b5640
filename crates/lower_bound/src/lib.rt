//! The lower bound of the iSAX papers, in whole numbers: how near a series can be to a query, as far as its
//! word tells. A bound is never above the distance of a series that the word contains.
#![tactic(auto)]

mod cost;
mod laws;
mod roots;
mod view;

pub use laws::{bound_is_below_distance, child_bound_is_no_less, full_bound_is_below_distance};
pub use view::QueryView;
