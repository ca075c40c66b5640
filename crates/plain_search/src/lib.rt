//! What the tests of several searches share: plain slow searches, collections of drawn values, and rows and gates that watch.
#![tactic(auto)]

mod bare;
mod drawn;
mod known;
mod plain;
mod source;
mod turns;
mod watched;

pub use bare::tree_with;
pub use drawn::{Shape, drawn_collection, drawn_series, drawn_shape};
pub use known::{Grown, three_points, two_points};
pub use plain::{are_same, by_distance, plain_distance, plain_nearest};
pub use source::Source;
pub use turns::Turns;
pub use watched::Watched;
