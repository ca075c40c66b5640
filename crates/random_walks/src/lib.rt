//! Collections of random walks, made from one number: large valid inputs that are the same each time.
#![tactic(auto)]

mod drawing;

pub use drawing::{generator, walks};
