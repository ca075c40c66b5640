//! Codes of whole rows: each value of a row in 4 bits, with a step for each block of 256 values, and the length of what the codes
//! forget (the approximation of a VA-file, Weber, Schek and Blott, VLDB 1998, with steps of a row's own in place of cells of one width
//! for all rows). They tell how far the row lies from a query at least; that bound is never above the distance.
#![tactic(auto)]

mod block;
mod coding;
mod four;
mod lanes;
mod laws;
mod limit;
mod roots;
mod sums;
mod view;

pub use block::{CodeBlock, block_count, code_row};
pub use four::four_within;
pub use laws::{code_bound_is_below_distance, codes_have_squares};
pub use limit::CodeLimit;
pub use view::CodeView;
