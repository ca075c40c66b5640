//! The answers to several queries of one collection. Those that a sample says go by the tree are answered one by one; of the others, four
//! at a time are swept together, so that the codes of the rows go through the cache once for many of them.
//! Each answer is exact, whichever way it is found.
#![tactic(auto)]

mod asked;
mod choice;
mod chosen;
mod four;
mod in_order;
mod sweep;
mod swept;
mod together;
mod tuning;

pub use asked::{Answered, Asked};
pub use in_order::{answers, next_answer};
pub use together::swept_together;
