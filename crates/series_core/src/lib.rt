//! What every search speaks of: pairs of a distance and a series number, collections of series, and the k best pairs.
//! The definitions of a collection, of a distance and of an answer stand in `specs/`, and no other crate has its own.
#![tactic(auto)]

mod best;
mod distance;
mod flat;
mod laws;
mod listed;
mod pair;
mod queue_words;
mod ranges;
mod rows;

pub use best::{KBest, MAX_BEST};
pub use distance::{NONE, far};
pub use flat::Flat;
pub use laws::{answer_law, distance_law, joined_law, last_law, part_law, rank_law};
pub use listed::Listed;
pub use pair::{LabelList, Pair, PairList};
pub use queue_words::{Entry, PopReply, PutReply};
pub use ranges::values_fit;
pub use rows::{MAX_COUNT, MAX_LENGTH, MAX_VALUES, Rows};
