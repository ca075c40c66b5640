//! What the tests of several runs share: the words of a line, small series files, an outside whose calls fail, how a run ended,
//! and two workers that meet at a gate.
#![tactic(auto)]

mod ended;
mod meeting;
mod series;
mod sound;
mod words;

pub use ended::Ended;
pub use meeting::Meeting;
pub use series::{VALUES, spelled};
pub use sound::{Outside, SOUND};
pub use words::words_of;
