//! The whole program but its outside: words, files, the search, the text and the status that it ends with.
//! One module a stage. No two modules call each other.
#![tactic(auto)]

mod answers;
mod batch;
mod commands;
mod crew;
mod dealing;
mod finding;
mod growing;
mod input;
mod laws;
mod layout;
mod output;
mod row;
mod running;
mod serving;
mod status;
mod tree;
mod tuning;

pub use command_words::{Command, WordsError, parse_words};
pub use laws::{certificate_law, convert_law};
pub use random_walks::walks;
pub use running::{run, run_free};
pub use status::{CertFault, Status, Which};
