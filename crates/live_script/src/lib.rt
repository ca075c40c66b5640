//! Scripts of a live collection: batches to append, and queries to ask between them.
#![tactic(auto)]

mod error;
mod laws;
mod line;
mod reader;
mod script;

pub use error::ScriptError;
pub use laws::one_script_law;
pub use reader::read_script;
pub use script::{Asking, Group, NamedFile, Script};
