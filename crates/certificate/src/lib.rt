//! Certificates: what a search says of each query, checked against the plain list of all series and nothing else.
#![tactic(auto)]

mod answers;
mod block;
mod checking;
mod error;
mod fields;
mod laws;
mod leaves;
mod line;
mod misses;
mod parts;
mod printing;
mod reader;
mod tail;
mod text;
mod tuning;
mod words;

pub use block::{Block, EntryLists, LeafLine, LeafLineList, Said};
pub use checking::check;
pub use error::{CertError, Reject};
pub use laws::certificates_hold;
pub use printing::print;
pub use text::read;
