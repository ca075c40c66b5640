//! Series files: how a collection, with or without labels, is spelled in bytes, and how it is read and written.
//! A file is read piece by piece through one buffer; the first failing test is the error that is given.
#![tactic(auto)]

mod body;
mod error;
mod fill;
mod header;
mod item;
mod items;
mod laws;
mod read;
mod write;

pub use error::{FileError, Form, Loaded};
pub use laws::{collection_law, no_fault_law, one_collection_law};
pub use read::read_series;
pub use write::{write_numbered, write_series};
