//! A saved index: the one text of an index over a collection, and its reader, which believes nothing of the bytes.
#![tactic(auto)]

mod error;
mod fitting;
mod framing;
mod header;
mod laws;
mod loading;
mod members;
mod node;
mod numbers;
mod reading;
mod roots;
mod savable;
mod saving;
mod words;

pub use error::IndexFault;
pub use laws::{
    loads_back_law, no_fault_law, one_text_law, reading_law, text_tells_index_law, tree_law,
};
pub use loading::{LoadedIndex, load, load_alone, load_with};
pub use savable::can_save;
pub use saving::save;
