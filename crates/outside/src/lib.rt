//! The outside as the search sees it: files to read, sinks to write, and a gate before each turn of a worker.
//! Each is a trait whose ghost members say what is there; the forms in memory are for tests and for proofs.
#![tactic(auto)]

mod counts;
mod faults;
mod files;
mod gate;
mod held_files;
mod mem_files;
mod mem_sink;
mod reading;
mod sink;
mod writing;

pub use faults::{AllError, Failed, NoMemory, OpenFault};
pub use files::Files;
pub use gate::{Gate, NoGate};
pub use mem_files::MemFiles;
pub use mem_sink::MemSink;
pub use reading::read_all;
pub use sink::Sink;
pub use writing::write_whole;
