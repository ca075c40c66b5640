//! The first phase of building: workers draw chunks of the collection and sort the full words of its series into
//! buffers, one list for each root number.
#![tactic(auto)]

mod buffers;
mod chunk;
mod laws;
mod summary;

pub use buffers::Buffers;
pub use chunk::chunks;
pub use laws::root_law;
pub use summary::summarise;

#[cfg(test)]
mod tests;
