//! The searches as a library for C: an index is built once and held by a handle that C passes back, and each thread of the host searches by
//! a handle of its own.
#![tactic(auto)]

mod answers;
mod building;
mod handle;
mod held;
mod making;
mod pieces;
mod searching;
mod settings;
mod slot;
mod status;
#[cfg(test)]
mod tests;
mod texts;
mod together;
mod windows;
