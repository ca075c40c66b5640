//! Tests of the ground, a module a crate, in a crate of their own: the gate proves a crate that has tests twice.
//! It has no code: what is promised stands at its own calls.
#![tactic(auto)]

#[cfg(test)]
mod claims;
#[cfg(test)]
mod tests;
