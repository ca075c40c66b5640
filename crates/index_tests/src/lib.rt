//! Tests of saved indexes and of searches by them, in a crate of their own: the gate proves a crate that has tests twice.
//! It has no code: what is promised stands at its own calls.
#![tactic(auto)]

#[cfg(test)]
mod claims;
#[cfg(test)]
mod tests;
