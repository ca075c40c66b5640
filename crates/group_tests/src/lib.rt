//! Tests of the answers to several queries, in a crate of their own: the gate proves a crate that has tests twice.
//! It has no code: what these answers promise stands at their own calls.
#![tactic(auto)]

#[cfg(test)]
mod claims;
#[cfg(test)]
mod tests;
