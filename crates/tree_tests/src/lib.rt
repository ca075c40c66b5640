//! Tests of building, in a crate of their own: the gate proves a crate that has tests twice.
//! It has no code: what an index promises stands at its own calls.
#![tactic(auto)]

#[cfg(test)]
mod assembled;
#[cfg(test)]
mod claims;
#[cfg(test)]
mod drawn;
#[cfg(test)]
#[cfg(test)]
mod worked;
