//! Tests of live collections, of their scripts and of whole runs of these, a module each, in a crate of their own: the gate proves a crate
//! that has tests twice. It has no code: what is promised stands at its own calls.
#![tactic(auto)]

#[cfg(test)]
mod claims;
#[cfg(test)]
mod collection;
#[cfg(test)]
mod reading;
#[cfg(test)]
mod scripts;
