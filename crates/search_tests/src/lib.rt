//! Tests of the searches and of certificates, in a crate of their own: the gate proves a crate that has tests twice.
//! It has no code: what a search promises stands at its own calls.
#![tactic(auto)]

#[cfg(test)]
mod answers;
#[cfg(test)]
mod cases;
#[cfg(test)]
mod certificates;
#[cfg(test)]
mod claims;
#[cfg(test)]
mod discords;
#[cfg(test)]
mod outcomes;
#[cfg(test)]
mod radius;
#[cfg(test)]
mod team;
#[cfg(test)]
mod threads;
#[cfg(test)]
mod workers;
