//! The tests of words, bounds and distances, a module a crate.

mod bounds;
mod distances;
mod segments;
mod tables;
mod words;
