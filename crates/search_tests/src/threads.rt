//! Searches by several workers: worked rows, rows that are watched, gates, workers that are held, limits that they share, and random
//! small collections.
mod forms;
pub(crate) mod gates;
mod held;
mod plain;
mod points;
mod shared_limits;
mod watched;
mod worked;
