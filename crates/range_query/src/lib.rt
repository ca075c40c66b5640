//! All series within a radius of a query, found by workers that walk the root children of an index side by side.
//! A node whose lower bound is above the radius is cut with all below it (MESSI, Peng, Fatourou, Palpanas, ICDE 2020).
#![tactic(auto)]

mod range;
mod team;
mod tuning;
mod walk;

pub use range::{within, within_alone};
