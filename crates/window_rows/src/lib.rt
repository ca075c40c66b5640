//! Windows of one long series as rows, and choices of pairs that lie apart.
//! A window is lent and never copied; near windows overlap, so a choice wants them apart.
#![tactic(auto)]

mod choosing;
mod laws;
mod rows;

pub use choosing::choose;
pub use laws::{enough_law, windows_law};
pub use rows::Windows;
