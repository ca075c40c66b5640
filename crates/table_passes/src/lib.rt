//! Passes to a word in a table: how the table is closed when all of them are back.
//! `TablePass` is the right of one caller, and `close` takes in the records of all of them and answers the word.
#![tactic(auto)]

mod closing;
mod pass;

pub use closing::close;
pub use pass::TablePass;
