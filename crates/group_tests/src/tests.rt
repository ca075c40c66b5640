//! The tests of batches and of which queries are swept together, with what they share: batches that are asked, and kinds of series.

mod asking;
mod batches;
mod choices;
mod kinds;
