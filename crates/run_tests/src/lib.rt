//! Whole runs of the program as tables: words over files in memory, and the status, the text and the line that they end with.
//! It is a crate of its own, so that the program is not proved a second time for them.
#![tactic(auto)]

#[cfg(test)]
mod claims;
#[cfg(test)]
mod tests;
