//! The words of a line.

use outside::NoMemory;
use std::alloc::Global;

/// The words of a line, parted by one space each; an empty line has none.
pub fn words_of(alloc: Global, line: &str) -> Result<Vec<String>, NoMemory> {
    let mut words = Vec::new(alloc);
    if line.is_empty() {
        return Ok(words);
    }
    for word in line.split(' ') {
        words.push(String::from_str(alloc, word)?)?;
    }
    Ok(words)
}
