//! Reading a whole certificate: its text is cut into lines, and each line is handed to the reader.

ghost use Rattle.std.specs.Prelude.{◌≡◌, ◌<◌, ◌≤◌, ◌∷◌, List, length, IfOk, IfErr};
ghost use Rattle.certificate.specs.declared.block.Block.{Block};
ghost use Rattle.std.specs.List.{All};
ghost use Rattle.certificate.specs.Verdict.{IsFor};
ghost use Rattle.certificate.specs.Grammar.{Spells, ReadsAs, IsRightError, lines_of};

use crate::block::Block;
use crate::error::CertError;
use crate::reader::Reader;
use memchr::memchr;
use std::alloc::Global;

/// Reads the text of a certificate whose words have `segments` segments, from 1 to 16. With `labelled` each answer has a
/// label. `Line(at)`: the first `at` lines are the fewest with which no certificate begins; where some certificate begins
/// with all lines and a block is not finished, `at` is the number of lines plus 1. Otherwise the answer is the blocks of
/// the text.
pub fn read(
    alloc: Global,
    bytes: &[u8],
    segments: u32,
    labelled: bool,
) -> Result<Vec<Block>, CertError>
    requires some { 1 ≤ segments }
    requires few { segments ≤ 16 }
    // What is read is what the bytes spell.
    ensures found { IfOk result (λ blocks. Spells segments labelled bytes.now blocks.items) }
    // The blocks may be checked under a layout of these segments, against series with labels or without.
    ensures fit { IfOk result (λ blocks. All (IsFor segments labelled) blocks.items) }
    // What the bytes spell is read, unless memory runs out.
    ensures only { (blocks : List Block) → Spells segments labelled bytes.now blocks → ReadsAs result blocks }
    // A line is reported exactly where it is the first with which no certificate begins.
    ensures error { IfErr result (IsRightError segments labelled bytes.now) }
{
    let _length = bytes.len();
    let mut reader = Reader::new(alloc);
    let mut rest = bytes;
    let mut count = 0u64;
    while !rest.is_empty() {
        let (line, after) = first_line(rest);
        if !reader.take(alloc, line, segments, labelled)? {
            return Err(CertError::Line(count + 1));
        }
        count += 1;
        rest = after;
    }
    if !reader.is_whole() {
        return Err(CertError::Line(count + 1));
    }
    Ok(reader.finish()?)
}

// The first line of a text that is not empty, with its line feed where it has one, and the rest.
fn first_line(text: &[u8]) -> (&[u8], &[u8])
    requires { 0 < length text.now }
    ensures lines { lines_of text.now ≡ result.0.now ∷ lines_of result.1.now }
    ensures shorter { length result.1.now < length text.now }
{
    match memchr(b'\n', text) {
        Some(i) => text.split_at(i + 1),
        None => text.split_at(text.len()),
    }
}
