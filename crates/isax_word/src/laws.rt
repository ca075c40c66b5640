//! Laws of symbols and words that other crates rest on. Each is proved of the definitions alone.
ghost use Rattle.std.specs.Prelude.{ℕ, List, All, ◌≡◌, ◌+◌, ◌-◌, ◌*◌, ◌^◌, ◌<◌, ◌≤◌, ◌↔◌, true, false, not, length, IsTrue, pos, ◌*ℤ◌, ◌<ℤ◌, ◌≤ℤ◌};
ghost use Rattle.isax_word.specs.Symbol.{symbol_of};
ghost use Rattle.isax_word.specs.FullWord.{root_number};
ghost use Rattle.isax_word.specs.declared.word.Part.{Part};
ghost use Rattle.isax_word.specs.Word.{IsWord, part_at, part_contains, word_contains, child_word, next_bit_at, one_bit_word};
ghost use Rattle.breakpoints.specs.Breakpoint.{breakpoint};

use crate::full::Full;
use crate::word::{Part, Word};
use breakpoints::Table;

/// The law that a sum lies between the breakpoint of its symbol and the next one, both times the length:
/// there is no breakpoint below the symbol 0 and none above the symbol 255.
pub fn symbol_bracket(table: Table, length: u32, sum: i32)
    ensures last { symbol_of table length sum ≤ 255 }
    ensures at_least { let symbol = symbol_of table length sum in
        1 ≤ symbol → (pos length *ℤ breakpoint table symbol) ≤ℤ sum }
    ensures below { let symbol = symbol_of table length sum in
        symbol < 255 → sum <ℤ (pos length *ℤ breakpoint table (symbol + 1)) }
{}

/// The law that a symbol that a part contains lies from `p * 2^(8-c)` up to `(p+1) * 2^(8-c)`, the latter
/// left out, where the part has the `c` bits `p`.
pub fn symbols_of_a_prefix(part: Part, symbol: u8)
    requires { part_contains part symbol ≡ true }
    ensures at_least { part.prefix * 2 ^ (8 - part.bits) ≤ symbol }
    ensures below { symbol < (part.prefix + 1) * 2 ^ (8 - part.bits) }
{}

/// The law that a full word that a word contains is contained in exactly one of the two children of a
/// split: in the high one where the symbol's next bit is 1, and else in the low one.
pub fn one_child_contains(word: &Word, segment: u32, full: &Full)
    requires used { segment < length word.now }
    requires divisible { (part_at word.now segment).bits < 8 }
    requires contained { word_contains word.now full.now ≡ true }
    ensures exactly_one { let high = word_contains (child_word word.now segment true) full.now in
        high ≡ not (word_contains (child_word word.now segment false) full.now) }
    ensures by_the_next_bit { let high = word_contains (child_word word.now segment true) full.now in
        IsTrue high ↔ (next_bit_at word.now full.now segment ≡ 1) }
{}

/// The law that a full word that a word's child contains is contained in the word.
pub fn child_is_within(word: &Word, segment: u32, high: bool, full: &Full)
    requires used { segment < length word.now }
    requires divisible { (part_at word.now segment).bits < 8 }
    requires contained { word_contains (child_word word.now segment high) full.now ≡ true }
    ensures { word_contains word.now full.now ≡ true }
{}

/// The law that root numbers and words of one bit a segment correspond one to one: different roots have different
/// words, and each word of one bit a segment is that of a root.
pub fn roots_and_words_correspond()
    ensures apart { (root other w : ℕ) → root < 2 ^ w → other < 2 ^ w
        → one_bit_word root w ≡ one_bit_word other w → root ≡ other }
    ensures each { (word : List Part) → IsWord word → All (λ p. p.bits ≡ 1) word
        → (root : ℕ) × (root < 2 ^ length word) × (one_bit_word root (length word) ≡ word) }
{}

/// The law that just one root contains a full word: the root number of a full word is below 2 to the number of
/// segments, and of the one-bit words of such numbers the word of the root number contains it and no other does.
pub fn one_root_contains(full: &Full, root: u32)
    requires { root < 2 ^ length full.now }
    ensures root_is_below { root_number full.now < 2 ^ length full.now }
    ensures that_one_alone { let contained = word_contains (one_bit_word root (length full.now)) full.now in
        IsTrue contained ↔ (root ≡ root_number full.now) }
{
    let _segments = full.segments();
}
