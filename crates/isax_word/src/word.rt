//! Words: for each segment a prefix of its symbol and the number of bits of that prefix. Beside these a word keeps the least and the
//! greatest symbol of each prefix, so that bounds find the symbols nearest to a query's in all segments at once.
ghost use Rattle.std.specs.Prelude.{ℕ, ◌≡◌, ◌<◌, ◌≤◌, ◌^◌, ◌↔◌, IsTrue, IsSome, IfSome, length, take};
ghost use Rattle.isax_word.specs.Padded.{IsKept};
ghost use Rattle.isax_word.specs.Word.{IsPart, IsWord, MakeWord, no_part, part_at, parts_of, one_bit_word, word_contains};
ghost use Rattle.isax_word.specs.Word.{child_part, child_word, first_symbol, first_symbols, last_symbol, last_symbols};

use crate::full::Full;
use std::marker::Model;

/// What a word knows of one segment: the first `bits` bits of its symbol, as a number.
#[derive(Clone, Copy)]
pub struct Part {
    pub prefix: u8,
    pub bits: u8,
}

impl Part {
    /// The part that stands in the places past the end of a word.
    const NONE: Part = Part { prefix: 0, bits: 0 };

    /// Whether there are 1 to 8 bits and the prefix has no more of them.
    fn is_part(self) -> bool
        ensures { IsTrue result ↔ IsPart self }
    {
        1 <= self.bits && self.bits <= 8 && u32::from(self.prefix) < 1 << self.bits
    }

    /// The least symbol that begins with the prefix.
    fn first_symbol(self) -> u8
        requires { IsPart self }
        ensures { result ≡ first_symbol self }
    {
        (u32::from(self.prefix) << (8 - self.bits)) as u8
    }

    /// The greatest symbol that begins with the prefix.
    fn last_symbol(self) -> u8
        requires { IsPart self }
        ensures { result ≡ last_symbol self }
    {
        (((u32::from(self.prefix) + 1) << (8 - self.bits)) - 1) as u8
    }

    /// The part with one bit more.
    fn child(self, high: bool) -> Part
        requires fits { self.prefix < 128 }
        requires divisible { self.bits < 8 }
        ensures { result ≡ child_part self high }
    {
        Part {
            prefix: 2 * self.prefix + u8::from(high),
            bits: self.bits + 1,
        }
    }
}

/// A word, seen as the list of its parts, one for each segment.
#[derive(Clone, Copy)]
pub struct Word {
    count: u32,
    parts: [Part; 16],
    firsts: [u8; 16],
    lasts: [u8; 16],
}

impl Model for Word {
    ghost use Rattle.std.specs.Prelude.{List, take, length, ◌≡◌};
    ghost use Rattle.std.proofs.Common.{sym};
    ghost use Rattle.isax_word.specs.declared.word.Part.{Part};
    ghost use Rattle.isax_word.specs.Padded.{padded};
    ghost use Rattle.isax_word.specs.Word.{IsWord, no_part, first_symbols, last_symbols};

    ghost Value = { List Part };

    ghost view = { λ word. take word.count word.parts };

    ghost invariant = { λ word. IsWord (take word.count word.parts)
        × (length (take word.count word.parts) ≡ word.count)
        × (word.parts ≡ padded no_part (take word.count word.parts))
        × (word.firsts ≡ first_symbols (take word.count word.parts))
        × (word.lasts ≡ last_symbols (take word.count word.parts)) };

    ghost inverse = { λ word. record {
      count = length word;
      parts = padded no_part word;
      firsts = first_symbols word;
      lasts = last_symbols word;
    } };

    ghost inverse_ok = { λ word kept i. record {
      count = kept.1 i;
      parts = sym kept.2 i;
      firsts = sym kept.3 i;
      lasts = sym kept.4 i;
    } };
}

impl Word {
    /// The word of one bit in each of `w` segments, the bits of `root`, segment 0 the most significant.
    pub fn of_root(root: u32, w: u32) -> Self
        requires some_segments { 1 ≤ w }
        requires few_segments { w ≤ 16 }
        requires bits { root < 2 ^ w }
        ensures { result ≡ one_bit_word root w }
    {
        let mut parts = [Part::NONE; 16];
        let mut rest = root;
        for j in 0..w {
            let place = w - 1 - j;
            parts[j as usize] = Part {
                prefix: (rest >> place) as u8,
                bits: 1,
            };
            rest %= 1 << place;
        }
        Word::of_padded(w, parts)
    }

    /// The word of these prefixes and numbers of bits, one of each for each segment. None exactly where
    /// there are not as many of the one as of the other, or not 1 to 16, or some prefix has more bits than
    /// its number says, or some number of bits is not from 1 to 8.
    pub fn of_parts(prefixes: &[u8], bits: &[u8]) -> Option<Word>
        ensures accepted { IsSome result ↔ MakeWord prefixes.now bits.now }
        ensures value { IfSome result (λ word. word ≡ parts_of prefixes.now bits.now) }
    {
        if prefixes.len() != bits.len() || prefixes.is_empty() || prefixes.len() > 16 {
            return None;
        }
        let mut parts = [Part::NONE; 16];
        for j in 0..prefixes.len() {
            let part = Part {
                prefix: prefixes[j],
                bits: bits[j],
            };
            if !part.is_part() {
                return None;
            }
            parts[j] = part;
        }
        Some(Word::of_padded(prefixes.len() as u32, parts))
    }

    // The word of the first of these parts, behind which there are none.
    fn of_padded(count: u32, parts: [Part; 16]) -> Word
        requires word { IsWord (take count parts) }
        requires kept { IsKept no_part parts count }
        ensures { result ≡ take count parts }
    {
        let mut firsts = [0; 16];
        let mut lasts = [0; 16];
        for j in 0..count {
            let part = parts[j as usize];
            firsts[j as usize] = part.first_symbol();
            lasts[j as usize] = part.last_symbol();
        }
        Word {
            count,
            parts,
            firsts,
            lasts,
        }
    }

    /// The first bits of the symbol of segment `j`, as a number below 2 to the number of these bits.
    pub fn prefix(&self, j: u32) -> u8
        requires { j < length self.now }
        ensures value { result ≡ (part_at self.now j).prefix }
        ensures fits { result < 2 ^ (part_at self.now j).bits }
    {
        self.parts[j as usize].prefix
    }

    /// How many bits of the symbol of segment `j` are known, from 1 to 8.
    pub fn bits(&self, j: u32) -> u8
        requires { j < length self.now }
        ensures value { result ≡ (part_at self.now j).bits }
        ensures some_bits { 1 ≤ result }
        ensures eight_bits { result ≤ 8 }
    {
        self.parts[j as usize].bits
    }

    /// The least symbols that begin with the prefixes of all segments, and 0 in the places behind them.
    pub fn first_symbols(&self) -> &[u8; 16]
        ensures value { result.now ≡ first_symbols self.now }
        ensures is_word { IsWord self.now }
    {
        &self.firsts
    }

    /// The greatest symbols that begin with the prefixes of all segments, and 0 in the places behind them.
    pub fn last_symbols(&self) -> &[u8; 16]
        ensures { result.now ≡ last_symbols self.now }
    {
        &self.lasts
    }

    /// The number of segments, from 1 to 16.
    pub fn segments(&self) -> u32
        ensures value { result ≡ length self.now }
        ensures is_word { IsWord self.now }
    {
        self.count
    }
}

/// Whether in each segment the word's prefix is the first bits of the full word's symbol: whether that lies from the least symbol of the prefix
/// to its greatest. All sixteen places are looked at, so that a compiler can put them side by side in lanes.
pub fn contains(word: &Word, full: &Full) -> bool
    requires { length word.now ≡ length full.now }
    ensures { result ≡ word_contains word.now full.now }
{
    let firsts = word.first_symbols();
    let lasts = word.last_symbols();
    let symbols = full.symbols();
    let mut inside = true;
    for j in 0..16 {
        inside &= (firsts[j] <= symbols[j]) & (symbols[j] <= lasts[j]);
    }
    inside
}

/// The word with one bit more in one segment: a 1 in the high child, a 0 in the low one.
pub fn child(word: &Word, segment: u32, high: bool) -> Word
    requires used { segment < length word.now }
    requires divisible { (part_at word.now segment).bits < 8 }
    ensures { result ≡ child_word word.now segment high }
{
    let mut parts = word.parts;
    let part = parts[segment as usize];
    parts[segment as usize] = part.child(high);
    Word::of_padded(word.count, parts)
}
