//! The parts of a word that is being read, in place: at most 16 of them.

ghost use Rattle.std.specs.Prelude.{◌≡◌, ◌<◌, ◌++◌, ◌↔◌, [], ◌∷◌, length, IsSome, IfSome};
ghost use Rattle.isax_word.specs.Word.{IsWord};

use isax_word::{Part, Word};
use std::marker::Model;

/// The parts so far, seen as the list of them.
#[derive(Drop)]
pub struct Parts {
    prefixes: [u8; 16],
    bits: [u8; 16],
    count: usize,
}

impl Model for Parts {
    ghost use Rattle.std.specs.Prelude.{List, ◌≡◌, ◌≤◌, length, take};
    ghost use Rattle.isax_word.specs.declared.word.Part.{Part};
    ghost use Rattle.isax_word.specs.Word.{parts_of};

    ghost Value = { List Part };

    ghost view = { λ p. parts_of (take p.count p.prefixes) (take p.count p.bits) };

    ghost invariant = { λ p. (p.count ≤ 16) × (length (parts_of (take p.count p.prefixes) (take p.count p.bits)) ≡ p.count) };
}

impl Parts {
    /// No parts.
    pub fn new() -> Parts
        ensures { result ≡ [] }
    {
        Parts {
            prefixes: [0; 16],
            bits: [0; 16],
            count: 0,
        }
    }

    /// One more part.
    pub fn push(&mut self, part: Part)
        requires { length self.old < 16 }
        ensures { self.new ≡ self.old ++ part ∷ [] }
    {
        self.prefixes[self.count] = part.prefix;
        self.bits[self.count] = part.bits;
        self.count += 1;
    }

    /// The word of these parts, where they make one.
    pub fn word(&self) -> Option<Word>
        ensures accepted { IsSome result ↔ IsWord self.now }
        ensures value { IfSome result (λ word. word ≡ self.now) }
    {
        Word::of_parts(&self.prefixes[..self.count], &self.bits[..self.count])
    }
}
