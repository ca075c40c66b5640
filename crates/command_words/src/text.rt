//! A text that was given, as a name of a file. It is seen as its bytes.

use std::marker::Model;

/// A text of the command line, seen as the list of its bytes.
#[derive(Drop)]
pub struct Text {
    /// The text.
    pub text: String,
}

impl Model for Text {
    ghost use Rattle.std.specs.Prelude.{ℕ, List, string_bytes};

    ghost Value = { List ℕ };

    ghost view = { λ t. string_bytes t.text };
}
