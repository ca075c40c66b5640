//! The law of scripts and their texts. It is a function that does nothing: its clause is the law.
ghost use Rattle.std.specs.Prelude.{◌≡◌, ℕ, List};
ghost use Rattle.live_script.specs.Grammar.{IsScript};
ghost use Rattle.live_script.specs.declared.script.Group.{Group};

/// Bytes have at most one reading: two scripts of which the same bytes are the text are the same.
pub fn one_script_law()
    ensures { (bytes : List ℕ) (script other : List Group) → IsScript bytes script → IsScript bytes other → script ≡ other }
{}
