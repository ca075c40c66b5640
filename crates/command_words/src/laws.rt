//! The law of words and commands. It is a function that does nothing: its clause is the law.
ghost use Rattle.std.specs.Prelude.{◌≡◌, List};
ghost use Rattle.clap.specs.Words.{Text};
ghost use Rattle.command_words.specs.Settings.{HasSettings};
ghost use Rattle.command_words.specs.declared.command.Command.{Command};

/// Words ask for at most one command: two commands whose settings the same words have are the same.
pub fn one_command_law()
    ensures { (words : List Text) (c d : Command) → HasSettings words c → HasSettings words d → c ≡ d }
{}
