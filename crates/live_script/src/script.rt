//! What a script says. Each file that it names stands with the line that names it.

use command_words::Text;
use series_core::Listed;
use std::marker::Model;

/// A series file, and the line of the script that names it.
#[derive(Drop)]
pub struct NamedFile {
    /// The line, counted from 1.
    pub line: u32,
    /// The name of the file: not empty, without a space and without a line feed.
    pub name: Text,
}

/// Queries to ask.
#[derive(Drop)]
pub struct Asking {
    /// The file of the queries.
    pub queries: NamedFile,
    /// How many nearest series to ask for, 1 to 1024.
    pub k: u32,
}

/// A list of askings, in the order of their lines.
pub type AskingList = Listed<Asking>;

/// A batch to append, and what to ask from it on up to the next batch.
#[derive(Drop)]
pub struct Group {
    /// The file of the batch.
    pub batch: NamedFile,
    /// What to ask.
    pub askings: AskingList,
}

/// A script, seen as the list of its groups.
#[derive(Drop)]
pub struct Script {
    /// The groups, in the order of their lines.
    pub groups: Vec<Group>,
}

impl Model for Script {
    ghost use Rattle.std.specs.Prelude.{List};
    ghost use Rattle.live_script.specs.declared.script.Group.{Group};

    ghost Value = { List Group };

    ghost view = { λ s. s.groups.items };
}
