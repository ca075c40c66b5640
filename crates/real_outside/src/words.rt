//! The words of the command line, without the program's name.
ghost use Rattle.std.specs.Prelude.{◌≡◌};
ghost use Rattle.real_outside.specs.Refusals.{told_as, words_fault_of};

use std::env;
use std::io::ErrorKind;
use std::rt::Env;
use thiserror::Error;

/// Why the words of a command line cannot be had.
#[derive(Clone, Copy, Debug, PartialEq, Eq, Error)]
pub enum WordsFault {
    /// A word is not UTF-8.
    #[error("a word that is no text")]
    NotText,
    /// Memory ran out.
    #[error("out of memory")]
    NoMemory,
}

impl WordsFault {
    /// What a program tells of it: `memory` where memory ran out, and `usage` where a word is no text.
    pub fn told_as<S: Drop>(self, memory: S, usage: S) -> S
        ensures { result ≡ told_as self memory usage }
    {
        match self {
            WordsFault::NoMemory => memory,
            WordsFault::NotText => usage,
        }
    }
}

/// The words that follow the program's name.
pub fn collect_words(rt: &(impl Env + AllocGlobal)) -> Result<Vec<String>, WordsFault> {
    let given = match env::args(rt) {
        Ok(given) => given,
        Err(error) => return Err(words_fault(error.kind())),
    };
    match given.skip(1).collect(rt.alloc()) {
        Ok(words) => Ok(words),
        Err(_) => Err(WordsFault::NoMemory),
    }
}

// Why the words cannot be had, by the kind of the refusal.
fn words_fault(kind: ErrorKind) -> WordsFault
    ensures { result ≡ words_fault_of kind }
{
    match kind {
        ErrorKind::OutOfMemory => WordsFault::NoMemory,
        _ => WordsFault::NotText,
    }
}
