//! Why words come to no command. Want of memory is kept apart from words that ask for nothing.

use std::alloc::AllocError;
use thiserror::Error;

/// Why words come to no command.
#[derive(Clone, Copy, Debug, PartialEq, Eq, Error)]
pub enum WordsError {
    /// The words ask for no command.
    #[error("usage")]
    Usage,
    /// Memory ran out.
    #[error("out of memory")]
    NoMemory,
}

impl From<AllocError> for WordsError {
    ghost use Rattle.std.specs.Prelude.{◌≡◌};
    ghost use Rattle.command_words.specs.declared.error.WordsError.{WordsError};

    ghost from_gives = { λ _ e. e ≡ WordsError.NoMemory };

    fn from(_: AllocError) -> WordsError {
        WordsError::NoMemory
    }
}
