//! Why the bytes of a script are refused. Want of memory is another cause than a line that is no line of a script.

use thiserror::Error;

/// Why the bytes of a script are refused.
#[derive(Clone, Copy, Debug, PartialEq, Eq, Error)]
pub enum ScriptError {
    /// The first line that is not in the grammar, counted from 1.
    #[error("line {0}")]
    Line(u32),
    /// Memory ran out.
    #[error("out of memory")]
    NoMemory,
}
