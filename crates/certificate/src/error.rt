//! Why a certificate is refused: by its text, or by a test of what it says.

ghost use Rattle.std.specs.Prelude.{◌≡◌};
ghost use Rattle.certificate.specs.declared.error.CertError.TheVariants.{NoMemory};

use series_core::NONE;
use std::fmt;
use thiserror::Error;

/// Why the text of a certificate is refused.
#[derive(Clone, Copy, Debug, PartialEq, Eq, Error)]
pub enum CertError {
    /// The lines up to this one, counted from 1, begin no certificate; one past the last where a block is not finished.
    #[error("line {0}")]
    Line(u64),
    /// Memory ran out.
    #[error("out of memory")]
    NoMemory,
}

impl From<outside::NoMemory> for CertError {
    ghost from_gives = { λ _ e. e ≡ NoMemory };

    fn from(_: outside::NoMemory) -> CertError {
        CertError::NoMemory
    }
}

/// The first test that a certificate fails, with the values that failed it.
/// Queries and leaves are counted from 0, ranks from 1.
#[derive(Clone, Copy, Debug, PartialEq, Eq, Error)]
pub enum Reject {
    /// The first number of blocks stands for the second number of queries.
    #[error("{0} blocks for {1} queries")]
    Blocks(u64, u64),
    /// The answer of this query and rank is wrong.
    #[error("query {0} answer {1}")]
    Answers(u32, u32),
    /// Of this query and leaf, the bound that is said and the real one.
    #[error("query {0} leaf {1} bound {2} is {3}")]
    Bound(u32, u32, u64, u64),
    /// Of this query and leaf, the bound that is said, and the last distance, which it is not above.
    #[error("query {0} leaf {1} bound {2} is not above {limit}", limit = Last(*.3))]
    Low(u32, u32, u64, u64),
    /// The answers of this query miss this series.
    #[error("query {0} misses {1}")]
    Missed(u32, u32),
    /// Memory ran out.
    #[error("out of memory")]
    NoMemory,
}

// A last distance as it is reported: `none` where it stands for no last answer.
#[derive(Clone, Copy)]
struct Last(u64);

impl fmt::Display for Last {
    fn fmt<W: fmt::Write>(&self, f: &mut fmt::Formatter<W>) -> fmt::Result {
        let distance = self.0;
        if distance == NONE {
            write!(f, "none")
        } else {
            write!(f, "{distance}")
        }
    }
}
