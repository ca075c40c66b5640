//! What no offer is below. The floor is a number of proofs alone: no code holds it.
ghost use Rattle.std.specs.Prelude.{ℕ};

use std::marker::Brand;

/// A task whose best-so-far never has to fall below one number, its floor.
pub trait Floor {
    /// The number.
    ghost floor: { Self → ℕ };
}

/// A number that is given to the dealing of passes without any code for it.
pub trait Told {
    /// The number.
    ghost told: { ℕ };
}

impl Told for Brand {
    ghost told = { 0 };
}
